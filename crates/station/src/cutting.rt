// A write whose power is lost before an event (document 02, §5). The run is recorded on copies; the chip as it was then takes the tape up to that
// event, and a reset.
use crate::{Counts, Tape};
use bench::Recorded;
use driver::{Answer, Driver};
use host::Host;
use parts::{Refusal, Verdict};
use power_station::board::{Board, Under};
use power_station::{TAPE, cut, ground, request};
use words::answer::{number, say};
use words::{Job, answer, report};

// The driver after some events of a tape; `level` is what it is told next.
#[derive(Clone, Copy)]
struct Halted {
    driver: Driver,
    level: u8,
    cycles: usize,
    clocks: usize,
}

// What the cut found: the cycle that the chip was in, if it was in one, and what the driver had told by then: what it answers next, and its
// figures.
#[derive(Clone, Copy)]
struct Standing {
    under: Option<Under>,
    next: Answer,
    bytes: usize,
    polls: usize,
    cycles: usize,
    clocks: usize,
}

// A code of document 01, of which tapes are made.
const ENDS: u8 = 4;

// The event before which power is lost, of a job that cuts.
fn place(job: Job) -> usize {
    job.cut.unwrap_or(0)
}

// ---- up to the cut

impl Halted {
    fn new(job: Job) -> Halted {
        Halted {
            driver: driver::begin(request(job)).driver,
            level: 1,
            cycles: 0,
            clocks: 0,
        }
    }

    // An event of the tape. A cycle counts when it ends, which the driver is not told; an event that it sends it is asked for, as it was when the
    // tape was made.
    fn step(self, code: u8, board: &mut Board, counts: &mut Counts, data: &mut [u8]) -> Halted {
        if code == ENDS {
            counts.mark(board);
            board.take(code);
            return self;
        }
        let s = board.take(code);
        let asked = driver::next(self.driver, self.level, data);
        Halted {
            driver: asked.driver,
            level: s.level,
            cycles: self.cycles.saturating_add(usize::from(0 < s.cycles)),
            clocks: self.clocks.saturating_add(usize::from(code < 2)),
        }
    }

    // A driver that had finished answers so again.
    fn standing(self, board: &Board, data: &mut [u8]) -> Standing {
        let next = driver::next(self.driver, self.level, data).answer;
        let counts = self.driver.counts;
        Standing {
            under: board.cycle(),
            next,
            bytes: counts.seen,
            polls: counts.polls,
            cycles: self.cycles,
            clocks: self.clocks,
        }
    }
}

// The tape's events before the cut.
fn replayed(
    job: Job,
    events: &[u8],
    board: &mut Board,
    counts: &mut Counts,
    data: &mut [u8],
) -> Standing {
    let mut h = Halted::new(job);
    for code in events {
        h = h.step(*code, board, counts, data);
    }
    h.standing(board, data)
}

// ---- the cut

// Without a file of bytes: one byte everywhere, or what differs everywhere.
fn lose_made(job: Job, board: &mut Board) {
    let f = parts::facts_of(job.part);
    let mut room = [0u8; 64];
    let page = fitted::first(&mut room, f.page);
    match job.fill {
        Some(b) => page.fill(b),
        None => board.turned(page),
    }
    board.lose(job.lock, page);
}

// The chip loses its power; a cycle that this cuts counts.
fn lose(job: Job, page: &[u8], board: &mut Board, counts: &mut Counts) {
    counts.mark(board);
    if job.page.is_some() {
        board.lose(job.lock, page);
    } else {
        lose_made(job, board);
    }
}

// ---- what is told

pub fn wrong_page(host: &Host, r: Refusal, n: usize, wanted: usize) -> bool {
    let named = say(
        host,
        answer::refused(host, r),
        b"the page lent for a loss of power: got ",
    );
    let told = number(host, named, n);
    answer::count(host, told, b" bytes, wanted ", wanted)
}

fn tell_under(host: &Host, ok: bool, job: Job, under: Option<Under>) -> bool {
    match under {
        None => say(host, ok, b"in no cycle\n"),
        Some(Under::Page(p)) => {
            let named = say(host, ok, b"in the cycle of ");
            say(host, report::page(host, named, ground(job), p), b"\n")
        }
        Some(Under::Ident) => say(host, ok, b"in the cycle of the identification page\n"),
        Some(Under::Lock) => say(host, ok, b"in a locking cycle\n"),
    }
}

// `cut before event 96, in the cycle of page 1 (0020h to 003Fh)`
fn tell_cut(host: &Host, job: Job, under: Option<Under>) -> bool {
    let named = say(host, true, b"cut before event ");
    let told = number(host, named, place(job));
    tell_under(host, say(host, told, b", "), job, under)
}

fn tell_figures(host: &Host, ok: bool, job: Job, f: Standing, polls: usize, bytes: usize) -> bool {
    report::figures(host, ok, bytes, job.length, polls, f.cycles, f.clocks)
}

// A verdict where the driver had finished by then.
fn tell_driver(host: &Host, job: Job, f: Standing) -> bool {
    match f.next {
        Answer::Send(_) => tell_figures(
            host,
            say(host, true, b"under way\n"),
            job,
            f,
            f.polls,
            f.bytes,
        ),
        Answer::Done(polls, bytes) => {
            tell_figures(
                host,
                report::head(host, ground(job), Ok(())),
                job,
                f,
                polls,
                bytes,
            )
        }
        Answer::Refused(r, polls, bytes) => {
            tell_figures(
                host,
                report::refused(host, ground(job), r),
                job,
                f,
                polls,
                bytes,
            )
        }
    }
}

fn tell_place(host: &Host, ok: bool, ident: bool, at: usize) -> bool {
    let named = if ident {
        say(host, ok, b"location ")
    } else {
        ok
    };
    answer::address(host, named, at)
}

// `0024h: FFh -> 00h beside`
fn tell_byte(
    host: &Host,
    ok: bool,
    ident: bool,
    at: usize,
    is_asked: bool,
    old: u8,
    new: u8,
) -> bool {
    if old == new {
        return ok;
    }
    let placed = tell_place(host, ok, ident, at);
    let from = answer::byte(host, say(host, placed, b": "), old);
    let to = answer::byte(host, say(host, from, b" -> "), new);
    if is_asked {
        return say(host, to, b" asked\n");
    }
    say(host, to, b" beside\n")
}

// Each byte of a memory that is not as before the run. Of the memory that is asked for so many from a place on were to be written, of the other
// none.
fn tell_memory(host: &Host, ok: bool, job: Job, ident: bool, before: &[u8], after: &[u8]) -> bool {
    let many = if ident == job.ident { job.length } else { 0 };
    before
        .iter()
        .zip(after)
        .enumerate()
        .fold(ok, |told, (i, (old, new))| {
            let is_asked = cut::inside(i, job.at, many);
            tell_byte(host, told, ident, i, is_asked, *old, *new)
        })
}

// ---- the run

// The cut is at an event of the tape, or behind its last.
fn on_tape(host: &Host, k: usize, sent: usize) -> bool {
    if sent < k {
        words::trouble(host, b"--cut: got ");
        files::tell::number(host, k);
        files::tell::say(host, b", wanted no more than the ");
        files::tell::number(host, sent);
        files::tell::say(host, b" events of the run\n");
        return false;
    }
    if TAPE <= k {
        words::trouble(
            host,
            b"--cut goes up to 393215: no more events of a run are kept\n",
        );
        return false;
    }
    true
}

// `was` has what stood before the run.
fn tell(
    host: &Host,
    job: Job,
    found: Standing,
    board: &Board,
    was: &Board,
    tape: &mut Tape,
) -> bool {
    let told = tell_cut(host, job, found.under) && tell_driver(host, job, found);
    let taped = crate::tell_tape(host, told, job.events, tape);
    let listed = tell_memory(host, taped, job, false, was.array, board.array);
    tell_memory(host, listed, job, true, was.id, board.id)
}

// The wires up to the cut; the loss of power, with which the tape ends, is no event of the wires, but it ends a cycle. The chip before the run is
// kept for what is told.
fn drawn(host: &Host, job: Job, was: &Board, tape: &mut Tape) -> bool {
    let mut array = [0u8; 32768];
    let mut id = [0u8; 64];
    let mut copy = Board::copied(was, &mut array, &mut id);
    tape.sent = place(job);
    if !crate::sampled(host, job, tape) {
        return false;
    }
    tape.lose(place(job));
    crate::dumped(host, job, tape, &mut copy)
}

// The files stand before the report is told.
fn cut_run(
    host: &Host,
    job: Job,
    page: &[u8],
    board: &mut Board,
    was: &Board,
    counts: &mut Counts,
    data: &mut [u8],
    tape: &mut Tape,
) -> bool {
    tape.sent = place(job);
    let found = replayed(job, tape.events(), board, counts, data);
    lose(job, page, board, counts);
    if !drawn(host, job, was, tape) || !crate::saved(host, job, board, counts) {
        return false;
    }
    let told = tell(host, job, found, board, was, tape);
    crate::tell_worst(host, told, job, counts.worst)
}

// The whole run goes over copies, which it leaves as they were. One that is refused before its first event is told as if nothing cut it.
pub fn run(
    host: &Host,
    job: Job,
    page: &[u8],
    board: &mut Board,
    counts: &mut Counts,
    data: &mut [u8],
) -> bool {
    let mut array = [0u8; 32768];
    let mut id = [0u8; 64];
    let mut events = power_station::tape();
    let mut levels = power_station::tape();
    let mut was = Board::copied(board, &mut array, &mut id);
    let Recorded { report, sent } = was.record(job, data, &mut events, &mut levels);
    was.copy(board);
    if sent == 0 && !crate::is_fine(report.verdict) {
        return crate::tell_report(host, job, report);
    }
    if !on_tape(host, place(job), sent) {
        return false;
    }
    let mut tape = Tape {
        events: &mut events,
        levels: &mut levels,
        sent,
    };
    cut_run(host, job, page, board, &was, counts, data, &mut tape)
}
