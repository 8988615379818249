// The command `power`: which bytes a loss of power in each cycle of a write may spoil. Driver and model run the write on a part as delivered; at
// each Stop that begins a cycle a copy of the chip loses its power. Also what `write --cut` shares with it.
#![tactic(auto)]

pub mod board;
pub mod cut;

ghost use Rattle.std.specs.Prelude.{◌≡◌, length};

use bench::Recorded;
use board::{Board, Under};
use driver::{Place, Request};
use host::Host;
use parts::{ArrayAddress, IdLocation, Verdict};
use words::answer::{count, number, say};
use words::report::Ground;
use words::{Job, answer, report};

// The events of a run that are kept: more than writing or reading the whole of the largest array takes, where no page is polled
// more than a dozen times.
pub const TAPE: usize = 393216;

// The most bytes that a request can be for: one more than any array has.
const MOST: usize = 32769;

// What was told: the pages, the bytes that may be spoiled, and those of them that are beside.
#[derive(Clone, Copy)]
struct Told {
    pages: usize,
    bytes: usize,
    beside: usize,
}

// ---- what a job asks for

pub fn tape() -> [u8; 393216]
    ensures { 393216 ≡ length result }
{
    [0; 393216]
}

fn place(ident: bool, at: usize) -> Place {
    if ident {
        Place::Ident(IdLocation(at))
    } else {
        Place::Array(ArrayAddress(at))
    }
}

// More than any array has is refused as one byte more is; so the buffer is never what a request is refused for.
pub fn request(job: Job) -> Request {
    Request {
        part: job.part,
        enable: job.enable,
        place: place(job.ident, job.at),
        reads: job.reads,
        length: job.length.min(MOST),
        budget: job.budget,
    }
}

pub fn ground(job: Job) -> Ground {
    Ground {
        page: parts::facts_of(job.part).page,
        ident: job.ident,
        from: job.at,
    }
}

// ---- what is told

fn plural(host: &Host, ok: bool, n: usize) -> bool {
    let told = number(host, ok, n);
    if n == 1 {
        return say(host, told, b" byte");
    }
    say(host, told, b" bytes")
}

// `M24C64: groups of 4 bytes`
fn heading(host: &Host, part: u8) -> bool {
    let f = parts::facts_of(part);
    let named = answer::written(host, words::say_name(host, part));
    let told = plural(host, say(host, named, b": groups of "), f.group);
    say(host, told, b"\n")
}

fn beside(host: &Host, ok: bool, n: usize) -> bool {
    let told = if n == 0 {
        say(host, ok, b", no byte")
    } else {
        plural(host, say(host, ok, b", "), n)
    };
    say(host, told, b" beside those written\n")
}

// `0024h..0027h, 2 bytes beside those written`, where what stands before it was told. Nothing where standard output did not take it.
fn spoiled(host: &Host, job: Job, ok: bool, w: Told, before: &[u8], after: &[u8]) -> Option<Told> {
    let all = cut::differing(before, after, 0, 0);
    let more = cut::differing(before, after, job.at, job.length);
    let told = beside(host, answer::spans(host, ok, before, after), more);
    told.then_some(Told {
        pages: w.pages.saturating_add(1),
        bytes: w.bytes.saturating_add(all),
        beside: w.beside.saturating_add(more),
    })
}

// `page 0020h: `
fn named(host: &Host, part: u8, p: usize) -> bool {
    let f = parts::facts_of(part);
    let told = say(host, true, b"page ");
    let placed = answer::address(host, told, report::first_of(p, f.page));
    say(host, placed, b": ")
}

fn totals(host: &Host, w: Told) -> bool {
    let pages = number(host, say(host, true, b"pages "), w.pages);
    let bytes = number(host, say(host, pages, b" bytes "), w.bytes);
    count(host, bytes, b" beside ", w.beside)
}

// ---- the run

// The copy loses its power.
fn lose(other: &mut Board) {
    let f = parts::facts_of(other.part);
    let mut room = [0u8; 64];
    let page = fitted::first(&mut room, f.page);
    other.turned(page);
    other.lose(false, page);
}

// What then differs. The driver never locks.
fn tell_lost(host: &Host, job: Job, w: Told, board: &Board, other: &Board) -> Option<Told> {
    match board.cycle() {
        Some(Under::Page(p)) => {
            let ok = named(host, job.part, p);
            spoiled(host, job, ok, w, board.array, other.array)
        }
        Some(Under::Ident) => {
            let ok = say(host, true, b"identification page: ");
            spoiled(host, job, ok, w, board.id, other.id)
        }
        Some(Under::Lock) | None => Some(w),
    }
}

// One event of the tape; where it begins a cycle, that one is cut on the copy.
fn step(
    host: &Host,
    job: Job,
    w: Told,
    code: u8,
    board: &mut Board,
    other: &mut Board,
) -> Option<Told> {
    if board.take(code).cycles == 0 {
        return Some(w);
    }
    other.copy(board);
    lose(other);
    tell_lost(host, job, w, board, other)
}

fn walk(
    host: &Host,
    job: Job,
    board: &mut Board,
    other: &mut Board,
    events: &[u8],
) -> Option<Told> {
    let mut w = Told {
        pages: 0,
        bytes: 0,
        beside: 0,
    };
    for code in events {
        w = step(host, job, w, *code, board, other)?;
    }
    Some(w)
}

// The tape goes over a part as delivered.
fn tell_all(host: &Host, job: Job, board: &mut Board, other: &mut Board, events: &[u8]) -> bool {
    board.deliver();
    if !heading(host, job.part) {
        return false;
    }
    match walk(host, job, board, other, events) {
        Some(w) => totals(host, w),
        None => false,
    }
}

// The write on a part as delivered; no write with one poll a page has more events than the tape keeps.
fn run(host: &Host, job: Job, board: &mut Board, other: &mut Board, data: &mut [u8]) -> bool {
    let mut events = tape();
    let mut levels = tape();
    let Recorded { report, sent } = board.record(job, data, &mut events, &mut levels);
    match report.verdict {
        Ok(()) => match events.get(..sent) {
            Some(all) => tell_all(host, job, board, other, all),
            None => false,
        },
        Err(r) => report::refused(host, ground(job), r),
    }
}

// What is written does not matter: zeros.
fn answer_in(host: &Host, job: Job, data: &mut [u8]) -> bool {
    let mut array = [0u8; 32768];
    let mut id = [0u8; 64];
    let mut other = [0u8; 32768];
    let mut other_id = [0u8; 64];
    run(
        host,
        job,
        &mut Board::new(job.part, job.own, &mut array, &mut id),
        &mut Board::new(job.part, job.own, &mut other, &mut other_id),
        data,
    )
}

// `power PART ADDRESS LENGTH ..`: `next` is the first word behind the command's, and the words end before `end`. False where not all could be
// answered: standard error has the reason.
pub fn power_command(host: &Host, next: usize, end: usize) -> bool {
    let Some(job) = words::power_asked(host, next, end) else {
        return false;
    };
    let mut data = [0u8; MOST];
    let length = job.length.min(MOST);
    answer_in(
        host,
        Job { length, ..job },
        fitted::first(&mut data, length),
    )
}
