// One write or read at a bench, as the words of a command line ask for it: driver and model together, on a chip as delivered or
// on a stored one.
#![tactic(auto)]

mod cutting;
mod show;
mod wires;

use bench::{Recorded, Report};
use host::Host;
use parts::{Loss, Refusal, Verdict};
use power_station::board::Board;
use power_station::{TAPE, ground, request};
use wear::Most;
use words::answer::say;
use words::{Job, answer, report};

// The counts of wear of a chip, and the worst of them.
#[derive(Drop)]
struct Counts<'a> {
    groups: &'a mut [u32],
    worst: Most,
}

// The first events of a run and their levels, as many as are kept of those that were sent.
#[derive(Drop)]
struct Tape<'a> {
    events: &'a mut [u8],
    levels: &'a mut [u8],
    sent: usize,
}

// Codes of document 01, of which tapes are made: an event's, and the level of one that answers none.
const RESET: u8 = 8;

const QUIET: u8 = 2;

impl Counts<'_> {
    // The cycle that ends or is cut now counts.
    fn mark(&mut self, board: &Board) {
        let raised = wear::mark(board.part, board.chip, self.groups);
        self.worst = wear::worst::worse(self.worst, raised);
    }
}

// As much as was kept.
fn kept(tape: &[u8], sent: usize) -> &[u8] {
    &tape[..sent.min(tape.len())]
}

impl Tape<'_> {
    fn events(&self) -> &[u8] {
        kept(self.events, self.sent)
    }

    fn levels(&self) -> &[u8] {
        kept(self.levels, self.sent)
    }

    fn is_whole(&self) -> bool {
        self.sent <= self.events.len() && self.sent <= self.levels.len()
    }

    // It ends with a loss of power, at an event.
    fn lose(&mut self, at: usize) {
        if let Some(event) = self.events.get_mut(at) {
            *event = RESET;
        }
        if let Some(level) = self.levels.get_mut(at) {
            *level = QUIET;
        }
        self.sent = at.saturating_add(1);
    }
}

// ---- the run

fn tell_tape(host: &Host, ok: bool, shown: bool, tape: &mut Tape) -> bool {
    if !shown {
        return ok;
    }
    if TAPE < tape.sent {
        host.write_all(
            host::STDERR,
            b"sapwoodle: only the first 393216 events are shown\n",
        );
    }
    let told = answer::tape(host, ok, false, tape.sent, tape.events);
    answer::tape(host, told, true, tape.sent, tape.levels)
}

fn dump(host: &Host, ok: bool, job: Job, data: &[u8]) -> bool {
    if job.reads && job.length <= data.len() {
        return show::dump(host, ok, job.at, &data[..job.length]);
    }
    ok
}

fn too_many(host: &Host) -> bool {
    words::trouble(host, b"more than 393216 events, too many to draw\n");
    false
}

fn is_fine(verdict: Verdict) -> bool {
    parts::verdict_number(verdict) == 0
}

// As samples.
fn sampled(host: &Host, job: Job, tape: &Tape) -> bool {
    match job.drawn {
        None => true,
        Some(word) if tape.is_whole() => wires::store(host, word, tape.events(), tape.levels()),
        Some(_) => too_many(host),
    }
}

// As a value change dump, from the chip before the run on, which is lent for it.
fn dumped(host: &Host, job: Job, tape: &Tape, before: &mut Board) -> bool {
    let Some(word) = job.vcd else {
        return true;
    };
    if !tape.is_whole() {
        return too_many(host);
    }
    let mut held = [0u8; pack_chip::LENGTH];
    pack_chip::pack(before.chip, &mut held);
    vcd::store(
        host,
        word,
        before.part,
        before.enable,
        &held,
        before.array,
        before.id,
        tape.events(),
        tape.levels(),
    )
}

// The wires of a run, done or not; of one that was refused before its first event there are none.
fn drawn(host: &Host, job: Job, verdict: Verdict, tape: &Tape, before: &mut Board) -> bool {
    if tape.sent == 0 && !is_fine(verdict) {
        return true;
    }
    sampled(host, job, tape) && dumped(host, job, tape, before)
}

fn saved(host: &Host, job: Job, board: &Board, counts: &Counts) -> bool {
    let mut held = [0u8; pack_chip::LENGTH];
    pack_chip::pack(board.chip, &mut held);
    files::save_kept(host, job, &held, board.array, board.id, counts.groups)
}

fn tell_report(host: &Host, job: Job, r: Report) -> bool {
    report::figures(
        host,
        report::head(host, ground(job), r.verdict),
        r.bytes,
        job.length,
        r.polls,
        r.cycles,
        r.clocks,
    )
}

// The last line, where counts are saved: the most worn group, if there is one.
fn tell_worst(host: &Host, ok: bool, job: Job, worst: Most) -> bool {
    let f = parts::facts_of(job.part);
    if files::keeps(job) && 0 < worst.count {
        return say(
            host,
            report::most(host, ok, f.group, worst.group, worst.count),
            b"\n",
        );
    }
    ok
}

// The worst is found as a file is loaded, so the counts bear it out, and this is never told.
fn tell_wrong_worst(host: &Host, r: Refusal) -> bool {
    words::status::refused(host);
    let number = text::wide(parts::number(r));
    let told = answer::number(host, say(host, true, b"refused "), number);
    say(
        host,
        told,
        b": the stored worst group is not what the counts say\n",
    )
}

// Where counts are saved, the run goes over copies first: a tape may be too short to count by. The counts go on by the cycles that end in the run,
// and their worst with them. Refused where they do not bear it out: 4 can be said of nothing else here, since the chip and the bytes are as the
// run asks for them.
fn count(job: Job, board: &Board, data: &[u8], counts: &mut Counts) -> Result<(), Refusal> {
    if !files::keeps(job) {
        return Ok(());
    }
    let mut array = [0u8; 32768];
    let mut id = [0u8; 64];
    let mut bytes = [0u8; 32769];
    let mut copy = Board::copied(board, &mut array, &mut id);
    files::extend(&mut bytes, 0, data);
    let lent = fitted::first(&mut bytes, data.len());
    let kept = copy.wear(job, lent, counts.groups, counts.worst);
    match kept.report.verdict {
        Err(Refusal::BadState) => Err(Refusal::BadState),
        _ => {
            counts.worst = kept.worst;
            Ok(())
        }
    }
}

// The report, behind files that stand; of a run that is done the bytes of a read, and the worst.
fn told(host: &Host, job: Job, r: Report, worst: Most, data: &[u8], tape: &mut Tape) -> bool {
    let told = tell_report(host, job, r);
    let taped = tell_tape(host, told, job.events, tape);
    match r.verdict {
        Ok(()) => tell_worst(host, dump(host, taped, job, data), job, worst),
        Err(_) => taped,
    }
}

// It is drawn from the chip before the run. A run that is not done leaves no file.
fn run(host: &Host, job: Job, board: &mut Board, counts: &Counts, data: &mut [u8]) -> bool {
    let mut array = [0u8; 32768];
    let mut id = [0u8; 64];
    let mut events = power_station::tape();
    let mut levels = power_station::tape();
    let mut before = Board::copied(board, &mut array, &mut id);
    let Recorded { report, sent } = board.record(job, data, &mut events, &mut levels);
    let verdict = report.verdict;
    let mut tape = Tape {
        events: &mut events,
        levels: &mut levels,
        sent,
    };
    drawn(host, job, verdict, &tape, &mut before)
        && (!is_fine(verdict) || saved(host, job, board, counts))
        && told(host, job, report, counts.worst, data, &mut tape)
}

fn run_or_cut(
    host: &Host,
    job: Job,
    page: &[u8],
    board: &mut Board,
    counts: &mut Counts,
    data: &mut [u8],
) -> bool {
    if job.cut.is_some() {
        return cutting::run(host, job, page, board, counts, data);
    }
    match count(job, board, data, counts) {
        Ok(()) => run(host, job, board, counts, data),
        Err(r) => tell_wrong_worst(host, r),
    }
}

// On the chip that is asked for, with its pin as it is asked for.
fn lend(host: &Host, job: Job, page: &[u8], data: &mut [u8]) -> bool {
    let mut array = [0u8; 32768];
    let mut id = [0u8; 64];
    let mut counts = [0u32; 8192];
    let mut held = [0u8; pack_chip::LENGTH];
    let first = files::at_first(
        host,
        job,
        &mut held,
        fitted::array(job.part, &mut array),
        fitted::id(job.part, &mut id),
        fitted::counts(job.part, &mut counts),
    );
    let Some(first) = first else {
        return false;
    };
    let wear = job.wear || first.worn;
    let ready = files::prepared(
        first.verdict,
        job,
        &mut held,
        fitted::array(job.part, &mut array),
        fitted::id(job.part, &mut id),
    );
    match ready {
        Ok(()) => run_or_cut(
            host,
            Job { wear, ..job },
            page,
            &mut Board {
                part: job.part,
                enable: job.own,
                chip: pack_chip::unpack(&held),
                array: fitted::array(job.part, &mut array),
                id: fitted::id(job.part, &mut id),
            },
            &mut Counts {
                groups: fitted::counts(job.part, &mut counts),
                worst: first.worst,
            },
            data,
        ),
        Err(r) => report::refused(host, ground(job), r),
    }
}

// Refusal 3 is given before a stored chip is looked at.
fn judged(host: &Host, job: Job, page: &[u8], data: &mut [u8]) -> bool {
    let f = parts::facts_of(job.part);
    match parts::loss_verdict(f, Loss::Lent(job.lock), page.len()) {
        Ok(()) => lend(host, job, page, data),
        Err(r) => cutting::wrong_page(host, r, page.len(), f.page),
    }
}

// The page that is lent for a loss of power, where a file has it.
fn paged(host: &Host, job: Job, data: &mut [u8]) -> bool {
    let Some(word) = job.page else {
        return lend(host, job, b"", data);
    };
    let mut bytes = files::room();
    match files::contents(host, word, &mut bytes) {
        Some(page) => !files::too_long(host, word, page.len()) && judged(host, job, page, data),
        None => false,
    }
}

// 1 and 2 are given before a file is looked at. False where nothing, or not all, could be answered: standard error has the reason.
fn answer(host: &Host, job: Job, data: &mut [u8]) -> bool {
    match files::judged(job) {
        Ok(()) => paged(host, job, data),
        Err(r) => report::refused(host, ground(job), r),
    }
}

fn write_in(host: &Host, job: Job, data: &mut [u8]) -> bool {
    let Some(word) = job.bytes else {
        return false;
    };
    match words::data(host, data, word) {
        Some(length) => answer(host, Job { length, ..job }, &mut data[..length]),
        None => false,
    }
}

// ---- commands: `next` is the first word behind the command's, and the words end before `end`

// `write PART ENABLE ADDRESS HEXBYTES ..`
pub fn write_command(host: &Host, next: usize, end: usize) -> bool {
    let Some(job) = words::asked(host, false, next, end) else {
        return false;
    };
    let mut data = [0u8; 32769];
    write_in(host, job, &mut data)
}

// `read PART ENABLE ADDRESS LENGTH ..`
pub fn read_command(host: &Host, next: usize, end: usize) -> bool {
    let Some(job) = words::asked(host, true, next, end) else {
        return false;
    };
    let mut data = [0u8; 32769];
    answer(host, job, &mut data)
}
