// The driver against the model: each is told what the other does, until the driver has finished.
#![tactic(auto)]

ghost use Rattle.std.specs.Prelude.{◌≡◌, cond, true, ◌+◌, ◌<◌, length, set, eqb, ltb};
ghost use Rattle.std.proofs.lemmas.List.Edits.{sets};
ghost use Rattle.parts.specs.Table.{facts_of};
ghost use Rattle.parts.specs.Events.{event_of};
ghost use Rattle.parts.specs.Refusals.{sooner_of};
ghost use Rattle.chip.specs.Memory.{mem, store_of};
ghost use Rattle.chip.specs.Model.{ours};
ghost use Rattle.driver.specs.declared.Answer.TheVariants.{Done};
ghost use Rattle.driver.specs.Step.{driver_next_of};
ghost use Rattle.driver.specs.Machine.{our_driver};
ghost use Rattle.wear.specs.Wear.{closed_of, our_counter, worn_by};
ghost use Rattle.wear.specs.Report.{most_of};
ghost use Rattle.wear.specs.Worst.{worst_verdict_of};
ghost use Rattle.wear.specs.Calls.{counts_verdict_of};
ghost use Rattle.bench.specs.Together.{
  clock_of,
  start_of,
  asked_of,
  poll_by,
  poll_next,
  turn_of,
  turns_of,
  last_of,
  enough,
  end_due_of,
};
ghost use Rattle.bench.specs.Tape.{sends_of, sent_code_of, tape_by, turn_events, tape_events_of, tape_levels_of, laid_of};
ghost use Rattle.bench.specs.Held.{whole, chip_takes_of, at_end_of, made_of, Fit};
ghost use Rattle.bench.specs.Kept.{bench_kept_of};
ghost use Rattle.bench.specs.Calls.{other_length_of, short_of, late_of, bench_verdict_of, report_by, refused_by, bench_of};

use driver::{Answer, Driver, Phase, Request, Slot};
use parts::{Loss, Refusal, Verdict};
use state::Chip;
use wear::Most;

// How a run ended: Fine is done, refused with 1 to 8 before anything changed, with 9 to 11 by the driver.
#[derive(Clone, Copy)]
pub struct Report {
    pub verdict: Verdict,
    pub polls: usize,
    // Leading bytes whose cycle was seen to end; of a read, the bytes got.
    pub bytes: usize,
    pub cycles: usize,
    pub clocks: usize,
    pub chip: Chip,
}

// A run and its tape: `sent` events in all, the driver's and the ends of cycles.
#[derive(Clone, Copy)]
pub struct Recorded {
    pub report: Report,
    pub sent: usize,
}

// A run that counts wear, and the worst of the counts that it left; refused before anything changed, the worst that it was given.
#[derive(Clone, Copy)]
pub struct Kept {
    pub report: Report,
    pub worst: Most,
}

// Driver and chip between two askings; `level` is what the driver is told next. `worst` is that of the lent counts.
#[derive(Clone, Copy)]
struct Held {
    driver: Driver,
    level: u8,
    chip: Chip,
    cycles: usize,
    clocks: usize,
    worst: Most,
}

#[derive(Clone, Copy)]
struct Turned {
    held: Held,
    // Whether the cycle was ended first.
    ended: bool,
    answer: Answer,
}

#[derive(Clone, Copy)]
struct Gone {
    held: Held,
    // The last.
    answer: Answer,
    sent: usize,
}

#[derive(Clone, Copy)]
struct Driven {
    kept: Kept,
    sent: usize,
}

const ENDS: u8 = 4;

// The level of an event that answers none.
const QUIET: u8 = 2;

// More askings than any request takes.
const ENOUGH: usize = 6000000;

fn clock(code: u8) -> usize
    ensures { result ≡ clock_of code }
{
    usize::from(code < 2)
}

// The chip takes an event that the driver sends.
fn send(
    part: u8,
    enable: u8,
    held: Held,
    driver: Driver,
    code: u8,
    array: &mut [u8],
    id: &mut [u8],
) -> Held
    requires fit { Fit part enable held.chip (length array.old) (length id.old) }
    requires code { code < 4 }
    requires few { (held.cycles < 6000000) × (held.clocks < 6000000) }
    ensures answer { result ≡ chip_takes_of (ours (facts_of part) enable) held (mem array.old id.old) driver code }
    ensures stored { mem array.new id.new
        ≡ store_of (facts_of part) held.chip (mem array.old id.old) (event_of code) }
{
    let s = chip::step(part, enable, Loss::Old, b"", held.chip, array, id, code);
    Held {
        driver,
        level: s.level,
        chip: s.chip,
        cycles: held.cycles + s.cycles as usize,
        clocks: held.clocks + clock(code),
        ..held
    }
}

// Where it is due the chip's cycle ends, if one runs, and counts as it stood before the end.
fn end(
    due: bool,
    part: u8,
    enable: u8,
    held: Held,
    array: &mut [u8],
    id: &mut [u8],
    counts: &mut [u32],
) -> Held
    requires fit { Fit part enable held.chip (length array.old) (length id.old) }
    requires worst { held.worst ≡ most_of counts.old }
    ensures answer { result ≡ cond due (at_end_of (ours (facts_of part) enable) held result.worst) held }
    ensures stored { mem array.new id.new
        ≡ cond due (store_of (facts_of part) held.chip (mem array.old id.old) (event_of 4))
        (mem array.old id.old) }
    ensures counts { counts.new ≡ cond due (closed_of (facts_of part) held.chip counts.old) counts.old }
    ensures worst { result.worst ≡ most_of counts.new }
{
    if !due {
        return held;
    }
    let raised = wear::mark(part, held.chip, counts);
    let worst = wear::worst::worse(held.worst, raised);
    let s = chip::step(part, enable, Loss::Old, b"", held.chip, array, id, ENDS);
    Held {
        chip: s.chip,
        worst,
        ..held
    }
}

// The driver is asked once. Where it has finished nothing changes.
fn ask(
    ended: bool,
    part: u8,
    enable: u8,
    held: Held,
    array: &mut [u8],
    id: &mut [u8],
    buffer: &mut [u8],
) -> Turned
    requires fit { Fit part enable held.chip (length array.old) (length id.old) }
    requires few { (held.cycles < 6000000) × (held.clocks < 6000000) }
    ensures together { whole result.held buffer.new (mem array.new id.new)
        ≡ asked_of our_driver (ours (facts_of part) enable) (whole held buffer.old (mem array.old id.old)) }
    ensures found { (result.ended ≡ ended) × (result.answer ≡ (driver_next_of held.driver held.level buffer.old).answer) }
    ensures worst { result.held.worst ≡ held.worst }
{
    let asked = driver::next(held.driver, held.level, buffer);
    let answer = asked.answer;
    match answer {
        Answer::Send(e) => {
            let sent = send(part, enable, held, asked.driver, e, array, id);
            Turned {
                held: sent,
                ended,
                answer,
            }
        }
        Answer::Done(_, _) => Turned {
            held,
            ended,
            answer,
        },
        Answer::Refused(_, _, _) => Turned {
            held,
            ended,
            answer,
        },
    }
}

// After a poll: whether the next Start is that of poll number d of the page.
#[tactic(auto, using(crate::proofs::Laws::no_poll, crate::proofs::Laws::poll_test))]
fn polls_again(tries: usize, allowed: usize, level: u8, d: usize) -> bool
    requires { 0 < d }
    ensures { result ≡ eqb (cond (eqb level 0) 0 (cond (ltb tries allowed) (tries + 1) 0)) d }
{
    level != 0 && tries < allowed && tries == d - 1
}

#[tactic(auto, using(crate::proofs::Laws::no_poll))]
fn due_after(slot: Slot, tries: usize, allowed: usize, level: u8, d: usize) -> bool
    requires { 0 < d }
    ensures { result ≡ eqb (poll_by slot tries allowed level) d }
{
    match slot {
        Slot::Poll => polls_again(tries, allowed, level, d),
        _ => false,
    }
}

// "each cycle ends just before its poll number d": whether that poll's Start is sent next.
#[tactic(auto, using(crate::proofs::Laws::no_poll, crate::proofs::Laws::poll_test))]
fn due(phase: Phase, tries: usize, allowed: usize, level: u8, d: usize) -> bool
    requires { 0 < d }
    ensures { result ≡ eqb (poll_next phase tries allowed level) d }
{
    match phase {
        Phase::Heard(slot) => due_after(slot, tries, allowed, level, d),
        Phase::Rest => tries == d - 1,
        _ => false,
    }
}

// The cycle ends where its poll number d comes next; then the driver is asked.
fn turn(
    part: u8,
    enable: u8,
    d: usize,
    held: Held,
    array: &mut [u8],
    id: &mut [u8],
    buffer: &mut [u8],
    counts: &mut [u32],
) -> Turned
    requires fit { Fit part enable held.chip (length array.old) (length id.old) }
    requires few { (held.cycles < 6000000) × (held.clocks < 6000000) }
    requires first { 0 < d }
    requires worst { held.worst ≡ most_of counts.old }
    ensures together { whole result.held buffer.new (mem array.new id.new)
        ≡ turn_of our_driver (ours (facts_of part) enable) d (whole held buffer.old (mem array.old id.old)) }
    ensures found { (result.ended ≡ end_due_of d (whole held buffer.old (mem array.old id.old)))
        × (result.answer ≡ (driver_next_of held.driver held.level buffer.old).answer) }
    ensures counts { counts.new
        ≡ worn_by our_counter (ours (facts_of part) enable) (facts_of part) held.chip counts.old
        (turn_events our_driver d (whole held buffer.old (mem array.old id.old))) }
    ensures worst { result.held.worst ≡ most_of counts.new }
{
    let driver = held.driver;
    let most = driver::allowed(driver.request);
    let ended = due(driver.phase, driver.counts.tries, most, held.level, d);
    let ready = end(ended, part, enable, held, array, id, counts);
    ask(ended, part, enable, ready, array, id, buffer)
}

// ---- the tape

fn sends(answer: Answer) -> bool
    ensures { result ≡ sends_of answer }
{
    matches!(answer, Answer::Send(_))
}

// 0 where nothing is sent.
fn code(answer: Answer) -> u8
    ensures { result ≡ sent_code_of answer }
{
    match answer {
        Answer::Send(e) => e,
        _ => 0,
    }
}

fn put(to: &mut [u8], at: usize, x: u8)
    ensures { to.new ≡ set to.old at x }
{
    if at < to.len() {
        to[at] = x;
    }
}

// An event, where there is one, and its level; the place after it.
fn note(there: bool, code: u8, level: u8, at: usize, events: &mut [u8], levels: &mut [u8]) -> usize
    requires { at < 20000000 }
    ensures at { result ≡ cond there (at + 1) at }
    ensures events { events.new ≡ cond there (set events.old at code) events.old }
    ensures levels { levels.new ≡ cond there (set levels.old at level) levels.old }
{
    if !there {
        return at;
    }
    put(events, at, code);
    put(levels, at, level);
    at + 1
}

// The events of a turn; `level` is the driver's event's.
fn tape(
    ended: bool,
    sends: bool,
    code: u8,
    level: u8,
    at: usize,
    events: &mut [u8],
    levels: &mut [u8],
) -> usize
    requires { at < 12000000 }
    ensures at { result ≡ at + length (tape_by ended sends 4 code) }
    ensures events { events.new ≡ sets events.old at (tape_by ended sends 4 code) }
    ensures levels { levels.new ≡ sets levels.old at (tape_by ended sends 2 level) }
{
    let next = note(ended, ENDS, QUIET, at, events, levels);
    note(sends, code, level, next, events, levels)
}

// False: a turn changes nothing any more.
fn going(ended: bool, sends: bool) -> bool
    ensures { result ≡ cond ended true sends }
{
    ended || sends
}

// Turn after turn, until nothing changes any more.
fn go(
    part: u8,
    enable: u8,
    d: usize,
    first: Held,
    array: &mut [u8],
    id: &mut [u8],
    buffer: &mut [u8],
    counts: &mut [u32],
    events: &mut [u8],
    levels: &mut [u8],
) -> Gone
    requires fit { Fit part enable first.chip (length array.old) (length id.old) }
    requires none { (first.cycles ≡ 0) × (first.clocks ≡ 0) }
    requires first { 0 < d }
    requires worst { first.worst ≡ most_of counts.old }
    ensures together { whole result.held buffer.new (mem array.new id.new)
        ≡ turns_of our_driver (ours (facts_of part) enable) d enough (whole first buffer.old (mem array.old id.old)) }
    ensures last { result.answer
        ≡ last_of our_driver (ours (facts_of part) enable) d enough (Done 0 0) (whole first buffer.old (mem array.old id.old)) }
    ensures sent { result.sent
        ≡ length (tape_events_of our_driver (ours (facts_of part) enable) d enough
        (whole first buffer.old (mem array.old id.old))) }
    ensures events { events.new
        ≡ laid_of events.old
        (tape_events_of our_driver (ours (facts_of part) enable) d enough (whole first buffer.old (mem array.old id.old))) }
    ensures levels { levels.new
        ≡ laid_of levels.old
        (tape_levels_of our_driver (ours (facts_of part) enable) d enough (whole first buffer.old (mem array.old id.old))) }
    ensures counts { counts.new
        ≡ worn_by our_counter (ours (facts_of part) enable) (facts_of part) first.chip counts.old
        (tape_events_of our_driver (ours (facts_of part) enable) d enough (whole first buffer.old (mem array.old id.old))) }
    ensures worst { result.held.worst ≡ most_of counts.new }
{
    let mut held = first;
    let mut answer = Answer::Done(0, 0);
    let mut sent: usize = 0;
    let mut left = ENOUGH;
    while 0 < left {
        let t = turn(part, enable, d, held, array, id, buffer, counts);
        let next = t.held;
        let told = t.answer;
        let there = sends(told);
        sent = tape(t.ended, there, code(told), next.level, sent, events, levels);
        held = next;
        answer = told;
        if !going(t.ended, there) {
            return Gone { held, answer, sent };
        }
        left -= 1;
    }
    Gone { held, answer, sent }
}

fn reported(held: Held, answer: Answer) -> Report
    ensures { result ≡ made_of held answer }
{
    let chip = held.chip;
    match answer {
        Answer::Send(_) => Report {
            verdict: Ok(()),
            polls: 0,
            bytes: 0,
            cycles: held.cycles,
            clocks: held.clocks,
            chip,
        },
        Answer::Done(polls, bytes) => Report {
            verdict: Ok(()),
            polls,
            bytes,
            cycles: held.cycles,
            clocks: held.clocks,
            chip,
        },
        Answer::Refused(r, polls, bytes) => Report {
            verdict: Err(r),
            polls,
            bytes,
            cycles: held.cycles,
            clocks: held.clocks,
            chip,
        },
    }
}

// A request that nothing refuses; `bytes` has the bytes asked for and no more.
fn drive(
    request: Request,
    enable: u8,
    d: usize,
    chip: Chip,
    array: &mut [u8],
    id: &mut [u8],
    bytes: &mut [u8],
    counts: &mut [u32],
    worst: Most,
    events: &mut [u8],
    levels: &mut [u8],
) -> Driven
    requires fit { Fit request.part enable chip (length array.old) (length id.old) }
    requires first { 0 < d }
    requires worst { worst ≡ most_of counts.old }
    ensures answer { result.kept.report
        ≡ report_by (turns_of our_driver (ours (facts_of request.part) enable) d enough
        (start_of request bytes.old chip (mem array.old id.old)))
        (last_of our_driver (ours (facts_of request.part) enable) d enough (Done 0 0)
        (start_of request bytes.old chip (mem array.old id.old))) }
    ensures stored { mem array.new id.new
        ≡ (turns_of our_driver (ours (facts_of request.part) enable) d enough
        (start_of request bytes.old chip (mem array.old id.old))).mem }
    ensures bytes { bytes.new
        ≡ (turns_of our_driver (ours (facts_of request.part) enable) d enough
        (start_of request bytes.old chip (mem array.old id.old))).buffer }
    ensures sent { result.sent
        ≡ length (tape_events_of our_driver (ours (facts_of request.part) enable) d enough
        (start_of request bytes.old chip (mem array.old id.old))) }
    ensures events { events.new
        ≡ laid_of events.old
        (tape_events_of our_driver (ours (facts_of request.part) enable) d enough
        (start_of request bytes.old chip (mem array.old id.old))) }
    ensures levels { levels.new
        ≡ laid_of levels.old
        (tape_levels_of our_driver (ours (facts_of request.part) enable) d enough
        (start_of request bytes.old chip (mem array.old id.old))) }
    ensures counts { counts.new
        ≡ worn_by our_counter (ours (facts_of request.part) enable) (facts_of request.part) chip counts.old
        (tape_events_of our_driver (ours (facts_of request.part) enable) d enough
        (start_of request bytes.old chip (mem array.old id.old))) }
    ensures worst { result.kept.worst ≡ most_of counts.new }
{
    let begun = driver::begin(request);
    let driver = begun.driver;
    let first = Held {
        driver,
        level: 1,
        chip,
        cycles: 0,
        clocks: 0,
        worst,
    };
    let gone = go(
        request.part,
        enable,
        d,
        first,
        array,
        id,
        bytes,
        counts,
        events,
        levels,
    );
    let last = gone.held;
    let answer = gone.answer;
    let report = reported(last, answer);
    let left = last.worst;
    let kept = Kept {
        report,
        worst: left,
    };
    Driven {
        kept,
        sent: gone.sent,
    }
}

// ---- refusals

// 4: the data have another length than asked.
#[tactic(auto, unfolding(crate::specs::Calls::other_length_of))]
fn other_length(reads: bool, length: usize, b: usize) -> bool
    ensures { result ≡ other_length_of reads length b }
{
    !reads && b != length
}

// 6: a read's buffer is too short.
#[tactic(auto, unfolding(crate::specs::Calls::short_of))]
fn short(reads: bool, length: usize, b: usize) -> bool
    ensures { result ≡ short_of reads length b }
{
    reads && b < length
}

// 8: d outside 1 to 65,535.
#[tactic(auto, unfolding(crate::specs::Calls::late_of))]
fn late(d: usize) -> bool
    ensures { result ≡ late_of d }
{
    d < 1 || 65535 < d
}

// The request is the driver's to judge, the chip and its buffers are the chip's.
fn judge(
    request: Request,
    enable: u8,
    d: usize,
    chip: Chip,
    n: usize,
    i: usize,
    b: usize,
) -> Verdict
    ensures { result ≡ bench_verdict_of request enable d chip n i b }
{
    let asked = driver::judge(request);
    let held = chip::held_verdict(request.part, enable, chip, n, i);
    let wrong = other_length(request.reads, request.length, b);
    let scant = short(request.reads, request.length, b);
    let limit = late(d);
    let data = parts::claim(wrong, Refusal::BadState);
    let room = parts::claim(scant, Refusal::ShortBuffer);
    let ends = parts::claim(limit, Refusal::BadLimit);
    let own = parts::sooner(data, parts::sooner(room, ends));
    parts::sooner(asked, parts::sooner(held, own))
}

// With counts: they and their worst too. Here alone the counts are looked over.
fn judge_worn(
    request: Request,
    enable: u8,
    d: usize,
    chip: Chip,
    n: usize,
    i: usize,
    b: usize,
    counts: &[u32],
    worst: Most,
) -> Verdict
    ensures { result
        ≡ sooner_of (worst_verdict_of counts.now worst)
        (sooner_of (counts_verdict_of (facts_of request.part) (length counts.now)) (bench_verdict_of request enable d chip n i b)) }
{
    let borne = wear::worst::verdict(counts, worst);
    let ready = wear::counts_verdict(request.part, counts.len());
    let judged = judge(request, enable, d, chip, n, i, b);
    parts::sooner(borne, parts::sooner(ready, judged))
}

// ---- runs

fn refused(why: Refusal, chip: Chip) -> Recorded
    ensures { (result.report ≡ refused_by why chip) × (result.sent ≡ 0) }
{
    let report = Report {
        verdict: Err(why),
        polls: 0,
        bytes: 0,
        cycles: 0,
        clocks: 0,
        chip,
    };
    Recorded { report, sent: 0 }
}

// A request on a chip at its own enable and its lent buffers, each cycle ending just before its poll number d. The buffer holds the
// bytes to write, or takes the bytes read. The events and their levels are kept as far as the two last buffers reach.
pub fn record(
    request: Request,
    enable: u8,
    d: usize,
    chip: Chip,
    array: &mut [u8],
    id: &mut [u8],
    buffer: &mut [u8],
    events: &mut [u8],
    levels: &mut [u8],
) -> Recorded
    ensures answer { result.report ≡ (bench_of request enable d chip (mem array.old id.old) buffer.old).report }
    ensures stored { mem array.new id.new
        ≡ (bench_of request enable d chip (mem array.old id.old) buffer.old).mem }
    ensures bytes { buffer.new ≡ (bench_of request enable d chip (mem array.old id.old) buffer.old).buffer }
    ensures sent { result.sent ≡ length (bench_of request enable d chip (mem array.old id.old) buffer.old).events }
    ensures events { events.new
        ≡ laid_of events.old (bench_of request enable d chip (mem array.old id.old) buffer.old).events }
    ensures levels { levels.new
        ≡ laid_of levels.old (bench_of request enable d chip (mem array.old id.old) buffer.old).levels }
{
    let verdict = judge(
        request,
        enable,
        d,
        chip,
        array.len(),
        id.len(),
        buffer.len(),
    );
    match verdict {
        Ok(()) => {
            let n = request.length;
            let bytes = &mut buffer[..n];
            let mut none = [0u32; 1];
            let counts = &mut none[..0];
            let worst = Most { group: 0, count: 0 };
            let driven = drive(
                request, enable, d, chip, array, id, bytes, counts, worst, events, levels,
            );
            Recorded {
                report: driven.kept.report,
                sent: driven.sent,
            }
        }
        Err(r) => refused(r, chip),
    }
}

// The same run, with a tape that nobody reads.
pub fn run(
    request: Request,
    enable: u8,
    d: usize,
    chip: Chip,
    array: &mut [u8],
    id: &mut [u8],
    buffer: &mut [u8],
) -> Report
    ensures answer { result ≡ (bench_of request enable d chip (mem array.old id.old) buffer.old).report }
    ensures stored { mem array.new id.new
        ≡ (bench_of request enable d chip (mem array.old id.old) buffer.old).mem }
    ensures bytes { buffer.new ≡ (bench_of request enable d chip (mem array.old id.old) buffer.old).buffer }
{
    let mut events = [0u8; 1];
    let mut levels = [0u8; 1];
    let recorded = record(
        request,
        enable,
        d,
        chip,
        array,
        id,
        buffer,
        &mut events,
        &mut levels,
    );
    recorded.report
}

// The same run, and the counts go on by the cycles that end in it; their worst goes in and comes back. Refused too where the counts are not
// one for each group of the part, or where they do not bear the worst out.
pub fn run_worn(
    request: Request,
    enable: u8,
    d: usize,
    chip: Chip,
    array: &mut [u8],
    id: &mut [u8],
    buffer: &mut [u8],
    counts: &mut [u32],
    worst: Most,
) -> Kept
    ensures answer { result.report
        ≡ (bench_kept_of request enable d chip (mem array.old id.old) buffer.old counts.old worst).worn.left.report }
    ensures stored { mem array.new id.new
        ≡ (bench_kept_of request enable d chip (mem array.old id.old) buffer.old counts.old worst).worn.left.mem }
    ensures bytes { buffer.new
        ≡ (bench_kept_of request enable d chip (mem array.old id.old) buffer.old counts.old worst).worn.left.buffer }
    ensures counts { counts.new
        ≡ (bench_kept_of request enable d chip (mem array.old id.old) buffer.old counts.old worst).worn.counts }
    ensures worst { result.worst
        ≡ (bench_kept_of request enable d chip (mem array.old id.old) buffer.old counts.old worst).worst }
{
    let verdict = judge_worn(
        request,
        enable,
        d,
        chip,
        array.len(),
        id.len(),
        buffer.len(),
        counts,
        worst,
    );
    match verdict {
        Ok(()) => {
            let n = request.length;
            let bytes = &mut buffer[..n];
            let mut events = [0u8; 1];
            let mut levels = [0u8; 1];
            let driven = drive(
                request,
                enable,
                d,
                chip,
                array,
                id,
                bytes,
                counts,
                worst,
                &mut events,
                &mut levels,
            );
            driven.kept
        }
        Err(r) => {
            let gone = refused(r, chip);
            Kept {
                report: gone.report,
                worst,
            }
        }
    }
}
