// Wear: how many completed or cut cycles touched each error-correction group of the array, counted beside the chip in a lent slice, and the
// most worn group of them. Nobody has to check first.
#![tactic(auto)]

pub mod worst;

ghost use Rattle.std.specs.Prelude.{◌≡◌, cond, ◌+◌, ◌≤◌, length, ltb, Ok, Err};
ghost use Rattle.parts.specs.Table.{facts_of};
ghost use Rattle.parts.specs.Bytes.{topped};
ghost use Rattle.parts.specs.Refusals.{sooner_of};
ghost use Rattle.chip.specs.Memory.{mem, chip};
ghost use Rattle.chip.specs.Model.{cut_by, ours_with};
ghost use Rattle.chip.specs.Calls.{run_by, run_mem, run_answers, run_verdict_of};
ghost use Rattle.wear.specs.Wear.{bumped_of, page_worn_of, target_worn_of, cycle_worn_of, closed_of, our_counter, worn_by};
ghost use Rattle.wear.specs.Report.{most, joined_of};
ghost use Rattle.wear.specs.Worst.{later_of, worse_of, raised_of};
ghost use Rattle.wear.specs.Calls.{group_count_of, counts_verdict_of, wear_of, kept_of, found_of, report_by, report_of, join_of};

use chip::Ran;
use line::{Cycle, Line, Phase, Target};
use parts::{Loss, Refusal, Verdict};
use state::Chip;

// A group and its count.
#[derive(Clone, Copy, Default)]
pub struct Most {
    pub group: usize,
    pub count: u32,
}

// What a run of the chip answers, and a group. Of `run` it is the worst of the counts that the call left; of `go_on` the most worn of
// the groups that it raised.
#[derive(Clone, Copy)]
pub struct Worn {
    pub ran: Ran,
    pub most: Most,
}

// What the walk along the counts finds; 0 and 0 where the call is refused (`found_of`), so the verdict stands beside it.
#[derive(Clone, Copy)]
pub struct Found {
    pub verdict: Verdict,
    pub worst: Most,
}

// The sum of the counts, and the group with most; 0, 0 and 0 where the call is refused (`report_of`), so the verdict stands beside them.
#[derive(Clone, Copy)]
pub struct Reported {
    pub verdict: Verdict,
    pub total: u64,
    // The lowest on a tie.
    pub group: usize,
    pub count: u32,
}

// How many counts a part has; 0 where there is no such part.
#[tactic(auto, unfolding(crate::specs::Calls::group_count_of, parts::specs::Table::groups_of))]
pub fn groups(part: u8) -> usize
    ensures { result ≡ group_count_of (facts_of part) }
{
    let f = parts::facts_of(part);
    if f.known { f.size / f.group } else { 0 }
}

// ---- one cycle

// Each function of a cycle answers the most worn of the groups that it raised.
fn none() -> Most
    ensures { result ≡ most 0 0 }
{
    Most::default()
}

// A group that is not touched costs nothing. Those of a page come in their order, so only strictly more takes the place of what was most.
#[tactic(auto, using(crate::proofs::Laws::kept), unfolding(crate::specs::Wear::bumped_of, parts::specs::Bytes::up_of))]
fn bump(counts: &mut [u32], at: usize, on: bool, best: Most) -> Most
    ensures counts { counts.new ≡ bumped_of counts.old at on }
    ensures raised { result ≡ cond on (later_of best (raised_of counts.old counts.new)) best }
{
    if on && at < counts.len() && counts[at] < u32::MAX {
        let count = counts[at] + 1;
        counts[at] = count;
        more(best, at, count)
    } else {
        best
    }
}

// The groups of the counter's page, each once if it was touched.
fn mark_page(part: u8, counter: u16, latch: &[u16], counts: &mut [u32]) -> Most
    ensures counts { counts.new ≡ page_worn_of (facts_of part) counter latch.now counts.old }
    ensures raised { result ≡ raised_of counts.old counts.new }
{
    let f = parts::facts_of(part);
    let g = f.group;
    let n = f.page / g;
    let first = chip::page_start(part, counter) / g;
    let mut best = none();
    for j in 0..n {
        let touched = chip::latched(latch, j * g, g);
        best = bump(counts, first + j, touched, best);
    }
    best
}

#[tactic(auto, using(crate::proofs::Grown::raised_same), unfolding(crate::specs::Wear::target_worn_of))]
fn mark_target(part: u8, counter: u16, latch: &[u16], target: Target, counts: &mut [u32]) -> Most
    ensures counts { counts.new ≡ target_worn_of (facts_of part) counter latch.now counts.old target }
    ensures raised { result ≡ raised_of counts.old counts.new }
{
    match target {
        Target::Array => mark_page(part, counter, latch, counts),
        Target::Ident => none(),
    }
}

#[tactic(auto, using(crate::proofs::Grown::raised_same), unfolding(crate::specs::Wear::cycle_worn_of))]
fn mark_cycle(part: u8, counter: u16, latch: &[u16], cycle: Cycle, counts: &mut [u32]) -> Most
    ensures counts { counts.new ≡ cycle_worn_of (facts_of part) counter latch.now counts.old cycle }
    ensures raised { result ≡ raised_of counts.old counts.new }
{
    match cycle {
        Cycle::Writing(t) => mark_target(part, counter, latch, t, counts),
        Cycle::Locking => none(),
    }
}

// Whatever the chip is doing: its line and its latches.
#[tactic(auto, using(crate::proofs::Grown::raised_same), unfolding(crate::specs::Wear::closed_in))]
fn mark_line(part: u8, line: Line, latch: &[u16], counts: &mut [u32]) -> Most
    ensures counts { counts.new ≡ closed_of (facts_of part) (chip line latch.now) counts.old }
    ensures raised { result ≡ raised_of counts.old counts.new }
{
    match line.phase {
        Phase::Idle | Phase::Receive(_) | Phase::Send(_) => none(),
        Phase::Busy(y) => mark_cycle(part, line.core.counter, latch, y, counts),
    }
}

// What an end or a cut, now, adds to the counts; the answer is the most worn of the groups that it raised, 0 and 0 where there is none. Who
// holds the worst takes the worse of the two. A group beyond the end of a shorter slice is not counted.
pub fn mark(part: u8, chip: Chip, counts: &mut [u32]) -> Most
    ensures counts { counts.new ≡ closed_of (facts_of part) chip counts.old }
    ensures raised { result ≡ raised_of counts.old counts.new }
{
    mark_line(part, chip.line, &chip.latch, counts)
}

// ---- refusals

// Refusals 1 and 3, of a count buffer.
#[tactic(auto, unfolding(crate::specs::Calls::counts_verdict_of, parts::specs::Table::groups_of))]
pub fn counts_verdict(part: u8, n: usize) -> Verdict
    ensures { result ≡ counts_verdict_of (facts_of part) n }
{
    let f = parts::facts_of(part);
    let wanted = f.size / f.group;
    parts::sooner(
        parts::claim(!f.known, Refusal::NoPart),
        parts::claim(n != wanted, Refusal::WrongBuffer),
    )
}

// ---- a list of events

// An end or a cut counts for the cycle that it closes.
fn note(part: u8, line: Line, latch: &[u16], code: u8, counts: &mut [u32], best: Most) -> Most
    ensures counts { counts.new ≡ our_counter (facts_of part) (chip line latch.now) counts.old code }
    ensures raised { result ≡ worse_of best (raised_of counts.old counts.new) }
{
    if chip::closes(code) {
        worst::worse(best, mark_line(part, line, latch, counts))
    } else {
        worst::worse(best, none())
    }
}

// From one end of a cycle to the next.
fn go(
    part: u8,
    enable: u8,
    loss: Loss,
    page: &[u8],
    chip: Chip,
    array: &mut [u8],
    id: &mut [u8],
    counts: &mut [u32],
    events: &[u8],
    answers: &mut [u8],
) -> Worn
    requires { (length events.now ≤ 32768) × (length events.now ≤ length answers.old) }
    ensures answer { result.ran ≡ run_by (ours_with (cut_by loss page.now) (facts_of part) enable) chip events.now (Ok tt) }
    ensures stored { mem array.new id.new
        ≡ run_mem (ours_with (cut_by loss page.now) (facts_of part) enable) chip (mem array.old id.old) events.now (Ok tt) }
    ensures levels { answers.new
        ≡ run_answers (ours_with (cut_by loss page.now) (facts_of part) enable) chip (mem array.old id.old) events.now
        answers.old (Ok tt) }
    ensures counts { counts.new
        ≡ worn_by our_counter (ours_with (cut_by loss page.now) (facts_of part) enable) (facts_of part) chip counts.old events.now }
    ensures raised { result.most ≡ raised_of counts.old counts.new }
{
    let mut line = chip.line;
    let mut latch = chip.latch;
    let mut best = none();
    let mut cycles: usize = 0;
    let mut i = 0;
    // Not by ones: `pass` says how many events it took.
    while i < events.len() {
        best = note(part, line, &latch, events[i], counts, best);
        let p = chip::pass(
            part,
            enable,
            loss,
            page,
            line,
            latch,
            array,
            id,
            &events[i..],
            &mut answers[i..],
        );
        line = p.line;
        latch = p.latch;
        cycles += p.cycles;
        i += p.at;
    }
    let ran = Ran {
        verdict: Ok(()),
        cycles,
        chip: Chip { line, latch },
    };
    Worn { ran, most: best }
}

fn refused(r: Refusal, chip: Chip, most: Most) -> Worn
    ensures { (result.ran ≡ record { verdict = Err r; cycles = 0; chip = chip }) × (result.most ≡ most) }
{
    let ran = Ran {
        verdict: Err(r),
        cycles: 0,
        chip,
    };
    Worn { ran, most }
}

// The refusals of `chip::run`, and 3 for the counts too.
fn judge(
    part: u8,
    enable: u8,
    loss: Loss,
    page: &[u8],
    chip: Chip,
    n: usize,
    d: usize,
    k: usize,
    events: &[u8],
    room: usize,
) -> Verdict
    ensures { result ≡ sooner_of (counts_verdict_of (facts_of part) k) (run_verdict_of part enable (cut_by loss page.now) chip n d events.now room) }
{
    let ready = counts_verdict(part, k);
    let judged = chip::run_verdict(part, enable, loss, page, chip, n, d, events, room);
    parts::sooner(ready, judged)
}

// `chip::run`, and the counts go on by the cycles that end or are cut. It is given no worst and answers the most worn of the groups that it
// raised, so nothing is looked over: for who holds the worst, and takes the worse of the two.
pub fn go_on(
    part: u8,
    enable: u8,
    loss: Loss,
    page: &[u8],
    chip: Chip,
    array: &mut [u8],
    id: &mut [u8],
    counts: &mut [u32],
    events: &[u8],
    answers: &mut [u8],
) -> Worn
    ensures answer { result.ran
        ≡ (wear_of part enable (cut_by loss page.now) chip (mem array.old id.old) counts.old events.now
        answers.old).run.answer }
    ensures stored { mem array.new id.new
        ≡ (wear_of part enable (cut_by loss page.now) chip (mem array.old id.old) counts.old events.now
        answers.old).run.mem }
    ensures levels { answers.new
        ≡ (wear_of part enable (cut_by loss page.now) chip (mem array.old id.old) counts.old events.now
        answers.old).run.answers }
    ensures counts { counts.new
        ≡ (wear_of part enable (cut_by loss page.now) chip (mem array.old id.old) counts.old events.now
        answers.old).counts }
    ensures raised { result.most ≡ raised_of counts.old counts.new }
{
    let verdict = judge(
        part,
        enable,
        loss,
        page,
        chip,
        array.len(),
        id.len(),
        counts.len(),
        events,
        answers.len(),
    );
    match verdict {
        Ok(()) => go(
            part, enable, loss, page, chip, array, id, counts, events, answers,
        ),
        Err(r) => refused(r, chip, none()),
    }
}

// The same with the worst of the counts, which goes in and comes back; it is judged once.
pub fn run(
    part: u8,
    enable: u8,
    loss: Loss,
    page: &[u8],
    chip: Chip,
    array: &mut [u8],
    id: &mut [u8],
    counts: &mut [u32],
    worst: Most,
    events: &[u8],
    answers: &mut [u8],
) -> Worn
    ensures answer { result.ran
        ≡ (kept_of part enable (cut_by loss page.now) chip (mem array.old id.old) counts.old worst events.now
        answers.old).wear.run.answer }
    ensures stored { mem array.new id.new
        ≡ (kept_of part enable (cut_by loss page.now) chip (mem array.old id.old) counts.old worst events.now
        answers.old).wear.run.mem }
    ensures levels { answers.new
        ≡ (kept_of part enable (cut_by loss page.now) chip (mem array.old id.old) counts.old worst events.now
        answers.old).wear.run.answers }
    ensures counts { counts.new
        ≡ (kept_of part enable (cut_by loss page.now) chip (mem array.old id.old) counts.old worst events.now
        answers.old).wear.counts }
    ensures worst { result.most
        ≡ (kept_of part enable (cut_by loss page.now) chip (mem array.old id.old) counts.old worst events.now
        answers.old).worst }
{
    let borne = worst::verdict(counts, worst);
    let judged = judge(
        part,
        enable,
        loss,
        page,
        chip,
        array.len(),
        id.len(),
        counts.len(),
        events,
        answers.len(),
    );
    let verdict = parts::sooner(borne, judged);
    match verdict {
        Ok(()) => {
            let gone = go(
                part, enable, loss, page, chip, array, id, counts, events, answers,
            );
            Worn {
                ran: gone.ran,
                most: worst::worse(worst, gone.most),
            }
        }
        Err(r) => refused(r, chip, worst),
    }
}

// ---- the worst, for who begins

// What the walk along the counts of a part finds.
pub fn worst_of(part: u8, counts: &[u32]) -> Found
    ensures { result ≡ found_of part counts.now }
{
    let verdict = counts_verdict(part, counts.len());
    match verdict {
        Ok(()) => Found {
            verdict: Ok(()),
            worst: worst::most_of(counts),
        },
        Err(r) => Found {
            verdict: Err(r),
            worst: none(),
        },
    }
}

// ---- what is told of the counts

// Only strictly more takes the place of what was most so far.
fn more(best: Most, group: usize, count: u32) -> Most
    ensures { result ≡ cond (ltb best.count count) (most group count) best }
{
    if best.count < count {
        Most { group, count }
    } else {
        best
    }
}

fn walk(counts: &[u32]) -> Reported
    requires { length counts.now ≤ 32768 }
    ensures { result ≡ report_by counts.now (Ok tt) }
{
    let mut total: u64 = 0;
    let mut best = none();
    for (i, &x) in counts.iter().enumerate() {
        total += x as u64;
        best = more(best, i, x);
    }
    Reported {
        verdict: Ok(()),
        total,
        group: best.group,
        count: best.count,
    }
}

// The total over the groups, and the group with most.
pub fn report(part: u8, counts: &[u32]) -> Reported
    ensures { result ≡ report_of part counts.now }
{
    let verdict = counts_verdict(part, counts.len());
    match verdict {
        Ok(()) => walk(counts),
        Err(r) => Reported {
            verdict: Err(r),
            total: 0,
            group: 0,
            count: 0,
        },
    }
}

// ---- two heaps of traces

fn join_all(counts: &mut [u32], more: &[u32])
    requires { length counts.old ≡ length more.now }
    ensures { counts.new ≡ joined_of counts.old more.now }
{
    // By the index: nothing is known of what is written through a `zip` of `iter_mut`.
    for i in 0..counts.len() {
        counts[i] = counts[i].saturating_add(more[i]);
    }
}

// The counts of two heaps of traces together, into the first.
pub fn join(part: u8, counts: &mut [u32], more: &[u32]) -> Verdict
    ensures answer { result ≡ (join_of part counts.old more.now).verdict }
    ensures counts { counts.new ≡ (join_of part counts.old more.now).counts }
{
    let mine = counts_verdict(part, counts.len());
    let verdict = parts::sooner(mine, counts_verdict(part, more.len()));
    match verdict {
        Ok(()) => {
            join_all(counts, more);
            Ok(())
        }
        Err(r) => Err(r),
    }
}
