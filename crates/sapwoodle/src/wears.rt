// Wear: how many completed or cut cycles touched each error-correction group of the array, counted beside the chip in lent numbers.
ghost use Rattle.std.specs.Prelude.{◌≡◌};
ghost use Rattle.parts.specs.Table.{facts_of};
ghost use Rattle.chip.specs.Memory.{mem};
ghost use Rattle.wear.specs.Report.{most};
ghost use Rattle.wear.specs.Calls.{group_count_of};
ghost use Rattle.sapwoodle.specs.Drivers.{request_of};
ghost use Rattle.sapwoodle.specs.Wears.{wearing, finding, reporting, joining, bench_wearing};

use crate::{answers, chips, drivers, runs};
use wear::Most;

// How many counts a part has; 0 where there is no such part.
pub fn sapwoodle_groups(part: u8) -> usize
    ensures { result ≡ group_count_of (facts_of part) }
{
    wear::groups(part)
}

// `sapwoodle_run`, and the counts go on by the cycles that end or are cut; the worst of them, `group` and `count`, goes in and comes back.
pub fn sapwoodle_wear_run(
    part: u8,
    enable: u8,
    page: &[u8],
    lock: u8,
    state: &mut [u8],
    array: &mut [u8],
    id: &mut [u8],
    counts: &mut [u32],
    group: &mut usize,
    count: &mut u32,
    events: &[u8],
    answers: &mut [u8],
    cycles: &mut usize,
    at: &mut usize,
) -> u8
    ensures answer { result
        ≡ (wearing part enable page.now lock state.old (mem array.old id.old) counts.old
        (most group.old count.old) events.now answers.old).run.number }
    ensures state { state.new
        ≡ (wearing part enable page.now lock state.old (mem array.old id.old) counts.old
        (most group.old count.old) events.now answers.old).run.state }
    ensures stored { mem array.new id.new
        ≡ (wearing part enable page.now lock state.old (mem array.old id.old) counts.old
        (most group.old count.old) events.now answers.old).run.stored }
    ensures counts { counts.new
        ≡ (wearing part enable page.now lock state.old (mem array.old id.old) counts.old
        (most group.old count.old) events.now answers.old).counts }
    ensures levels { answers.new
        ≡ (wearing part enable page.now lock state.old (mem array.old id.old) counts.old
        (most group.old count.old) events.now answers.old).run.answers }
    ensures cycles { cycles.new
        ≡ (wearing part enable page.now lock state.old (mem array.old id.old) counts.old
        (most group.old count.old) events.now answers.old).run.cycles }
    ensures place { at.new
        ≡ (wearing part enable page.now lock state.old (mem array.old id.old) counts.old
        (most group.old count.old) events.now answers.old).run.place }
    ensures group { group.new
        ≡ (wearing part enable page.now lock state.old (mem array.old id.old) counts.old
        (most group.old count.old) events.now answers.old).worst.group }
    ensures count { count.new
        ≡ (wearing part enable page.now lock state.old (mem array.old id.old) counts.old
        (most group.old count.old) events.now answers.old).worst.count }
{
    let chip = pack_chip::unpack(state);
    let loss = chips::loss_from(page.len(), lock);
    let held = Most {
        group: *group,
        count: *count,
    };
    let w = wear::run(
        part, enable, loss, page, chip, array, id, counts, held, events, answers,
    );
    let r = w.ran;
    *group = w.most.group;
    *count = w.most.count;
    *cycles = r.cycles;
    *at = parts::verdict_place(r.verdict);
    answers::settle(r.verdict, r.chip, state)
}

// The worst of the counts, found by a walk: for who begins.
pub fn sapwoodle_worst(part: u8, counts: &[u32], group: &mut usize, count: &mut u32) -> u8
    ensures answer { result ≡ (finding part counts.now).number }
    ensures group { group.new ≡ (finding part counts.now).group }
    ensures count { count.new ≡ (finding part counts.now).count }
{
    let f = wear::worst_of(part, counts);
    *group = f.worst.group;
    *count = f.worst.count;
    parts::verdict_number(f.verdict)
}

// The sum of the counts, and the group with most.
pub fn sapwoodle_wear_report(
    part: u8,
    counts: &[u32],
    total: &mut u64,
    group: &mut usize,
    count: &mut u32,
) -> u8
    ensures answer { result ≡ (reporting part counts.now).number }
    ensures total { total.new ≡ (reporting part counts.now).total }
    ensures group { group.new ≡ (reporting part counts.now).group }
    ensures count { count.new ≡ (reporting part counts.now).count }
{
    let r = wear::report(part, counts);
    *total = r.total;
    *group = r.group;
    *count = r.count;
    parts::verdict_number(r.verdict)
}

// The counts of two heaps of traces together, into the first.
pub fn sapwoodle_wear_join(part: u8, counts: &mut [u32], more: &[u32]) -> u8
    ensures answer { result ≡ (joining part counts.old more.now).number }
    ensures counts { counts.new ≡ (joining part counts.old more.now).counts }
{
    parts::verdict_number(wear::join(part, counts, more))
}

// `sapwoodle_bench_run`, and the counts go on by the cycles that end in it; the worst of them goes in and comes back.
pub fn sapwoodle_wear_bench_run(
    part: u8,
    enable: u8,
    what: u8,
    at: usize,
    length: usize,
    budget: usize,
    own: u8,
    d: usize,
    state: &mut [u8],
    array: &mut [u8],
    id: &mut [u8],
    buffer: &mut [u8],
    counts: &mut [u32],
    group: &mut usize,
    count: &mut u32,
    place: &mut usize,
    polls: &mut usize,
    bytes: &mut usize,
    cycles: &mut usize,
    clocks: &mut usize,
) -> u8
    ensures answer { result
        ≡ (bench_wearing (request_of part enable what at length budget) own d state.old (mem array.old id.old) buffer.old
        counts.old (most group.old count.old)).bench.number }
    ensures state { state.new
        ≡ (bench_wearing (request_of part enable what at length budget) own d state.old (mem array.old id.old) buffer.old
        counts.old (most group.old count.old)).bench.state }
    ensures stored { mem array.new id.new
        ≡ (bench_wearing (request_of part enable what at length budget) own d state.old (mem array.old id.old) buffer.old
        counts.old (most group.old count.old)).bench.stored }
    ensures buffer { buffer.new
        ≡ (bench_wearing (request_of part enable what at length budget) own d state.old (mem array.old id.old) buffer.old
        counts.old (most group.old count.old)).bench.buffer }
    ensures counts { counts.new
        ≡ (bench_wearing (request_of part enable what at length budget) own d state.old (mem array.old id.old) buffer.old
        counts.old (most group.old count.old)).counts }
    ensures place { place.new
        ≡ (bench_wearing (request_of part enable what at length budget) own d state.old (mem array.old id.old) buffer.old
        counts.old (most group.old count.old)).bench.place }
    ensures polls { polls.new
        ≡ (bench_wearing (request_of part enable what at length budget) own d state.old (mem array.old id.old) buffer.old
        counts.old (most group.old count.old)).bench.polls }
    ensures bytes { bytes.new
        ≡ (bench_wearing (request_of part enable what at length budget) own d state.old (mem array.old id.old) buffer.old
        counts.old (most group.old count.old)).bench.bytes }
    ensures cycles { cycles.new
        ≡ (bench_wearing (request_of part enable what at length budget) own d state.old (mem array.old id.old) buffer.old
        counts.old (most group.old count.old)).bench.cycles }
    ensures clocks { clocks.new
        ≡ (bench_wearing (request_of part enable what at length budget) own d state.old (mem array.old id.old) buffer.old
        counts.old (most group.old count.old)).bench.clocks }
    ensures group { group.new
        ≡ (bench_wearing (request_of part enable what at length budget) own d state.old (mem array.old id.old) buffer.old
        counts.old (most group.old count.old)).worst.group }
    ensures count { count.new
        ≡ (bench_wearing (request_of part enable what at length budget) own d state.old (mem array.old id.old) buffer.old
        counts.old (most group.old count.old)).worst.count }
{
    let asked = drivers::request(part, enable, what, at, length, budget);
    let chip = pack_chip::unpack(state);
    let held = Most {
        group: *group,
        count: *count,
    };
    let k = bench::run_worn(asked, own, d, chip, array, id, buffer, counts, held);
    let r = k.report;
    *group = k.worst.group;
    *count = k.worst.count;
    *place = parts::verdict_place(r.verdict);
    *polls = r.polls;
    *bytes = r.bytes;
    *cycles = r.cycles;
    *clocks = r.clocks;
    runs::keep(state, r.chip);
    parts::verdict_number(r.verdict)
}
