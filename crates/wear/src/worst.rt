// The most worn group, the lowest on a tie: found by a walk, judged by one look over the counts, and kept by comparing.
ghost use Rattle.std.specs.Prelude.{◌≡◌, true, ◌+◌};
ghost use Rattle.parts.specs.Bytes.{all_below_of};
ghost use Rattle.wear.specs.Report.{most_of};
ghost use Rattle.wear.specs.Worst.{worse_of, born_out_of, worst_verdict_of};

use crate::Most;
use parts::{Refusal, Verdict};

// Of two groups the more worn, the lower on a tie.
#[tactic(auto, unfolding(crate::specs::Worst::worse_of))]
pub fn worse(a: Most, b: Most) -> Most
    ensures { result ≡ worse_of a b }
{
    if a.count < b.count || (a.count == b.count && b.group < a.group) {
        b
    } else {
        a
    }
}

// ---- the walk

// The group with most.
pub fn most_of(counts: &[u32]) -> Most
    ensures { result ≡ most_of counts.now }
{
    let mut best = crate::none();
    for (i, &count) in counts.iter().enumerate() {
        best = crate::more(best, i, count);
    }
    best
}

// ---- the look

// Whether every count is below a limit; in a loop without a way out. A loop of its own for each of the two: through one for both the run behind
// the look is compiled to slower code.
fn all_below(limit: u32, counts: &[u32]) -> bool
    ensures { result ≡ all_below_of limit true counts.now }
{
    let mut low = true;
    for &count in counts {
        low &= count < limit;
    }
    low
}

// Whether none is above it.
fn none_above(limit: u32, counts: &[u32]) -> bool
    ensures { result ≡ all_below_of (limit + 1) true counts.now }
{
    let mut low = true;
    for &count in counts {
        low &= count <= limit;
    }
    low
}

// Whether a group is the one that the walk finds: it holds the count, every lower one has less and none has more.
pub fn borne_out(counts: &[u32], worst: Most) -> bool
    ensures { result ≡ born_out_of counts.now worst }
{
    let g = worst.group;
    let x = worst.count;
    if counts.len() <= g {
        return counts.is_empty() & (g == 0) & (x == 0);
    }
    let here = counts[g] == x;
    let lower = all_below(x, &counts[..g]);
    let rest = none_above(x, &counts[g..]);
    here & lower & rest
}

// Refusal 4, of a stored worst.
#[tactic(auto, unfolding(crate::specs::Worst::worst_verdict_of))]
pub fn verdict(counts: &[u32], worst: Most) -> Verdict
    ensures { result ≡ worst_verdict_of counts.now worst }
{
    let borne = borne_out(counts, worst);
    parts::claim(!borne, Refusal::BadState)
}
