// Samples become events: the only reader of samples.
ghost use Rattle.std.specs.Prelude.{◌≡◌, true, ◌≤◌, ◌<◌, [], length, MatchOption};
ghost use Rattle.parts.specs.Bytes.{AllBelow};
ghost use Rattle.capture.specs.Samples.{judge_of};
ghost use Rattle.capture.specs.Ends.{acked_of};
ghost use Rattle.capture.specs.Steps.{SameTo, falls_of, code_of, NextIn, left_of};

use parts::{Refusal, Verdict};

// The first sample above 3, as refusal 20.
pub(crate) fn judge(samples: &[u8]) -> Verdict
    ensures { result ≡ judge_of samples.now }
{
    // The usual case, without a way out in each turn.
    let low = parts::all_below(4, samples);
    if low {
        return Ok(());
    }
    for (i, s) in samples.iter().enumerate() {
        if 3 < *s {
            return Err(Refusal::BadSample(i));
        }
    }
    Ok(())
}

// From a sample on, where those that are `s` end.
fn same_end(samples: &[u8], s: u8, from: usize) -> usize
    requires { from ≤ length samples.now }
    ensures { SameTo samples.now s from result }
{
    for i in from..samples.len() {
        if samples[i] != s {
            return i;
        }
    }
    samples.len()
}

// What a sample makes with the one before it.
fn pair(bus: bool, before: u8, s: u8, still: bool) -> Option<u8>
    requires { s < 4 }
    ensures { MatchOption result (code_of bus before s still ≡ 9) (λ code. (code ≡ code_of bus before s still) × (code < 4)) }
{
    if s % 2 == 0 {
        return None;
    }
    if before % 2 == 0 {
        if bus & !still {
            return None;
        }
        return Some(s / 2);
    }
    if before == s {
        return None;
    }
    if s == 1 { Some(2) } else { Some(3) }
}

// An event: its code; the sample that makes it, and the next sample that may make one.
#[derive(Clone, Copy)]
pub(crate) struct Next {
    pub code: u8,
    pub at: usize,
    pub next: usize,
}

// The first event from a sample on. Samples that are the same make none: each is looked at once.
pub(crate) fn next_event(bus: bool, samples: &[u8], from: usize) -> Option<Next>
    requires { (0 < from) × AllBelow 4 samples.now }
    ensures { MatchOption result (left_of bus samples.now from ≡ []) (λ n. NextIn bus samples.now from n.code n.at n.next) }
{
    let mut i = from;
    while i < samples.len() {
        let s = samples[i];
        let end = same_end(samples, s, i + 1);
        let still = falls(samples, end);
        match pair(bus, samples[i - 1], s, still) {
            Some(code) => {
                return Some(Next {
                    code,
                    at: i,
                    next: end,
                });
            }
            None => i = end,
        }
    }
    None
}

// Whether the clock is low at a sample, or there is none.
fn falls(samples: &[u8], at: usize) -> bool
    ensures { result ≡ falls_of samples.now at }
{
    if at < samples.len() {
        return samples[at] % 2 == 0;
    }
    true
}

// Whether the next nine events are a byte that is acknowledged.
pub(crate) fn acked(bus: bool, samples: &[u8], from: usize) -> bool
    requires { (0 < from) × AllBelow 4 samples.now }
    ensures { result ≡ acked_of 9 (left_of bus samples.now from) }
{
    let mut at = from;
    for k in 0..8usize {
        let Some(next) = next_event(bus, samples, at) else {
            return false;
        };
        if 1 < next.code {
            return false;
        }
        at = next.next;
    }
    match next_event(bus, samples, at) {
        Some(ninth) => ninth.code == 0,
        None => false,
    }
}
