// The state of a chip, and which states are in range (refusal 4).
#![tactic(auto)]

ghost use Rattle.std.specs.Prelude.{◌≡◌, ◌≤◌, drop};
ghost use Rattle.parts.specs.Table.{facts_of};
ghost use Rattle.state.specs.Range.{
  empty_of,
  marks_right_of,
  pin_right_of,
  mark_right_of,
  target_right_of,
  lock_right_of,
  location_right_of,
  last_right_of,
  acked_right_of,
  open_right_of,
  fill_right_of,
  unlocked_right_of,
  recv_right_of,
  writing_right_of,
  cycle_right_of,
  phase_right_of,
  in_range_of,
};

use line::{Core, Cycle, Line, Phase, Pin, Recv, Target};

// A chip without what it stores. A latch of 256 or more holds nothing.
#[derive(Clone, Copy)]
pub struct Chip {
    pub line: Line,
    pub latch: [u16; 64],
}

// A part is its number here too, as in the crate line.
fn empty_from(latch: [u16; 64], from: usize) -> bool
    requires { from ≤ 64 }
    ensures { result ≡ empty_of (drop from latch) }
{
    latch[from..].iter().all(|x| 256 <= *x)
}

#[tactic(auto, unfolding(crate::specs::Range::marks_right_of))]
fn marks_right(part: u8, latch: [u16; 64]) -> bool
    ensures { result ≡ marks_right_of (facts_of part) latch }
{
    empty_from(latch, parts::facts_of(part).page)
}

#[tactic(auto, unfolding(crate::specs::Range::pin_right_of))]
fn pin_right(part: u8, pin: Pin) -> bool
    ensures { result ≡ pin_right_of (facts_of part) pin }
{
    let has = parts::facts_of(part).pin;
    match pin {
        Pin::Absent => !has,
        Pin::Low | Pin::High | Pin::Floating => has,
    }
}

#[tactic(auto, unfolding(crate::specs::Range::mark_right_of))]
fn mark_right(core: Core) -> bool
    ensures { result ≡ mark_right_of core }
{
    !line::is_high(core.pin) || core.inhibited
}

#[tactic(auto, unfolding(crate::specs::Range::target_right_of))]
fn target_right(part: u8, target: Target) -> bool
    ensures { result ≡ target_right_of (facts_of part) target }
{
    match target {
        Target::Array => true,
        Target::Ident => parts::facts_of(part).ident,
    }
}

#[tactic(auto, unfolding(crate::specs::Range::lock_right_of))]
fn lock_right(part: u8, core: Core) -> bool
    ensures { result ≡ lock_right_of (facts_of part) core }
{
    !core.locked || parts::facts_of(part).ident
}

#[tactic(auto, unfolding(crate::specs::Range::location_right_of))]
fn location_right(part: u8, core: Core, target: Target) -> bool
    ensures { result ≡ location_right_of (facts_of part) core target }
{
    let f = parts::facts_of(part);
    match target {
        Target::Array => true,
        Target::Ident => f.ident && usize::from(core.counter) < f.page,
    }
}

#[tactic(auto, unfolding(crate::specs::Range::last_right_of))]
fn last_right(part: u8, core: Core, latch: [u16; 64]) -> bool
    ensures { result ≡ last_right_of (facts_of part) core latch }
{
    let p = parts::facts_of(part).page;
    let place = (usize::from(core.counter) + (p - 1)) % p;
    latch[place] < 256
}

#[tactic(auto, unfolding(crate::specs::Range::acked_right_of))]
fn acked_right(part: u8, core: Core, latch: [u16; 64], left: u8, acked: bool) -> bool
    ensures { result ≡ acked_right_of (facts_of part) core latch left acked }
{
    !acked || left != 8 || last_right(part, core, latch)
}

#[tactic(auto, unfolding(crate::specs::Range::open_right_of))]
fn open_right(core: Core, latch: [u16; 64], target: Target) -> bool
    ensures { result ≡ open_right_of core latch target }
{
    match target {
        Target::Array => true,
        Target::Ident => !core.locked || empty_from(latch, 0),
    }
}

#[tactic(auto, unfolding(crate::specs::Range::fill_right_of))]
fn fill_right(part: u8, core: Core, latch: [u16; 64], left: u8, target: Target, acked: bool) -> bool
    ensures { result ≡ fill_right_of (facts_of part) core latch left target acked }
{
    location_right(part, core, target)
        && acked_right(part, core, latch, left, acked)
        && open_right(core, latch, target)
}

#[tactic(auto, unfolding(crate::specs::Range::unlocked_right_of))]
fn unlocked_right(part: u8, core: Core) -> bool
    ensures { result ≡ unlocked_right_of (facts_of part) core }
{
    location_right(part, core, Target::Ident) && !core.locked
}

#[tactic(auto, unfolding(crate::specs::Range::recv_right_of))]
fn recv_right(part: u8, core: Core, latch: [u16; 64], left: u8, recv: Recv) -> bool
    ensures { result ≡ recv_right_of (facts_of part) core latch left recv }
{
    match recv {
        Recv::Select => true,
        Recv::AddressHigh(t) | Recv::AddressLow(t, _) => target_right(part, t),
        Recv::Fill(t, acked) => fill_right(part, core, latch, left, t, acked),
        Recv::LockByte => location_right(part, core, Target::Ident),
        Recv::LockTaken(_) => unlocked_right(part, core),
    }
}

#[tactic(auto, unfolding(crate::specs::Range::writing_right_of))]
fn writing_right(part: u8, core: Core, latch: [u16; 64], target: Target) -> bool
    ensures { result ≡ writing_right_of (facts_of part) core latch target }
{
    match target {
        Target::Array => last_right(part, core, latch),
        Target::Ident => unlocked_right(part, core) && last_right(part, core, latch),
    }
}

#[tactic(auto, unfolding(crate::specs::Range::cycle_right_of))]
fn cycle_right(part: u8, core: Core, latch: [u16; 64], cycle: Cycle) -> bool
    ensures { result ≡ cycle_right_of (facts_of part) core latch cycle }
{
    match cycle {
        Cycle::Writing(t) => writing_right(part, core, latch, t),
        Cycle::Locking => unlocked_right(part, core),
    }
}

#[tactic(auto, unfolding(crate::specs::Range::phase_right_of))]
fn phase_right(part: u8, core: Core, latch: [u16; 64], left: u8, phase: Phase) -> bool
    ensures { result ≡ phase_right_of (facts_of part) core latch left phase }
{
    match phase {
        Phase::Idle => true,
        Phase::Receive(r) => mark_right(core) && recv_right(part, core, latch, left, r),
        Phase::Send(t) => mark_right(core) && target_right(part, t),
        Phase::Busy(y) => cycle_right(part, core, latch, y),
    }
}

#[tactic(auto, unfolding(crate::specs::Range::rest_right_of))]
fn rest_right(part: u8, core: Core, latch: [u16; 64], left: u8, phase: Phase) -> bool
    ensures { result ≡ Rattle.state.specs.Range.rest_right_of (facts_of part) core latch left phase }
{
    pin_right(part, core.pin)
        && lock_right(part, core)
        && phase_right(part, core, latch, left, phase)
}

// Whether a chip of this part may be in this state.
#[tactic(auto, unfolding(crate::specs::Range::in_range_of))]
pub fn in_range(part: u8, chip: Chip) -> bool
    ensures { result ≡ in_range_of (facts_of part) chip }
{
    let Line {
        core,
        phase,
        left,
        ..
    } = chip.line;
    usize::from(core.counter) < parts::facts_of(part).size
        && left <= 8
        && marks_right(part, chip.latch)
        && rest_right(part, core, chip.latch, left, phase)
}
