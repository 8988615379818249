// The state of a chip as bytes, and back, for callers that hold bytes only.
#![tactic(auto)]

ghost use Rattle.std.specs.Prelude.{◌≡◌, ◌/◌, ◌%◌, Some, None, cond, eqb, ltb, length, drop};
ghost use Rattle.std.proofs.lemmas.List.Edits.{sets};
ghost use Rattle.pack_chip.specs.Layout.{
  pin_code_of,
  either_of,
  recv_code_of,
  cycle_code_of,
  chip_phase_code_of,
  phase_high_of,
  chip_length,
  pairs_of,
  chip_head_of,
  packs_chip_of,
  pack_chip_into,
  pin_in,
  core_read_of,
  recv_read_of,
  line_read_of,
  chip_phase_in,
  pairs_in,
  line_in,
  chip_phase_code_right_of,
  holds_chip_of,
  no_chip,
  unpacked_chip_of,
};

use line::{Core, Cycle, Line, Phase, Pin, Recv, Target};
use state::Chip;
// How many bytes hold a state.
pub const LENGTH: usize = 137;

// ---- the codes

fn pin_code(pin: Pin) -> u8
    ensures { result ≡ pin_code_of pin }
{
    match pin {
        Pin::Absent => 0,
        Pin::Low => 1,
        Pin::High => 2,
        Pin::Floating => 3,
    }
}

fn either(target: Target, array: u8, ident: u8) -> u8
    ensures { result ≡ either_of target array ident }
{
    match target {
        Target::Array => array,
        Target::Ident => ident,
    }
}

fn recv_code(recv: Recv) -> u8
    ensures { result ≡ recv_code_of recv }
{
    match recv {
        Recv::Select => 1,
        Recv::AddressHigh(t) => either(t, 2, 3),
        Recv::AddressLow(t, _) => either(t, 4, 5),
        Recv::Fill(t, false) => either(t, 6, 8),
        Recv::Fill(t, true) => either(t, 7, 9),
        Recv::LockByte => 10,
        Recv::LockTaken(false) => 11,
        Recv::LockTaken(true) => 12,
    }
}

fn cycle_code(cycle: Cycle) -> u8
    ensures { result ≡ cycle_code_of cycle }
{
    match cycle {
        Cycle::Writing(t) => either(t, 15, 16),
        Cycle::Locking => 17,
    }
}

fn phase_code(phase: Phase) -> u8
    ensures { result ≡ chip_phase_code_of phase }
{
    match phase {
        Phase::Idle => 0,
        Phase::Receive(r) => recv_code(r),
        Phase::Send(t) => either(t, 13, 14),
        Phase::Busy(y) => cycle_code(y),
    }
}

fn phase_high(phase: Phase) -> u8
    ensures { result ≡ phase_high_of phase }
{
    match phase {
        Phase::Receive(Recv::AddressLow(_, high)) => high,
        _ => 0,
    }
}

// ---- packing

fn head(line: Line) -> [u8; 9]
    ensures { result ≡ chip_head_of line }
{
    let core = line.core;
    let [high, low] = core.counter.to_be_bytes();
    [
        high,
        low,
        pin_code(core.pin),
        parts::flag(core.inhibited),
        parts::flag(core.locked),
        phase_code(line.phase),
        phase_high(line.phase),
        line.left,
        line.shift,
    ]
}

fn put_latches(latch: [u16; 64], out: &mut [u8])
    requires { length out.old ≡ chip_length }
    ensures { out.new ≡ sets out.old 9 (pairs_of latch) }
{
    for (i, x) in latch.iter().enumerate() {
        let at = 9 + 2 * i;
        out[at..at + 2].copy_from_slice(&x.to_be_bytes());
    }
}

// The state into a lent buffer. False, and the buffer as it was, where it has another length.
#[tactic(auto, unfolding(crate::specs::Layout::pack_chip_into))]
pub fn pack(chip: Chip, out: &mut [u8]) -> bool
    ensures answer { result ≡ packs_chip_of (length out.old) }
    ensures bytes { out.new ≡ pack_chip_into out.old chip }
{
    if out.len() != LENGTH {
        return false;
    }
    out[..9].copy_from_slice(&head(chip.line));
    put_latches(chip.latch, out);
    true
}

// ---- unpacking

#[tactic(auto, unfolding(crate::specs::Layout::pin_in))]
fn pin_in(code: u8) -> Option<Pin>
    ensures { result ≡ cond (ltb code 4) (Some (pin_in code)) None }
{
    match code {
        0 => Some(Pin::Absent),
        1 => Some(Pin::Low),
        2 => Some(Pin::High),
        3 => Some(Pin::Floating),
        _ => None,
    }
}

fn flag_in(code: u8) -> Option<bool>
    ensures { result ≡ cond (ltb code 2) (Some (eqb code 1)) None }
{
    match code {
        0 => Some(false),
        1 => Some(true),
        _ => None,
    }
}

fn core_in(counter: u16, pin: u8, inhibited: u8, locked: u8) -> Option<Core>
    ensures { result ≡ core_read_of counter pin inhibited locked }
{
    Some(Core {
        counter,
        pin: pin_in(pin)?,
        inhibited: flag_in(inhibited)?,
        locked: flag_in(locked)?,
    })
}

#[tactic(auto, unfolding(crate::specs::Layout::recv_in))]
fn recv_in(code: u8, high: u8) -> Option<Recv>
    ensures { result ≡ recv_read_of code high }
{
    match code {
        1 => Some(Recv::Select),
        2 => Some(Recv::AddressHigh(Target::Array)),
        3 => Some(Recv::AddressHigh(Target::Ident)),
        4 => Some(Recv::AddressLow(Target::Array, high)),
        5 => Some(Recv::AddressLow(Target::Ident, high)),
        6 => Some(Recv::Fill(Target::Array, false)),
        7 => Some(Recv::Fill(Target::Array, true)),
        8 => Some(Recv::Fill(Target::Ident, false)),
        9 => Some(Recv::Fill(Target::Ident, true)),
        10 => Some(Recv::LockByte),
        11 => Some(Recv::LockTaken(false)),
        12 => Some(Recv::LockTaken(true)),
        _ => None,
    }
}

#[tactic(auto, unfolding(crate::specs::Layout::chip_phase_in, crate::specs::Layout::chip_phase_code_right_of))]
fn phase_in(code: u8, high: u8) -> Option<Phase>
    ensures { result ≡ cond (chip_phase_code_right_of code high) (Some (chip_phase_in code high)) None }
{
    // Only a phase that awaits the last address byte keeps the first.
    if high != 0 && !matches!(code, 4 | 5) {
        return None;
    }
    match code {
        0 => Some(Phase::Idle),
        13 => Some(Phase::Send(Target::Array)),
        14 => Some(Phase::Send(Target::Ident)),
        15 => Some(Phase::Busy(Cycle::Writing(Target::Array))),
        16 => Some(Phase::Busy(Cycle::Writing(Target::Ident))),
        17 => Some(Phase::Busy(Cycle::Locking)),
        _ => Some(Phase::Receive(recv_in(code, high)?)),
    }
}

#[tactic(auto, unfolding(crate::specs::Layout::chip_codes_right_of))]
fn line_in(bytes: &[u8]) -> Option<Line>
    requires { length bytes.now ≡ chip_length }
    ensures { result ≡ line_read_of bytes.now }
{
    let counter = u16::from_be_bytes([bytes[0], bytes[1]]);
    Some(Line {
        core: core_in(counter, bytes[2], bytes[3], bytes[4])?,
        phase: phase_in(bytes[5], bytes[6])?,
        left: bytes[7],
        shift: bytes[8],
    })
}

fn latches_in(bytes: &[u8]) -> [u16; 64]
    requires { length bytes.now ≡ chip_length }
    ensures { result ≡ pairs_in (drop 9 bytes.now) }
{
    let mut latch = [0; 64];
    for (i, x) in latch.iter_mut().enumerate() {
        let at = 9 + 2 * i;
        *x = u16::from_be_bytes([bytes[at], bytes[at + 1]]);
    }
    latch
}

// What the bytes hold beside the latches; none where they have another length, or a code is none that there is.
#[tactic(auto, unfolding(crate::specs::Layout::holds_chip_of))]
fn held(bytes: &[u8]) -> Option<Line>
    ensures { result ≡ cond (holds_chip_of bytes.now) (Some (line_in bytes.now)) None }
{
    if bytes.len() == LENGTH {
        line_in(bytes)
    } else {
        None
    }
}

// Whether the bytes hold a state: their length, and every code one that there is.
pub fn holds(bytes: &[u8]) -> bool
    ensures { result ≡ holds_chip_of bytes.now }
{
    held(bytes).is_some()
}

fn none() -> Chip
    ensures { result ≡ no_chip }
{
    Chip {
        line: Line {
            core: Core {
                counter: 65535,
                pin: Pin::Absent,
                inhibited: false,
                locked: false,
            },
            phase: Phase::Idle,
            left: 8,
            shift: 0,
        },
        latch: [256; 64],
    }
}

// The state that the bytes hold; where they hold none, one that is out of range for every part, as `ChipRefusesOthers` says.
#[tactic(auto, unfolding(crate::specs::Layout::unpacked_chip_of))]
pub fn unpack(bytes: &[u8]) -> Chip
    ensures { result ≡ unpacked_chip_of bytes.now }
{
    match held(bytes) {
        Some(line) => Chip {
            line,
            latch: latches_in(bytes),
        },
        None => none(),
    }
}
