// The state of a driver as bytes, and back, for callers that hold bytes only.
#![tactic(auto)]

ghost use Rattle.std.specs.Prelude.{◌≡◌, ◌+◌, ◌<◌, ◌≤◌, Some, None, cond, eqb, ltb, length};
ghost use Rattle.std.proofs.lemmas.List.Edits.{sets};
ghost use Rattle.parts.specs.Bytes.{words_of, number_in};
ghost use Rattle.driver.specs.Step.{clocks_of};
ghost use Rattle.pack_driver.specs.Layout.{
  place_code_of,
  slot_code_of,
  failed_code_of,
  driver_phase_code_of,
  driver_length,
  driver_head_of,
  numbers_of,
  all_small_lem,
  packs_driver_of,
  pack_driver_into,
  place_in,
  slot_in,
  failed_in,
  driver_phase_in,
  request_read_of,
  counts_in,
  driver_phase_code_right_of,
  driver_in,
  holds_driver_of,
  no_driver,
  unpacked_driver_of,
};

use driver::{Counts, Driver, Failed, Phase, Place, Request, Slot};
use parts::{ArrayAddress, IdLocation};

// How many bytes hold a driver.
pub const LENGTH: usize = 35;

// ---- the codes

fn place_code(place: Place) -> u8
    ensures { result ≡ place_code_of place }
{
    match place {
        Place::Array(_) => 0,
        Place::Ident(_) => 1,
    }
}

fn slot_code(slot: Slot) -> u8
    ensures value { result ≡ slot_code_of slot }
    ensures range { result < 7 }
{
    match slot {
        Slot::Select => 0,
        Slot::High => 1,
        Slot::Low => 2,
        Slot::Data => 3,
        Slot::Poll => 4,
        Slot::Turn => 5,
        Slot::Take => 6,
    }
}

fn failed_code(failed: Failed) -> u8
    ensures value { result ≡ failed_code_of failed }
    ensures range { result < 5 }
{
    match failed {
        Failed::AtSelect => 0,
        Failed::AtData => 1,
        Failed::AtPolls => 2,
        Failed::AtHigh => 3,
        Failed::AtLow => 4,
    }
}

fn phase_code(phase: Phase) -> u8
    ensures { result ≡ driver_phase_code_of phase }
{
    match phase {
        Phase::Ready => 0,
        Phase::Bits(slot, _) => 1 + slot_code(slot),
        Phase::Heard(slot) => 8 + slot_code(slot),
        Phase::Rest => 15,
        Phase::Over(failed) => 16 + failed_code(failed),
    }
}

fn clocks(phase: Phase) -> u8
    ensures { result ≡ clocks_of phase }
{
    match phase {
        Phase::Bits(_, b) => b,
        _ => 0,
    }
}

// ---- packing

fn head(driver: Driver) -> [u8; 7]
    ensures { result ≡ driver_head_of driver }
{
    let request = driver.request;
    [
        request.part,
        request.enable,
        place_code(request.place),
        parts::flag(request.reads),
        phase_code(driver.phase),
        clocks(driver.phase),
        driver.counts.byte,
    ]
}

fn numbers(driver: Driver) -> [usize; 7]
    ensures { result ≡ numbers_of driver }
{
    let request = driver.request;
    let counts = driver.counts;
    [
        driver::from(request.place),
        request.length,
        request.budget,
        counts.at,
        counts.seen,
        counts.tries,
        counts.polls,
    ]
}

fn put_numbers(numbers: [usize; 7], out: &mut [u8])
    requires { length out.old ≡ driver_length }
    ensures { out.new ≡ sets out.old 7 (words_of numbers) }
{
    for (i, x) in numbers.iter().enumerate() {
        let at = 7 + 4 * i;
        out[at..at + 4].copy_from_slice(&parts::word(*x));
    }
}

// Whether each has four bytes.
fn small(numbers: [usize; 7]) -> bool
    ensures { result ≡ all_small_lem numbers }
{
    numbers.iter().all(|x| *x < 4294967296)
}

// The state into a lent buffer. False, and the buffer as it was, where it has another length or a number of the state
// has more than four bytes.
#[tactic(auto, unfolding(crate::specs::Layout::pack_driver_into, crate::specs::Layout::packs_driver_of, crate::specs::Layout::small_of))]
pub fn pack(driver: Driver, out: &mut [u8]) -> bool
    ensures answer { result ≡ packs_driver_of (length out.old) driver }
    ensures bytes { out.new ≡ pack_driver_into out.old driver }
{
    let numbers = numbers(driver);
    if out.len() != LENGTH || !small(numbers) {
        return false;
    }
    out[..7].copy_from_slice(&head(driver));
    put_numbers(numbers, out);
    true
}

// ---- unpacking

#[tactic(auto, unfolding(crate::specs::Layout::place_in))]
fn place_in(code: u8, from: usize) -> Option<Place>
    ensures { result ≡ cond (ltb code 2) (Some (place_in code from)) None }
{
    match code {
        0 => Some(Place::Array(ArrayAddress(from))),
        1 => Some(Place::Ident(IdLocation(from))),
        _ => None,
    }
}

fn flag_in(code: u8) -> Option<bool>
    ensures { result ≡ cond (ltb code 2) (Some (eqb code 1)) None }
{
    match code {
        0 => Some(false),
        1 => Some(true),
        _ => None,
    }
}

#[tactic(auto, unfolding(crate::specs::Layout::slot_in))]
fn slot_in(code: u8) -> Option<Slot>
    ensures { result ≡ cond (ltb code 7) (Some (slot_in code)) None }
{
    match code {
        0 => Some(Slot::Select),
        1 => Some(Slot::High),
        2 => Some(Slot::Low),
        3 => Some(Slot::Data),
        4 => Some(Slot::Poll),
        5 => Some(Slot::Turn),
        6 => Some(Slot::Take),
        _ => None,
    }
}

#[tactic(auto, unfolding(crate::specs::Layout::failed_in))]
fn failed_in(code: u8) -> Option<Failed>
    ensures { result ≡ cond (ltb code 5) (Some (failed_in code)) None }
{
    match code {
        0 => Some(Failed::AtSelect),
        1 => Some(Failed::AtData),
        2 => Some(Failed::AtPolls),
        3 => Some(Failed::AtHigh),
        4 => Some(Failed::AtLow),
        _ => None,
    }
}

#[tactic(auto, unfolding(crate::specs::Layout::driver_phase_in, crate::specs::Layout::driver_phase_code_right_of))]
fn phase_in(code: u8, clocks: u8) -> Option<Phase>
    ensures { result ≡ cond (driver_phase_code_right_of code clocks) (Some (driver_phase_in code clocks)) None }
{
    // Only a phase inside a byte counts clocks.
    if clocks != 0 && !matches!(code, 1..=7) {
        return None;
    }
    match code {
        0 => Some(Phase::Ready),
        1..=7 => Some(Phase::Bits(slot_in(code - 1)?, clocks)),
        8..=14 => Some(Phase::Heard(slot_in(code - 8)?)),
        15 => Some(Phase::Rest),
        _ => Some(Phase::Over(failed_in(code - 16)?)),
    }
}

fn number_in(bytes: &[u8], at: usize) -> usize
    requires { at + 4 ≤ length bytes.now }
    ensures { result ≡ number_in bytes.now at }
{
    parts::joined(bytes[at], bytes[at + 1], bytes[at + 2], bytes[at + 3])
}

fn request_in(bytes: &[u8]) -> Option<Request>
    requires { length bytes.now ≡ driver_length }
    ensures { result ≡ request_read_of bytes.now }
{
    Some(Request {
        part: bytes[0],
        enable: bytes[1],
        place: place_in(bytes[2], number_in(bytes, 7))?,
        reads: flag_in(bytes[3])?,
        length: number_in(bytes, 11),
        budget: number_in(bytes, 15),
    })
}

fn counts_in(bytes: &[u8]) -> Counts
    requires { length bytes.now ≡ driver_length }
    ensures { result ≡ counts_in bytes.now }
{
    Counts {
        at: number_in(bytes, 19),
        seen: number_in(bytes, 23),
        tries: number_in(bytes, 27),
        polls: number_in(bytes, 31),
        byte: bytes[6],
    }
}

// None where the bytes have another length, or a code is none that there is.
#[tactic(auto, unfolding(crate::specs::Layout::holds_driver_of, crate::specs::Layout::driver_codes_right_of))]
fn held(bytes: &[u8]) -> Option<Driver>
    ensures { result ≡ cond (holds_driver_of bytes.now) (Some (driver_in bytes.now)) None }
{
    if bytes.len() != LENGTH {
        return None;
    }
    Some(Driver {
        request: request_in(bytes)?,
        phase: phase_in(bytes[4], bytes[5])?,
        counts: counts_in(bytes),
    })
}

fn none() -> Driver
    ensures { result ≡ no_driver }
{
    Driver {
        request: Request {
            part: 255,
            enable: 0,
            place: Place::Array(ArrayAddress(0)),
            reads: false,
            length: 0,
            budget: 0,
        },
        phase: Phase::Ready,
        counts: Counts {
            at: 0,
            seen: 0,
            tries: 0,
            polls: 0,
            byte: 0,
        },
    }
}

// The state that the bytes hold; where they hold none, one that is out of range, as `DriverRefusesOthers` says.
#[tactic(auto, unfolding(crate::specs::Layout::unpacked_driver_of))]
pub fn unpack(bytes: &[u8]) -> Driver
    ensures { result ≡ unpacked_driver_of bytes.now }
{
    held(bytes).unwrap_or(none())
}
