// The driver.
ghost use Rattle.std.specs.Prelude.{◌≡◌};
ghost use Rattle.sapwoodle.specs.Drivers.{
  reads_of,
  place_of,
  budget_of,
  request_of,
  roomless_of,
  driver_bytes_after_begin,
  beginning,
  told_of,
  driver_bytes_after_next,
  asking,
};

use driver::{Answer, Driver, Place, Request};
use parts::{ArrayAddress, IdLocation, Refusal, Verdict};

// An answer of the driver as numbers: a refusal's stands beside its place, as a C program reads them.
#[derive(Clone, Copy)]
pub struct Told {
    pub number: u8,
    // 255 where no event is sent.
    pub event: u8,
    // The page of 9, 14 and 15, the index of 10.
    pub place: usize,
    pub polls: usize,
    pub bytes: usize,
}

// ---- a request

#[tactic(auto, unfolding(crate::specs::Drivers::reads_of))]
fn reads(what: u8) -> bool
    ensures { result ≡ reads_of what }
{
    matches!(what, 1 | 3)
}

// A number above 3 names no page: an address beyond every array.
#[tactic(auto, unfolding(crate::specs::Drivers::place_of))]
fn place(what: u8, at: usize) -> Place
    ensures { result ≡ place_of what at }
{
    match what {
        0 | 1 => Place::Array(ArrayAddress(at)),
        2 | 3 => Place::Ident(IdLocation(at)),
        _ => Place::Array(ArrayAddress(65536)),
    }
}

#[tactic(auto, unfolding(crate::specs::Drivers::budget_of))]
fn budget_of(what: u8, budget: usize) -> usize
    ensures { result ≡ budget_of what budget }
{
    if reads(what) { 0 } else { budget }
}

// What is asked for as numbers: 0 write, 1 read, 2 and 3 the same of the identification page.
pub(crate) fn request(
    part: u8,
    enable: u8,
    what: u8,
    at: usize,
    length: usize,
    budget: usize,
) -> Request
    ensures { result ≡ request_of part enable what at length budget }
{
    Request {
        part,
        enable,
        place: place(what, at),
        reads: reads(what),
        length,
        budget: budget_of(what, budget),
    }
}

// ---- begin

// Which refusal a call is given whose driver buffer has another length.
#[tactic(auto, unfolding(crate::specs::Drivers::roomless_of))]
fn roomless(part: u8, enable: u8) -> Verdict
    ensures { result ≡ roomless_of part enable }
{
    let f = parts::facts_of(part);
    let named = parts::claim(!parts::enable_right(f, enable), Refusal::WrongEnable);
    parts::sooner(
        parts::claim(!f.known, Refusal::NoPart),
        parts::sooner(named, Err(Refusal::BadState)),
    )
}

fn keep_begun(verdict: Verdict, begun: Driver, state: &mut [u8])
    ensures { state.new ≡ driver_bytes_after_begin verdict begun state.old }
{
    match verdict {
        Ok(()) => {
            pack_driver::pack(begun, state);
        }
        Err(_) => {}
    }
}

// A driver for a request, into a lent buffer.
pub fn sapwoodle_driver_begin(
    part: u8,
    enable: u8,
    what: u8,
    at: usize,
    length: usize,
    budget: usize,
    state: &mut [u8],
) -> u8
    ensures answer { result ≡ (beginning (request_of part enable what at length budget) state.old).number }
    ensures state { state.new ≡ (beginning (request_of part enable what at length budget) state.old).state }
{
    if state.len() != pack_driver::LENGTH {
        return parts::verdict_number(roomless(part, enable));
    }
    let b = driver::begin(request(part, enable, what, at, length, budget));
    keep_begun(b.verdict, b.driver, state);
    parts::verdict_number(b.verdict)
}

// ---- next

impl From<Answer> for Told {
    ghost from_gives = { λ a t. t ≡ told_of a };

    fn from(answer: Answer) -> Told {
        match answer {
            Answer::Send(event) => Told {
                number: 0,
                event,
                place: 0,
                polls: 0,
                bytes: 0,
            },
            Answer::Done(polls, bytes) => Told {
                number: 0,
                event: 255,
                place: 0,
                polls,
                bytes,
            },
            Answer::Refused(r, polls, bytes) => Told {
                number: parts::number(r),
                event: 255,
                place: parts::verdict_place(Err(r)),
                polls,
                bytes,
            },
        }
    }
}

#[tactic(auto, unfolding(crate::specs::Drivers::driver_bytes_after_next))]
fn keep(number: u8, next: Driver, state: &mut [u8])
    ensures { state.new ≡ driver_bytes_after_next number next state.old }
{
    if number != parts::number(Refusal::BadState) {
        pack_driver::pack(next, state);
    }
}

// One step: the event to send, or how the driver ended.
pub fn sapwoodle_driver_next(
    state: &mut [u8],
    level: u8,
    buffer: &mut [u8],
    event: &mut u8,
    place: &mut usize,
    polls: &mut usize,
    bytes: &mut usize,
) -> u8
    ensures answer { result ≡ (asking state.old level buffer.old).told.number }
    ensures state { state.new ≡ (asking state.old level buffer.old).state }
    ensures buffer { buffer.new ≡ (asking state.old level buffer.old).buffer }
    ensures event { event.new ≡ (asking state.old level buffer.old).told.event }
    ensures place { place.new ≡ (asking state.old level buffer.old).told.place }
    ensures polls { polls.new ≡ (asking state.old level buffer.old).told.polls }
    ensures bytes { bytes.new ≡ (asking state.old level buffer.old).told.bytes }
{
    let asked = driver::next(pack_driver::unpack(state), level, buffer);
    let t = Told::from(asked.answer);
    *event = t.event;
    *place = t.place;
    *polls = t.polls;
    *bytes = t.bytes;
    keep(t.number, asked.driver, state);
    t.number
}
