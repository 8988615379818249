// What a logic analyser saw: samples of the two wires become events, the model runs over them, and the first level that differs is marked; the
// tally of a capture; and the wires of a run, drawn.
#![tactic(auto)]

mod engine;
mod samples;

ghost use Rattle.std.specs.Prelude.{◌≡◌, ◌++◌, ◌≤◌, ◌<◌, length, drop};
ghost use Rattle.parts.specs.Bytes.{AllBelow};
ghost use Rattle.chip.specs.Memory.{mem};
ghost use Rattle.capture.specs.Samples.{events_of, judge_of};
ghost use Rattle.capture.specs.Marks.{place_of};
ghost use Rattle.capture.specs.Tallies.{tally, tallied_of, tallies_of, counted_of};
ghost use Rattle.capture.specs.Wires.{lined_of, fallen, start_stroke, stroke_of};
ghost use Rattle.capture.specs.Calls.{seen_verdict_of, seeing_of, listing_of};

use parts::{Refusal, Verdict};
use state::Chip;

// ---- what is answered

// The first clock at which the line differs from the model: the sample at which it rises and its number among the clocks, both counted from
// 0, and the line's level.
#[derive(Clone, Copy)]
pub enum Mark {
    Same,
    At(usize, usize, u8),
}

#[derive(Clone, Copy)]
pub struct Seen {
    pub verdict: Verdict,
    // Of the capture, without the ends of cycles that were put in.
    pub events: usize,
    pub clocks: usize,
    pub ends: usize,
    pub cycles: usize,
    pub mark: Mark,
    pub chip: Chip,
}

#[derive(Clone, Copy)]
pub struct Listed {
    pub verdict: Verdict,
    // How many events; 0 where the call is refused.
    pub length: usize,
}

// Each stays at the top of its 32 bits.
#[derive(Clone, Copy)]
pub struct Tally {
    pub starts: u32,
    pub stops: u32,
    pub bytes: u32,
    pub unacknowledged: u32,
}

// Where the wires stand, the clock high: no transfer, or a transfer with data low or high.
#[derive(Clone, Copy)]
pub enum Wires {
    Rest,
    Low,
    High,
}

// The samples that an event adds, the first `count` of them, and where the wires stand then.
#[derive(Clone, Copy)]
pub struct Stroke {
    pub samples: [u8; 4],
    pub count: usize,
    pub wires: Wires,
}

// ---- the run

// Refusal 20: the first sample above 3.
pub fn judge(samples: &[u8]) -> Verdict
    ensures { result ≡ judge_of samples.now }
{
    samples::judge(samples)
}

fn seen_verdict(part: u8, enable: u8, chip: Chip, n: usize, d: usize, samples: &[u8]) -> Verdict
    ensures { result ≡ seen_verdict_of part enable chip n d samples.now }
{
    let held = chip::held_verdict(part, enable, chip, n, d);
    parts::sooner(held, judge(samples))
}

// The model over a capture, read as on a bus or by the letter. A refused call changes nothing.
pub fn run(
    part: u8,
    enable: u8,
    chip: Chip,
    array: &mut [u8],
    id: &mut [u8],
    bus: bool,
    samples: &[u8],
) -> Seen
    ensures answer { result ≡ (seeing_of part enable chip (mem array.old id.old) bus samples.now).answer }
    ensures stored { mem array.new id.new
        ≡ (seeing_of part enable chip (mem array.old id.old) bus samples.now).mem }
{
    match seen_verdict(part, enable, chip, array.len(), id.len(), samples) {
        Ok(()) => engine::go(part, enable, chip, array, id, bus, samples),
        Err(r) => Seen {
            verdict: Err(r),
            events: 0,
            clocks: 0,
            ends: 0,
            cycles: 0,
            mark: Mark::Same,
            chip,
        },
    }
}

// ---- the events alone

fn count_events(bus: bool, samples: &[u8]) -> usize
    requires { AllBelow 4 samples.now }
    ensures { result ≡ length (events_of bus samples.now) }
{
    let mut n = 0;
    let mut i = 1;
    while let Some(next) = samples::next_event(bus, samples, i) {
        n += 1;
        i = next.next;
    }
    n
}

// As many events as there are fit.
fn list(bus: bool, samples: &[u8], out: &mut [u8]) -> usize
    requires { AllBelow 4 samples.now × (length (events_of bus samples.now) ≤ length out.old) }
    ensures count { result ≡ length (events_of bus samples.now) }
    ensures bytes { out.new
        ≡ events_of bus samples.now ++ drop (length (events_of bus samples.now)) out.old }
{
    let mut n = 0;
    let mut i = 1;
    while let Some(next) = samples::next_event(bus, samples, i) {
        out[n] = next.code;
        n += 1;
        i = next.next;
    }
    n
}

fn list_judged(bus: bool, samples: &[u8], out: &mut [u8]) -> Listed
    requires { AllBelow 4 samples.now }
    ensures answer { result ≡ (listing_of bus samples.now out.old).answer }
    ensures bytes { out.new ≡ (listing_of bus samples.now out.old).out }
{
    let n = count_events(bus, samples);
    if out.len() < n {
        return Listed {
            verdict: Err(Refusal::ShortBuffer),
            length: 0,
        };
    }
    Listed {
        verdict: Ok(()),
        length: list(bus, samples, out),
    }
}

// The events of a capture, by their codes 0 to 3. Bytes of `out` past them keep their values, and a refused call changes nothing.
pub fn events(bus: bool, samples: &[u8], out: &mut [u8]) -> Listed
    ensures answer { result ≡ (listing_of bus samples.now out.old).answer }
    ensures bytes { out.new ≡ (listing_of bus samples.now out.old).out }
{
    match judge(samples) {
        Ok(()) => list_judged(bus, samples, out),
        Err(r) => Listed {
            verdict: Err(r),
            length: 0,
        },
    }
}

// ---- the tally

// The clocks since the last Start, Stop or whole byte.
pub(crate) fn place_after(place: u8, code: u8) -> u8
    ensures { result ≡ place_of place code }
{
    if code < 2 {
        if place < 8 {
            return place + 1;
        }
        return 0;
    }
    if code < 4 {
        return 0;
    }
    place
}

// One event, so many clocks after the last Start, Stop or whole byte.
fn tallied(t: Tally, place: u8, code: u8) -> Tally
    ensures { result ≡ tallied_of t place code }
{
    let ninth = place == 8;
    Tally {
        starts: parts::up(t.starts, code == 2),
        stops: parts::up(t.stops, code == 3),
        bytes: parts::up(t.bytes, ninth & (code < 2)),
        unacknowledged: parts::up(t.unacknowledged, ninth & (code == 1)),
    }
}

fn tally_all(first: Tally, bus: bool, samples: &[u8]) -> Tally
    requires { AllBelow 4 samples.now }
    ensures { result ≡ tallies_of first 0 (events_of bus samples.now) }
{
    let mut t = first;
    let mut place = 0;
    let mut i = 1;
    while let Some(next) = samples::next_event(bus, samples, i) {
        t = tallied(t, place, next.code);
        place = place_after(place, next.code);
        i = next.next;
    }
    t
}

// The counts after a capture, from those before it: as they were where the capture is refused.
pub fn tallied_by(
    starts: u32,
    stops: u32,
    bytes: u32,
    unacknowledged: u32,
    bus: bool,
    samples: &[u8],
) -> Tally
    ensures { result ≡ counted_of (tally starts stops bytes unacknowledged) bus samples.now }
{
    let t = Tally {
        starts,
        stops,
        bytes,
        unacknowledged,
    };
    match judge(samples) {
        Ok(()) => tally_all(t, bus, samples),
        Err(_) => t,
    }
}

// Each event of a capture updates the tally that is lent. It is taken apart, and the function over numbers is called.
pub fn count(tally: &mut Tally, bus: bool, samples: &[u8]) -> Verdict
    ensures { (result ≡ judge_of samples.now) × (tally.new ≡ counted_of tally.old bus samples.now) }
{
    *tally = tallied_by(
        tally.starts,
        tally.stops,
        tally.bytes,
        tally.unacknowledged,
        bus,
        samples,
    );
    judge(samples)
}

// ---- wires, drawn

// The level of the line, which is low where master or chip pulls it low.
pub fn lined(code: u8, level: u8) -> u8
    ensures { result ≡ lined_of code level }
{
    if code < 2 {
        if level == 0 {
            return 0;
        }
    }
    code
}

fn fallen(wires: Wires) -> u8
    ensures { result ≡ fallen wires }
{
    match wires {
        Wires::Rest | Wires::High => 2,
        Wires::Low => 0,
    }
}

fn start_stroke(wires: Wires) -> Stroke
    ensures { result ≡ start_stroke wires }
{
    match wires {
        Wires::Rest => Stroke {
            samples: [1, 0, 0, 0],
            count: 1,
            wires: Wires::Low,
        },
        Wires::Low => Stroke {
            samples: [0, 2, 3, 1],
            count: 4,
            wires: Wires::Low,
        },
        Wires::High => Stroke {
            samples: [2, 2, 3, 1],
            count: 4,
            wires: Wires::Low,
        },
    }
}

// The samples of one event on the line. The end of a cycle is not seen.
pub fn draw(wires: Wires, code: u8) -> Stroke
    ensures { result ≡ stroke_of wires code }
{
    let low = fallen(wires);
    match code {
        0 => Stroke {
            samples: [low, 0, 1, 0],
            count: 3,
            wires: Wires::Low,
        },
        1 => Stroke {
            samples: [low, 2, 3, 0],
            count: 3,
            wires: Wires::High,
        },
        2 => start_stroke(wires),
        3 => Stroke {
            samples: [low, 0, 1, 3],
            count: 4,
            wires: Wires::Rest,
        },
        _ => Stroke {
            samples: [0, 0, 0, 0],
            count: 0,
            wires,
        },
    }
}
