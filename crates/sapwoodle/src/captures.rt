// What a logic analyser saw: 1 for `bus` reads it as on a bus, 0 by the letter.
ghost use Rattle.std.specs.Prelude.{◌≡◌};
ghost use Rattle.chip.specs.Memory.{mem};
ghost use Rattle.sapwoodle.specs.Captures.{bus_of, level_in, sample_in, clock_in, capturing, listing, tallying};

use crate::answers;
use capture::Mark;

fn as_bus(bus: u8) -> bool
    ensures { result ≡ bus_of bus }
{
    bus != 0
}

// The level, the sample and the clock; 2 where no level differs.
fn told(mark: Mark) -> (u8, usize, usize)
    ensures { result ≡ (level_in mark, sample_in mark, clock_in mark) }
{
    match mark {
        Mark::Same => (2, 0, 0),
        Mark::At(sample, clock, level) => (level, sample, clock),
    }
}

// The model over a capture. `level` gets the line's level at the first clock that differs, `sample` where it rises and `clock` its number; the
// place is that of refusal 20.
pub fn sapwoodle_capture_run(
    part: u8,
    enable: u8,
    state: &mut [u8],
    array: &mut [u8],
    id: &mut [u8],
    bus: u8,
    samples: &[u8],
    events: &mut usize,
    clocks: &mut usize,
    ends: &mut usize,
    cycles: &mut usize,
    level: &mut u8,
    sample: &mut usize,
    clock: &mut usize,
    at: &mut usize,
) -> u8
    ensures answer { result
        ≡ (capturing part enable state.old (mem array.old id.old) (bus_of bus) samples.now).number }
    ensures state { state.new
        ≡ (capturing part enable state.old (mem array.old id.old) (bus_of bus) samples.now).state }
    ensures stored { mem array.new id.new
        ≡ (capturing part enable state.old (mem array.old id.old) (bus_of bus) samples.now).stored }
    ensures events { events.new
        ≡ (capturing part enable state.old (mem array.old id.old) (bus_of bus) samples.now).events }
    ensures clocks { clocks.new
        ≡ (capturing part enable state.old (mem array.old id.old) (bus_of bus) samples.now).clocks }
    ensures ends { ends.new
        ≡ (capturing part enable state.old (mem array.old id.old) (bus_of bus) samples.now).ends }
    ensures cycles { cycles.new
        ≡ (capturing part enable state.old (mem array.old id.old) (bus_of bus) samples.now).cycles }
    ensures level { level.new
        ≡ (capturing part enable state.old (mem array.old id.old) (bus_of bus) samples.now).level }
    ensures sample { sample.new
        ≡ (capturing part enable state.old (mem array.old id.old) (bus_of bus) samples.now).sample }
    ensures clock { clock.new
        ≡ (capturing part enable state.old (mem array.old id.old) (bus_of bus) samples.now).clock }
    ensures place { at.new
        ≡ (capturing part enable state.old (mem array.old id.old) (bus_of bus) samples.now).place }
{
    let chip = pack_chip::unpack(state);
    let s = capture::run(part, enable, chip, array, id, as_bus(bus), samples);
    *events = s.events;
    *clocks = s.clocks;
    *ends = s.ends;
    *cycles = s.cycles;
    (*level, *sample, *clock) = told(s.mark);
    *at = parts::verdict_place(s.verdict);
    answers::settle(s.verdict, s.chip, state)
}

// The events of a capture, by their codes; `length` gets how many.
pub fn sapwoodle_capture_events(
    bus: u8,
    samples: &[u8],
    out: &mut [u8],
    length: &mut usize,
    at: &mut usize,
) -> u8
    ensures answer { result ≡ (listing (bus_of bus) samples.now out.old).number }
    ensures bytes { out.new ≡ (listing (bus_of bus) samples.now out.old).out }
    ensures length { length.new ≡ (listing (bus_of bus) samples.now out.old).length }
    ensures place { at.new ≡ (listing (bus_of bus) samples.now out.old).place }
{
    let l = capture::events(as_bus(bus), samples, out);
    *length = l.length;
    *at = parts::verdict_place(l.verdict);
    parts::verdict_number(l.verdict)
}

// The four counts go on by what a capture shows; each stays at 4,294,967,295.
pub fn sapwoodle_capture_tally(
    bus: u8,
    samples: &[u8],
    starts: &mut u32,
    stops: &mut u32,
    bytes: &mut u32,
    unacknowledged: &mut u32,
    at: &mut usize,
) -> u8
    ensures answer { result
        ≡ (tallying (bus_of bus) samples.now starts.old stops.old bytes.old unacknowledged.old).number }
    ensures starts { starts.new
        ≡ (tallying (bus_of bus) samples.now starts.old stops.old bytes.old unacknowledged.old).tally.starts }
    ensures stops { stops.new
        ≡ (tallying (bus_of bus) samples.now starts.old stops.old bytes.old unacknowledged.old).tally.stops }
    ensures bytes { bytes.new
        ≡ (tallying (bus_of bus) samples.now starts.old stops.old bytes.old unacknowledged.old).tally.bytes }
    ensures unacknowledged { unacknowledged.new
        ≡ (tallying (bus_of bus) samples.now starts.old stops.old bytes.old unacknowledged.old).tally.unacknowledged }
    ensures place { at.new
        ≡ (tallying (bus_of bus) samples.now starts.old stops.old bytes.old unacknowledged.old).place }
{
    let t = capture::tallied_by(
        *starts,
        *stops,
        *bytes,
        *unacknowledged,
        as_bus(bus),
        samples,
    );
    *starts = t.starts;
    *stops = t.stops;
    *bytes = t.bytes;
    *unacknowledged = t.unacknowledged;
    let verdict = capture::judge(samples);
    *at = parts::verdict_place(verdict);
    parts::verdict_number(verdict)
}
