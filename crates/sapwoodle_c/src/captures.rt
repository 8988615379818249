// What a logic analyser saw: 1 for `bus` reads it as on a bus, 0 by the letter.
ghost use Rattle.std.specs.Prelude.{◌≡◌};
ghost use Rattle.chip.specs.Memory.{mem};
ghost use Rattle.sapwoodle.specs.Captures.{bus_of, capturing, listing, tallying};

// The model over a capture. `level` gets the line's level at the first clock that differs, `sample` where it rises and `clock` its number; the
// place is that of refusal 20.
#[unsafe(no_mangle)]
pub extern "C" fn sapwoodle_capture_run(
    part: u8,
    enable: u8,
    state: &mut [u8],
    array: &mut [u8],
    id: &mut [u8],
    bus: u8,
    samples: &[u8],
    events: &mut usize,
    clocks: &mut usize,
    ends: &mut usize,
    cycles: &mut usize,
    level: &mut u8,
    sample: &mut usize,
    clock: &mut usize,
    at: &mut usize,
) -> u8
    ensures answer { result
        ≡ (capturing part enable state.old (mem array.old id.old) (bus_of bus) samples.now).number }
    ensures state { state.new
        ≡ (capturing part enable state.old (mem array.old id.old) (bus_of bus) samples.now).state }
    ensures stored { mem array.new id.new
        ≡ (capturing part enable state.old (mem array.old id.old) (bus_of bus) samples.now).stored }
    ensures events { events.new
        ≡ (capturing part enable state.old (mem array.old id.old) (bus_of bus) samples.now).events }
    ensures clocks { clocks.new
        ≡ (capturing part enable state.old (mem array.old id.old) (bus_of bus) samples.now).clocks }
    ensures ends { ends.new
        ≡ (capturing part enable state.old (mem array.old id.old) (bus_of bus) samples.now).ends }
    ensures cycles { cycles.new
        ≡ (capturing part enable state.old (mem array.old id.old) (bus_of bus) samples.now).cycles }
    ensures level { level.new
        ≡ (capturing part enable state.old (mem array.old id.old) (bus_of bus) samples.now).level }
    ensures sample { sample.new
        ≡ (capturing part enable state.old (mem array.old id.old) (bus_of bus) samples.now).sample }
    ensures clock { clock.new
        ≡ (capturing part enable state.old (mem array.old id.old) (bus_of bus) samples.now).clock }
    ensures place { at.new
        ≡ (capturing part enable state.old (mem array.old id.old) (bus_of bus) samples.now).place }
{
    sapwoodle::captures::sapwoodle_capture_run(
        part, enable, state, array, id, bus, samples, events, clocks, ends, cycles, level, sample,
        clock, at,
    )
}

// The events of a capture, by their codes; `length` gets how many.
#[unsafe(no_mangle)]
pub extern "C" fn sapwoodle_capture_events(
    bus: u8,
    samples: &[u8],
    out: &mut [u8],
    length: &mut usize,
    at: &mut usize,
) -> u8
    ensures answer { result ≡ (listing (bus_of bus) samples.now out.old).number }
    ensures bytes { out.new ≡ (listing (bus_of bus) samples.now out.old).out }
    ensures length { length.new ≡ (listing (bus_of bus) samples.now out.old).length }
    ensures place { at.new ≡ (listing (bus_of bus) samples.now out.old).place }
{
    sapwoodle::captures::sapwoodle_capture_events(bus, samples, out, length, at)
}

// The four counts go on by what a capture shows; each stays at 4,294,967,295.
#[unsafe(no_mangle)]
pub extern "C" fn sapwoodle_capture_tally(
    bus: u8,
    samples: &[u8],
    starts: &mut u32,
    stops: &mut u32,
    bytes: &mut u32,
    unacknowledged: &mut u32,
    at: &mut usize,
) -> u8
    ensures answer { result
        ≡ (tallying (bus_of bus) samples.now starts.old stops.old bytes.old unacknowledged.old).number }
    ensures starts { starts.new
        ≡ (tallying (bus_of bus) samples.now starts.old stops.old bytes.old unacknowledged.old).tally.starts }
    ensures stops { stops.new
        ≡ (tallying (bus_of bus) samples.now starts.old stops.old bytes.old unacknowledged.old).tally.stops }
    ensures bytes { bytes.new
        ≡ (tallying (bus_of bus) samples.now starts.old stops.old bytes.old unacknowledged.old).tally.bytes }
    ensures unacknowledged { unacknowledged.new
        ≡ (tallying (bus_of bus) samples.now starts.old stops.old bytes.old unacknowledged.old).tally.unacknowledged }
    ensures place { at.new
        ≡ (tallying (bus_of bus) samples.now starts.old stops.old bytes.old unacknowledged.old).place }
{
    sapwoodle::captures::sapwoodle_capture_tally(
        bus,
        samples,
        starts,
        stops,
        bytes,
        unacknowledged,
        at,
    )
}
