// The driver.
ghost use Rattle.std.specs.Prelude.{◌≡◌};
ghost use Rattle.sapwoodle.specs.Drivers.{beginning, asking, request_of};

// A driver for a request, into a lent buffer.
#[unsafe(no_mangle)]
pub extern "C" fn sapwoodle_driver_begin(
    part: u8,
    enable: u8,
    what: u8,
    at: usize,
    length: usize,
    budget: usize,
    state: &mut [u8],
) -> u8
    ensures answer { result ≡ (beginning (request_of part enable what at length budget) state.old).number }
    ensures state { state.new ≡ (beginning (request_of part enable what at length budget) state.old).state }
{
    sapwoodle::drivers::sapwoodle_driver_begin(part, enable, what, at, length, budget, state)
}

// One step: the event to send, or how the driver ended.
#[unsafe(no_mangle)]
pub extern "C" fn sapwoodle_driver_next(
    state: &mut [u8],
    level: u8,
    buffer: &mut [u8],
    event: &mut u8,
    place: &mut usize,
    polls: &mut usize,
    bytes: &mut usize,
) -> u8
    ensures answer { result ≡ (asking state.old level buffer.old).told.number }
    ensures state { state.new ≡ (asking state.old level buffer.old).state }
    ensures buffer { buffer.new ≡ (asking state.old level buffer.old).buffer }
    ensures event { event.new ≡ (asking state.old level buffer.old).told.event }
    ensures place { place.new ≡ (asking state.old level buffer.old).told.place }
    ensures polls { polls.new ≡ (asking state.old level buffer.old).told.polls }
    ensures bytes { bytes.new ≡ (asking state.old level buffer.old).told.bytes }
{
    sapwoodle::drivers::sapwoodle_driver_next(state, level, buffer, event, place, polls, bytes)
}
