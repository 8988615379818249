// The chip: a state is lent as bytes, and further results are stored where asked.
ghost use Rattle.std.specs.Prelude.{◌≡◌};
ghost use Rattle.chip.specs.Memory.{mem};
ghost use Rattle.sapwoodle.specs.Chips.{stepping, running, delivering};

// A part as delivered.
#[unsafe(no_mangle)]
pub extern "C" fn sapwoodle_deliver(
    part: u8,
    state: &mut [u8],
    array: &mut [u8],
    id: &mut [u8],
) -> u8
    ensures answer { result ≡ (delivering part state.old (mem array.old id.old)).number }
    ensures state { state.new ≡ (delivering part state.old (mem array.old id.old)).state }
    ensures cells { array.new ≡ (delivering part state.old (mem array.old id.old)).stored.cells }
    ensures ident { id.new ≡ (delivering part state.old (mem array.old id.old)).stored.ident }
{
    sapwoodle::chips::sapwoodle_deliver(part, state, array, id)
}

// One event. A refused call answers level 2 and no cycles.
#[unsafe(no_mangle)]
pub extern "C" fn sapwoodle_step(
    part: u8,
    enable: u8,
    page: &[u8],
    lock: u8,
    state: &mut [u8],
    array: &mut [u8],
    id: &mut [u8],
    event: u8,
    level: &mut u8,
    cycles: &mut usize,
) -> u8
    ensures answer { result ≡ (stepping part enable page.now lock state.old (mem array.old id.old) event).number }
    ensures state { state.new ≡ (stepping part enable page.now lock state.old (mem array.old id.old) event).state }
    ensures cells { array.new ≡ (stepping part enable page.now lock state.old (mem array.old id.old) event).stored.cells }
    ensures ident { id.new ≡ (stepping part enable page.now lock state.old (mem array.old id.old) event).stored.ident }
    ensures level { level.new ≡ (stepping part enable page.now lock state.old (mem array.old id.old) event).level }
    ensures cycles { cycles.new ≡ (stepping part enable page.now lock state.old (mem array.old id.old) event).cycles }
{
    sapwoodle::chips::sapwoodle_step(
        part, enable, page, lock, state, array, id, event, level, cycles,
    )
}

// A list of events, the levels into a lent answer buffer; the place is that of refusal 5.
#[unsafe(no_mangle)]
pub extern "C" fn sapwoodle_run(
    part: u8,
    enable: u8,
    page: &[u8],
    lock: u8,
    state: &mut [u8],
    array: &mut [u8],
    id: &mut [u8],
    events: &[u8],
    answers: &mut [u8],
    cycles: &mut usize,
    at: &mut usize,
) -> u8
    ensures answer { result
        ≡ (running part enable page.now lock state.old (mem array.old id.old) events.now answers.old).number }
    ensures state { state.new
        ≡ (running part enable page.now lock state.old (mem array.old id.old) events.now answers.old).state }
    ensures stored { mem array.new id.new
        ≡ (running part enable page.now lock state.old (mem array.old id.old) events.now answers.old).stored }
    ensures levels { answers.new
        ≡ (running part enable page.now lock state.old (mem array.old id.old) events.now answers.old).answers }
    ensures cycles { cycles.new
        ≡ (running part enable page.now lock state.old (mem array.old id.old) events.now answers.old).cycles }
    ensures place { at.new
        ≡ (running part enable page.now lock state.old (mem array.old id.old) events.now answers.old).place }
{
    sapwoodle::chips::sapwoodle_run(
        part, enable, page, lock, state, array, id, events, answers, cycles, at,
    )
}
