// The chip: a state is lent as bytes, and further results are stored where asked.
ghost use Rattle.std.specs.Prelude.{◌≡◌};
ghost use Rattle.chip.specs.Memory.{mem};
ghost use Rattle.sapwoodle.specs.Chips.{loss_from, stepping, running, delivering};

use crate::answers;
use parts::Loss;

// A part as delivered.
pub fn sapwoodle_deliver(part: u8, state: &mut [u8], array: &mut [u8], id: &mut [u8]) -> u8
    ensures answer { result ≡ (delivering part state.old (mem array.old id.old)).number }
    ensures state { state.new ≡ (delivering part state.old (mem array.old id.old)).state }
    ensures cells { array.new ≡ (delivering part state.old (mem array.old id.old)).stored.cells }
    ensures ident { id.new ≡ (delivering part state.old (mem array.old id.old)).stored.ident }
{
    if state.len() != pack_chip::LENGTH {
        return parts::verdict_number(answers::unheld(part, 0, array, id));
    }
    let d = chip::deliver(part, array, id);
    answers::settle(d.verdict, d.chip, state)
}

// What is given for a loss of power (document 02, §5): no page and flag 0 are the old contents and no lock.
#[tactic(auto, unfolding(crate::specs::Chips::loss_from))]
pub(crate) fn loss_from(length: usize, lock: u8) -> Loss
    ensures { result ≡ loss_from length lock }
{
    if lock != 0 {
        return Loss::Lent(true);
    }
    if length == 0 {
        return Loss::Old;
    }
    Loss::Lent(false)
}

// One event. A refused call answers level 2 and no cycles.
pub fn sapwoodle_step(
    part: u8,
    enable: u8,
    page: &[u8],
    lock: u8,
    state: &mut [u8],
    array: &mut [u8],
    id: &mut [u8],
    event: u8,
    level: &mut u8,
    cycles: &mut usize,
) -> u8
    ensures answer { result ≡ (stepping part enable page.now lock state.old (mem array.old id.old) event).number }
    ensures state { state.new ≡ (stepping part enable page.now lock state.old (mem array.old id.old) event).state }
    ensures cells { array.new ≡ (stepping part enable page.now lock state.old (mem array.old id.old) event).stored.cells }
    ensures ident { id.new ≡ (stepping part enable page.now lock state.old (mem array.old id.old) event).stored.ident }
    ensures level { level.new ≡ (stepping part enable page.now lock state.old (mem array.old id.old) event).level }
    ensures cycles { cycles.new ≡ (stepping part enable page.now lock state.old (mem array.old id.old) event).cycles }
{
    let chip = pack_chip::unpack(state);
    let loss = loss_from(page.len(), lock);
    let s = chip::step(part, enable, loss, page, chip, array, id, event);
    *level = s.level;
    *cycles = s.cycles as usize;
    answers::settle(s.verdict, s.chip, state)
}

// A list of events, the levels into a lent answer buffer; the place is that of refusal 5.
pub fn sapwoodle_run(
    part: u8,
    enable: u8,
    page: &[u8],
    lock: u8,
    state: &mut [u8],
    array: &mut [u8],
    id: &mut [u8],
    events: &[u8],
    answers: &mut [u8],
    cycles: &mut usize,
    at: &mut usize,
) -> u8
    ensures answer { result
        ≡ (running part enable page.now lock state.old (mem array.old id.old) events.now answers.old).number }
    ensures state { state.new
        ≡ (running part enable page.now lock state.old (mem array.old id.old) events.now answers.old).state }
    ensures stored { mem array.new id.new
        ≡ (running part enable page.now lock state.old (mem array.old id.old) events.now answers.old).stored }
    ensures levels { answers.new
        ≡ (running part enable page.now lock state.old (mem array.old id.old) events.now answers.old).answers }
    ensures cycles { cycles.new
        ≡ (running part enable page.now lock state.old (mem array.old id.old) events.now answers.old).cycles }
    ensures place { at.new
        ≡ (running part enable page.now lock state.old (mem array.old id.old) events.now answers.old).place }
{
    let chip = pack_chip::unpack(state);
    let loss = loss_from(page.len(), lock);
    let r = chip::run(part, enable, loss, page, chip, array, id, events, answers);
    *cycles = r.cycles;
    *at = parts::verdict_place(r.verdict);
    answers::settle(r.verdict, r.chip, state)
}
