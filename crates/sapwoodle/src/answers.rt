// What the calls share: what becomes of a state's bytes, and the refusal where none are held.
ghost use Rattle.std.specs.Prelude.{◌≡◌};
ghost use Rattle.chip.specs.Memory.{mem};
ghost use Rattle.parts.specs.Refusals.{verdict_number_of};
ghost use Rattle.sapwoodle.specs.Answers.{chip_bytes_after, unheld_of};

use parts::{Refusal, Verdict};
use state::Chip;

// The number of a verdict. Where nothing is refused, the state is packed.
pub(crate) fn settle(verdict: Verdict, chip: Chip, state: &mut [u8]) -> u8
    ensures answer { result ≡ verdict_number_of verdict }
    ensures kept { state.new ≡ chip_bytes_after verdict chip state.old }
{
    match verdict {
        Ok(()) => {
            pack_chip::pack(chip, state);
            0
        }
        Err(r) => parts::number(r),
    }
}

// Which refusal a call is given whose state buffer has another length.
#[tactic(auto, unfolding(crate::specs::Answers::unheld_of))]
pub(crate) fn unheld(part: u8, enable: u8, array: &[u8], id: &[u8]) -> Verdict
    ensures { result ≡ unheld_of part enable (mem array.now id.now) }
{
    let f = parts::facts_of(part);
    let named = parts::claim(!parts::enable_right(f, enable), Refusal::WrongEnable);
    parts::sooner(
        parts::lent_verdict(f, array.len(), id.len()),
        parts::sooner(named, Err(Refusal::BadState)),
    )
}
