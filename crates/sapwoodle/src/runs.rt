// Driver and chip together.
ghost use Rattle.std.specs.Prelude.{◌≡◌};
ghost use Rattle.chip.specs.Memory.{mem};
ghost use Rattle.sapwoodle.specs.Drivers.{request_of};
ghost use Rattle.sapwoodle.specs.Runs.{chip_bytes_after_bench, benching};

use crate::drivers;
use state::Chip;

#[tactic(auto, unfolding(crate::specs::Runs::chip_bytes_after_bench))]
pub(crate) fn keep(state: &mut [u8], chip: Chip)
    ensures { state.new ≡ chip_bytes_after_bench state.old chip }
{
    if pack_chip::holds(state) {
        pack_chip::pack(chip, state);
    }
}

// A request on a chip with an enable of its own, each cycle ending just before its poll number d. The buffer holds the bytes to write,
// or takes the bytes read.
pub fn sapwoodle_bench_run(
    part: u8,
    enable: u8,
    what: u8,
    at: usize,
    length: usize,
    budget: usize,
    own: u8,
    d: usize,
    state: &mut [u8],
    array: &mut [u8],
    id: &mut [u8],
    buffer: &mut [u8],
    place: &mut usize,
    polls: &mut usize,
    bytes: &mut usize,
    cycles: &mut usize,
    clocks: &mut usize,
) -> u8
    ensures answer { result
        ≡ (benching (request_of part enable what at length budget) own d state.old
        (mem array.old id.old) buffer.old).number }
    ensures state { state.new
        ≡ (benching (request_of part enable what at length budget) own d state.old
        (mem array.old id.old) buffer.old).state }
    ensures stored { mem array.new id.new
        ≡ (benching (request_of part enable what at length budget) own d state.old
        (mem array.old id.old) buffer.old).stored }
    ensures buffer { buffer.new
        ≡ (benching (request_of part enable what at length budget) own d state.old
        (mem array.old id.old) buffer.old).buffer }
    ensures place { place.new
        ≡ (benching (request_of part enable what at length budget) own d state.old
        (mem array.old id.old) buffer.old).place }
    ensures polls { polls.new
        ≡ (benching (request_of part enable what at length budget) own d state.old
        (mem array.old id.old) buffer.old).polls }
    ensures bytes { bytes.new
        ≡ (benching (request_of part enable what at length budget) own d state.old
        (mem array.old id.old) buffer.old).bytes }
    ensures cycles { cycles.new
        ≡ (benching (request_of part enable what at length budget) own d state.old
        (mem array.old id.old) buffer.old).cycles }
    ensures clocks { clocks.new
        ≡ (benching (request_of part enable what at length budget) own d state.old
        (mem array.old id.old) buffer.old).clocks }
{
    let asked = drivers::request(part, enable, what, at, length, budget);
    let chip = pack_chip::unpack(state);
    let r = bench::run(asked, own, d, chip, array, id, buffer);
    *place = parts::verdict_place(r.verdict);
    *polls = r.polls;
    *bytes = r.bytes;
    *cycles = r.cycles;
    *clocks = r.clocks;
    keep(state, r.chip);
    parts::verdict_number(r.verdict)
}
