// Saving and loading.
ghost use Rattle.std.specs.Prelude.{◌≡◌};
ghost use Rattle.chip.specs.Memory.{mem};
ghost use Rattle.sapwoodle.specs.Images.{saving_bytes, looks_of, loading_bytes};

use crate::answers;

// The chip into a lent buffer; `written` gets the length of its image.
pub fn sapwoodle_save(
    part: u8,
    state: &[u8],
    array: &[u8],
    id: &[u8],
    out: &mut [u8],
    written: &mut usize,
) -> u8
    ensures answer { result
        ≡ (saving_bytes part state.now (mem array.now id.now) out.old).number }
    ensures bytes { out.new
        ≡ (saving_bytes part state.now (mem array.now id.now) out.old).out }
    ensures written { written.new
        ≡ (saving_bytes part state.now (mem array.now id.now) out.old).written }
{
    let chip = pack_chip::unpack(state);
    let s = image::save(part, chip, array, id, out);
    *written = s.length;
    parts::verdict_number(s.verdict)
}

// Whether the image is looked at.
#[tactic(auto, unfolding(crate::specs::Images::looks_of))]
pub(crate) fn looks(state: usize, image: usize) -> bool
    ensures { result ≡ looks_of state image }
{
    state == pack_chip::LENGTH || image < 6
}

// A chip from an image and an enable for it; `part` gets its part byte.
pub fn sapwoodle_load(
    image: &[u8],
    enable: u8,
    state: &mut [u8],
    array: &mut [u8],
    id: &mut [u8],
    part: &mut u8,
) -> u8
    ensures answer { result
        ≡ (loading_bytes image.now enable state.old (mem array.old id.old)).number }
    ensures state { state.new
        ≡ (loading_bytes image.now enable state.old (mem array.old id.old)).state }
    ensures cells { array.new
        ≡ (loading_bytes image.now enable state.old (mem array.old id.old)).stored.cells }
    ensures ident { id.new
        ≡ (loading_bytes image.now enable state.old (mem array.old id.old)).stored.ident }
    ensures part { part.new
        ≡ (loading_bytes image.now enable state.old (mem array.old id.old)).part }
{
    let own = image::part_in(image);
    *part = own;
    if !looks(state.len(), image.len()) {
        return parts::verdict_number(answers::unheld(own, enable, array, id));
    }
    let l = image::load(image, enable, array, id);
    answers::settle(l.verdict, l.chip, state)
}
