// Saving and loading.
ghost use Rattle.std.specs.Prelude.{◌≡◌};
ghost use Rattle.chip.specs.Memory.{mem};
ghost use Rattle.sapwoodle.specs.Images.{saving_bytes, loading_bytes};

// The chip into a lent buffer; `written` gets the length of its image.
#[unsafe(no_mangle)]
pub extern "C" fn sapwoodle_save(
    part: u8,
    state: &[u8],
    array: &[u8],
    id: &[u8],
    out: &mut [u8],
    written: &mut usize,
) -> u8
    ensures answer { result
        ≡ (saving_bytes part state.now (mem array.now id.now) out.old).number }
    ensures bytes { out.new
        ≡ (saving_bytes part state.now (mem array.now id.now) out.old).out }
    ensures written { written.new
        ≡ (saving_bytes part state.now (mem array.now id.now) out.old).written }
{
    sapwoodle::images::sapwoodle_save(part, state, array, id, out, written)
}

// A chip from an image and an enable for it; `part` gets its part byte.
#[unsafe(no_mangle)]
pub extern "C" fn sapwoodle_load(
    image: &[u8],
    enable: u8,
    state: &mut [u8],
    array: &mut [u8],
    id: &mut [u8],
    part: &mut u8,
) -> u8
    ensures answer { result
        ≡ (loading_bytes image.now enable state.old (mem array.old id.old)).number }
    ensures state { state.new
        ≡ (loading_bytes image.now enable state.old (mem array.old id.old)).state }
    ensures cells { array.new
        ≡ (loading_bytes image.now enable state.old (mem array.old id.old)).stored.cells }
    ensures ident { id.new
        ≡ (loading_bytes image.now enable state.old (mem array.old id.old)).stored.ident }
    ensures part { part.new
        ≡ (loading_bytes image.now enable state.old (mem array.old id.old)).part }
{
    sapwoodle::images::sapwoodle_load(image, enable, state, array, id, part)
}
