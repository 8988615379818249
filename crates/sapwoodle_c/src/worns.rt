// Images with counts of wear: saved, loaded, made of an image without counts and made into one.
ghost use Rattle.std.specs.Prelude.{◌≡◌};
ghost use Rattle.chip.specs.Memory.{mem};
ghost use Rattle.wear.specs.Report.{most};
ghost use Rattle.sapwoodle.specs.Worns.{saving_worn_bytes, loading_worn_bytes, to_worn_bytes, to_plain_bytes};

// The chip and the counts beside it into a lent buffer; `written` gets the length of their image.
#[unsafe(no_mangle)]
pub extern "C" fn sapwoodle_save_worn(
    part: u8,
    state: &[u8],
    array: &[u8],
    id: &[u8],
    counts: &[u32],
    out: &mut [u8],
    written: &mut usize,
) -> u8
    ensures answer { result
        ≡ (saving_worn_bytes part state.now (mem array.now id.now) counts.now out.old).number }
    ensures bytes { out.new
        ≡ (saving_worn_bytes part state.now (mem array.now id.now) counts.now out.old).out }
    ensures written { written.new
        ≡ (saving_worn_bytes part state.now (mem array.now id.now) counts.now out.old).written }
{
    sapwoodle::worns::sapwoodle_save_worn(part, state, array, id, counts, out, written)
}

// A chip, its counts and the worst of them from an image of either version and an enable for it; `part` gets its part byte.
#[unsafe(no_mangle)]
pub extern "C" fn sapwoodle_load_worn(
    image: &[u8],
    enable: u8,
    state: &mut [u8],
    array: &mut [u8],
    id: &mut [u8],
    counts: &mut [u32],
    part: &mut u8,
    group: &mut usize,
    count: &mut u32,
) -> u8
    ensures answer { result
        ≡ (loading_worn_bytes image.now enable state.old (mem array.old id.old) counts.old
        (most group.old count.old)).load.number }
    ensures state { state.new
        ≡ (loading_worn_bytes image.now enable state.old (mem array.old id.old) counts.old
        (most group.old count.old)).load.state }
    ensures cells { array.new
        ≡ (loading_worn_bytes image.now enable state.old (mem array.old id.old) counts.old
        (most group.old count.old)).load.stored.cells }
    ensures ident { id.new
        ≡ (loading_worn_bytes image.now enable state.old (mem array.old id.old) counts.old
        (most group.old count.old)).load.stored.ident }
    ensures counts { counts.new
        ≡ (loading_worn_bytes image.now enable state.old (mem array.old id.old) counts.old
        (most group.old count.old)).counts }
    ensures part { part.new
        ≡ (loading_worn_bytes image.now enable state.old (mem array.old id.old) counts.old
        (most group.old count.old)).load.part }
    ensures group { group.new
        ≡ (loading_worn_bytes image.now enable state.old (mem array.old id.old) counts.old
        (most group.old count.old)).worst.group }
    ensures count { count.new
        ≡ (loading_worn_bytes image.now enable state.old (mem array.old id.old) counts.old
        (most group.old count.old)).worst.count }
{
    sapwoodle::worns::sapwoodle_load_worn(
        image, enable, state, array, id, counts, part, group, count,
    )
}

// An image of version 1 as one of version 2, into a lent buffer; `written` gets its length.
#[unsafe(no_mangle)]
pub extern "C" fn sapwoodle_to_worn(image: &[u8], out: &mut [u8], written: &mut usize) -> u8
    ensures answer { result ≡ (to_worn_bytes image.now out.old).number }
    ensures bytes { out.new ≡ (to_worn_bytes image.now out.old).out }
    ensures written { written.new ≡ (to_worn_bytes image.now out.old).written }
{
    sapwoodle::worns::sapwoodle_to_worn(image, out, written)
}

// And back, where no count is lost by it.
#[unsafe(no_mangle)]
pub extern "C" fn sapwoodle_to_plain(image: &[u8], out: &mut [u8], written: &mut usize) -> u8
    ensures answer { result ≡ (to_plain_bytes image.now out.old).number }
    ensures bytes { out.new ≡ (to_plain_bytes image.now out.old).out }
    ensures written { written.new ≡ (to_plain_bytes image.now out.old).written }
{
    sapwoodle::worns::sapwoodle_to_plain(image, out, written)
}
