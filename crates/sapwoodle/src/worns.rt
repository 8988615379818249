// Images with counts of wear: saved, loaded, made of an image without counts and made into one.
ghost use Rattle.std.specs.Prelude.{◌≡◌};
ghost use Rattle.chip.specs.Memory.{mem};
ghost use Rattle.wear.specs.Report.{most};
ghost use Rattle.sapwoodle.specs.Worns.{unheld_worn_of, found_or, saving_worn_bytes, loading_worn_bytes, to_worn_bytes, to_plain_bytes};

use crate::{answers, images};
use parts::Verdict;
use wear::Most;

// The chip and the counts beside it into a lent buffer; `written` gets the length of their image.
pub fn sapwoodle_save_worn(
    part: u8,
    state: &[u8],
    array: &[u8],
    id: &[u8],
    counts: &[u32],
    out: &mut [u8],
    written: &mut usize,
) -> u8
    ensures answer { result
        ≡ (saving_worn_bytes part state.now (mem array.now id.now) counts.now out.old).number }
    ensures bytes { out.new
        ≡ (saving_worn_bytes part state.now (mem array.now id.now) counts.now out.old).out }
    ensures written { written.new
        ≡ (saving_worn_bytes part state.now (mem array.now id.now) counts.now out.old).written }
{
    let chip = pack_chip::unpack(state);
    let s = image_worn::save_worn(part, chip, array, id, counts, out);
    *written = s.length;
    parts::verdict_number(s.verdict)
}

// Which refusal a call with counts is given whose state buffer has another length.
#[tactic(auto, unfolding(crate::specs::Worns::unheld_worn_of))]
fn unheld(part: u8, enable: u8, array: &[u8], id: &[u8], n: usize) -> Verdict
    ensures { result ≡ unheld_worn_of part enable (mem array.now id.now) n }
{
    parts::sooner(
        wear::counts_verdict(part, n),
        answers::unheld(part, enable, array, id),
    )
}

// The worst that a load found; where it is refused, the one that was held.
#[tactic(auto, unfolding(crate::specs::Worns::found_or))]
fn found_or(found: Most, held: Most, verdict: Verdict) -> Most
    ensures { result ≡ found_or found held verdict }
{
    match verdict {
        Ok(()) => found,
        Err(_) => held,
    }
}

// A chip, its counts and the worst of them from an image of either version and an enable for it; `part` gets its part byte.
pub fn sapwoodle_load_worn(
    image: &[u8],
    enable: u8,
    state: &mut [u8],
    array: &mut [u8],
    id: &mut [u8],
    counts: &mut [u32],
    part: &mut u8,
    group: &mut usize,
    count: &mut u32,
) -> u8
    ensures answer { result
        ≡ (loading_worn_bytes image.now enable state.old (mem array.old id.old) counts.old
        (most group.old count.old)).load.number }
    ensures state { state.new
        ≡ (loading_worn_bytes image.now enable state.old (mem array.old id.old) counts.old
        (most group.old count.old)).load.state }
    ensures cells { array.new
        ≡ (loading_worn_bytes image.now enable state.old (mem array.old id.old) counts.old
        (most group.old count.old)).load.stored.cells }
    ensures ident { id.new
        ≡ (loading_worn_bytes image.now enable state.old (mem array.old id.old) counts.old
        (most group.old count.old)).load.stored.ident }
    ensures counts { counts.new
        ≡ (loading_worn_bytes image.now enable state.old (mem array.old id.old) counts.old
        (most group.old count.old)).counts }
    ensures part { part.new
        ≡ (loading_worn_bytes image.now enable state.old (mem array.old id.old) counts.old
        (most group.old count.old)).load.part }
    ensures group { group.new
        ≡ (loading_worn_bytes image.now enable state.old (mem array.old id.old) counts.old
        (most group.old count.old)).worst.group }
    ensures count { count.new
        ≡ (loading_worn_bytes image.now enable state.old (mem array.old id.old) counts.old
        (most group.old count.old)).worst.count }
{
    let own = image::part_in(image);
    *part = own;
    if !images::looks(state.len(), image.len()) {
        return parts::verdict_number(unheld(own, enable, array, id, counts.len()));
    }
    let l = image_worn::load_worn(image, enable, array, id, counts);
    let loaded = l.loaded;
    let held = Most {
        group: *group,
        count: *count,
    };
    let worst = found_or(l.worst, held, loaded.verdict);
    *group = worst.group;
    *count = worst.count;
    answers::settle(loaded.verdict, loaded.chip, state)
}

// An image of version 1 as one of version 2, into a lent buffer; `written` gets its length.
pub fn sapwoodle_to_worn(image: &[u8], out: &mut [u8], written: &mut usize) -> u8
    ensures answer { result ≡ (to_worn_bytes image.now out.old).number }
    ensures bytes { out.new ≡ (to_worn_bytes image.now out.old).out }
    ensures written { written.new ≡ (to_worn_bytes image.now out.old).written }
{
    let w = image_worn::to_worn(image, out);
    *written = w.length;
    parts::verdict_number(w.verdict)
}

// And back, where no count is lost by it.
pub fn sapwoodle_to_plain(image: &[u8], out: &mut [u8], written: &mut usize) -> u8
    ensures answer { result ≡ (to_plain_bytes image.now out.old).number }
    ensures bytes { out.new ≡ (to_plain_bytes image.now out.old).out }
    ensures written { written.new ≡ (to_plain_bytes image.now out.old).written }
{
    let p = image_worn::to_plain(image, out);
    *written = p.length;
    parts::verdict_number(p.verdict)
}
