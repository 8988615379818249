// The stored image of a chip with the counts of its wear, version 0002h: saved into a lent buffer, loaded from one, made of an image without
// them and made into one. Nobody has to check first.
#![tactic(auto)]

ghost use Rattle.std.specs.Prelude.{◌≡◌, true, ◌++◌, ◌+◌, ◌*◌, ◌<◌, ◌≤◌, length, drop, Ok, Err};
ghost use Rattle.parts.specs.Bytes.{all_below_of, words_of};
ghost use Rattle.parts.specs.Table.{facts_of, groups_of};
ghost use Rattle.chip.specs.Memory.{mem};
ghost use Rattle.image.specs.Layout.{image_length_of, stored_in};
ghost use Rattle.image_worn.specs.Layout.{worn_length_of, version_in, plain_in, words_in, counts_in, as_version, worn_from, plain_from};
ghost use Rattle.image_worn.specs.Calls.{save_worn_verdict_of, either_formed_of, judged_worn_of, load_worn_verdict_of, to_worn_verdict_of, to_plain_verdict_of, saving_worn, loading_kept, to_worn_of, to_plain_of};

use image::{Loaded, Saved};
use parts::{Refusal, Verdict};
use state::Chip;
use wear::Most;

// What loading answers, and the worst of the counts that were loaded; group 0 with 0 where the call is refused.
#[derive(Clone, Copy)]
pub struct LoadedWorn {
    pub loaded: Loaded,
    pub worst: Most,
}

const PLAIN: u8 = 1;

const WORN: u8 = 2;

// Where the version's number stands, behind its high byte, 0.
const VERSION: usize = 4;

fn group_count(part: u8) -> usize
    ensures value { result ≡ groups_of (facts_of part) }
    ensures range { result ≤ 32768 }
{
    let f = parts::facts_of(part);
    f.size / f.group
}

// The bytes of a part's image with counts; of a number that is no part what its row gives (S-3).
pub fn worn_length(part: u8) -> usize
    ensures { result ≡ worn_length_of (facts_of part) }
{
    let n = image::image_length(part);
    let k = group_count(part);
    n + 4 * k
}

fn refused(r: Refusal) -> Saved
    ensures { result ≡ record { verdict = Err r; length = 0 } }
{
    Saved {
        verdict: Err(r),
        length: 0,
    }
}

// ---- saving

fn save_verdict(part: u8, chip: Chip, n: usize, d: usize, k: usize, room: usize) -> Verdict
    ensures { result ≡ save_worn_verdict_of part chip n d k room }
{
    let counted = wear::counts_verdict(part, k);
    let judged = image::save_verdict(part, chip, n, d, room);
    let need = worn_length(part);
    let short = parts::claim(room < need, Refusal::ShortBuffer);
    parts::sooner(counted, parts::sooner(judged, short))
}

// Each count, high byte first.
fn put_counts(counts: &[u32], out: &mut [u8])
    requires { length out.old ≡ 4 * length counts.now }
    ensures { out.new ≡ words_of counts.now }
{
    for (i, count) in counts.iter().enumerate() {
        let to = 4 * i;
        let w = parts::word(*count as usize);
        out[to..to + 4].copy_from_slice(&w);
    }
}

// The version's number and the counts, over an image of version 1.
fn put_worn(part: u8, counts: &[u32], out: &mut [u8])
    requires { (length counts.now ≡ groups_of (facts_of part)) × (worn_length_of (facts_of part) ≤ length out.old) }
    ensures { out.new
        ≡ (as_version 2 (plain_in (facts_of part) out.old) ++ words_of counts.now) ++ drop (worn_length_of (facts_of part)) out.old }
{
    let n = image::image_length(part);
    let end = worn_length(part);
    out[VERSION] = WORN;
    put_counts(counts, &mut out[n..end]);
}

// The chip as it stands, and the counts beside it: what is latched or under way is in neither.
pub fn save_worn(
    part: u8,
    chip: Chip,
    array: &[u8],
    id: &[u8],
    counts: &[u32],
    out: &mut [u8],
) -> Saved
    ensures answer { result
        ≡ (saving_worn part chip (mem array.now id.now) counts.now out.old).answer }
    ensures bytes { out.new
        ≡ (saving_worn part chip (mem array.now id.now) counts.now out.old).out }
{
    match save_verdict(part, chip, array.len(), id.len(), counts.len(), out.len()) {
        Ok(()) => {
            image::save(part, chip, array, id, out);
            put_worn(part, counts, out);
            Saved {
                verdict: Ok(()),
                length: worn_length(part),
            }
        }
        Err(r) => refused(r),
    }
}

// ---- loading

#[tactic(auto, unfolding(crate::specs::Calls::either_formed_of))]
fn either_formed(part: u8, image: &[u8]) -> bool
    ensures { result ≡ either_formed_of part image.now }
{
    image::formed(PLAIN, image::image_length(part), part, image)
        || image::formed(WORN, worn_length(part), part, image)
}

// Which refusal an image is given that holds its part byte.
fn judged(image: &[u8], enable: u8, n: usize, d: usize, k: usize) -> Verdict
    ensures { result ≡ judged_worn_of image.now enable n d k }
{
    let part = image::part_in(image);
    let f = parts::facts_of(part);
    let counted = wear::counts_verdict(part, k);
    let lent = parts::lent_verdict(f, n, d);
    let enabled = parts::enable_right(f, enable);
    let right = either_formed(part, image);
    let enable = parts::claim(!enabled, Refusal::WrongEnable);
    let form = parts::claim(!right, Refusal::BadImage);
    parts::sooner(counted, parts::sooner(lent, parts::sooner(enable, form)))
}

fn load_verdict(image: &[u8], enable: u8, n: usize, d: usize, k: usize) -> Verdict
    ensures { result ≡ load_worn_verdict_of image.now enable n d k }
{
    if image.len() < 6 {
        return Err(Refusal::BadImage);
    }
    judged(image, enable, n, d, k)
}

fn fill(part: u8, image: &[u8], array: &mut [u8], id: &mut [u8])
    requires { (length array.old ≡ (facts_of part).size) × (image_length_of (facts_of part) ≡ 7 + length array.old + length id.old)
        × (image_length_of (facts_of part) ≤ length image.now) }
    ensures cells { array.new ≡ (stored_in (facts_of part) (plain_in (facts_of part) image.now)).cells }
    ensures ident { id.new ≡ (stored_in (facts_of part) (plain_in (facts_of part) image.now)).ident }
{
    let end = 7 + array.len();
    let last = end + id.len();
    parts::copy(array, 0, &image[7..end]);
    parts::copy(id, 0, &image[end..last]);
}

fn take_counts(bytes: &[u8], counts: &mut [u32])
    requires { length bytes.now ≡ 4 * length counts.old }
    ensures { counts.new ≡ words_in (length counts.old) bytes.now }
{
    for (i, count) in counts.iter_mut().enumerate() {
        let from = 4 * i;
        *count = parts::joined(
            bytes[from],
            bytes[from + 1],
            bytes[from + 2],
            bytes[from + 3],
        ) as u32;
    }
}

// Of an image without counts each is 0.
fn load_counts(part: u8, image: &[u8], counts: &mut [u32])
    requires { (length counts.old ≡ groups_of (facts_of part)) × (version_in image.now ≡ 2 → length image.now ≡ worn_length_of (facts_of part)) }
    ensures { counts.new ≡ counts_in (facts_of part) image.now }
{
    let n = image::image_length(part);
    if parts::byte_at(image, VERSION) == WORN {
        take_counts(&image[n..], counts);
    } else {
        counts.fill(0);
    }
}

// A chip in standby as after reset, its counts and the worst of them, from an image of either version and an enable for it.
pub fn load_worn(
    image: &[u8],
    enable: u8,
    array: &mut [u8],
    id: &mut [u8],
    counts: &mut [u32],
) -> LoadedWorn
    ensures answer { result.loaded
        ≡ (loading_kept image.now enable (mem array.old id.old) counts.old).load.answer }
    ensures cells { array.new
        ≡ (loading_kept image.now enable (mem array.old id.old) counts.old).load.stored.cells }
    ensures ident { id.new
        ≡ (loading_kept image.now enable (mem array.old id.old) counts.old).load.stored.ident }
    ensures counts { counts.new
        ≡ (loading_kept image.now enable (mem array.old id.old) counts.old).load.counts }
    ensures worst { result.worst
        ≡ (loading_kept image.now enable (mem array.old id.old) counts.old).worst }
{
    let part = image::part_in(image);
    match load_verdict(image, enable, array.len(), id.len(), counts.len()) {
        Ok(()) => {
            let lock = image::lock_in(image);
            fill(part, image, array, id);
            load_counts(part, image, counts);
            let loaded = Loaded {
                verdict: Ok(()),
                part,
                chip: chip::standby(part, lock),
            };
            LoadedWorn {
                loaded,
                worst: wear::worst::most_of(counts),
            }
        }
        Err(r) => {
            let loaded = Loaded {
                verdict: Err(r),
                part,
                chip: chip::standby(part, false),
            };
            LoadedWorn {
                loaded,
                worst: Most { group: 0, count: 0 },
            }
        }
    }
}

// ---- from version 1 to version 2

fn to_worn_verdict(image: &[u8], room: usize) -> Verdict
    ensures { result ≡ to_worn_verdict_of image.now room }
{
    if image.len() < 6 {
        return Err(Refusal::BadImage);
    }
    let part = image::part_in(image);
    let f = parts::facts_of(part);
    let right = image::formed(PLAIN, image::image_length(part), part, image);
    let unknown = parts::claim(!f.known, Refusal::NoPart);
    let short = parts::claim(room < worn_length(part), Refusal::ShortBuffer);
    let form = parts::claim(!right, Refusal::BadImage);
    parts::sooner(unknown, parts::sooner(short, form))
}

fn write_worn(part: u8, image: &[u8], out: &mut [u8])
    requires { (length image.now ≡ image_length_of (facts_of part)) × (worn_length_of (facts_of part) ≤ length out.old) }
    ensures { out.new ≡ worn_from (facts_of part) image.now ++ drop (worn_length_of (facts_of part)) out.old }
{
    let n = image.len();
    let end = worn_length(part);
    parts::copy(out, 0, image);
    out[VERSION] = WORN;
    out[n..end].fill(0);
}

// An image of version 1 as one of version 2, with all counts zero.
pub fn to_worn(image: &[u8], out: &mut [u8]) -> Saved
    ensures answer { result ≡ (to_worn_of image.now out.old).answer }
    ensures bytes { out.new ≡ (to_worn_of image.now out.old).out }
{
    let part = image::part_in(image);
    match to_worn_verdict(image, out.len()) {
        Ok(()) => {
            write_worn(part, image, out);
            Saved {
                verdict: Ok(()),
                length: worn_length(part),
            }
        }
        Err(r) => refused(r),
    }
}

// ---- back

// Whether each byte behind the identification page is 0: so is each count then.
fn unworn(part: u8, image: &[u8]) -> bool
    ensures { result ≡ all_below_of 1 true (drop (image_length_of (facts_of part)) image.now) }
{
    let n = image::image_length(part);
    image.len() < n || parts::all_below(1, &image[n..])
}

fn to_plain_verdict(image: &[u8], room: usize) -> Verdict
    ensures { result ≡ to_plain_verdict_of image.now room }
{
    if image.len() < 6 {
        return Err(Refusal::BadImage);
    }
    let part = image::part_in(image);
    let f = parts::facts_of(part);
    let right = image::formed(WORN, worn_length(part), part, image);
    let fresh = unworn(part, image);
    let unknown = parts::claim(!f.known, Refusal::NoPart);
    let short = parts::claim(room < image::image_length(part), Refusal::ShortBuffer);
    let form = parts::claim(!right, Refusal::BadImage);
    let lost = parts::claim(!fresh, Refusal::CountsLost);
    parts::sooner(unknown, parts::sooner(short, parts::sooner(form, lost)))
}

fn write_plain(part: u8, image: &[u8], out: &mut [u8])
    requires { (image_length_of (facts_of part) ≤ length image.now) × (image_length_of (facts_of part) ≤ length out.old) }
    ensures { out.new ≡ plain_from (facts_of part) image.now ++ drop (image_length_of (facts_of part)) out.old }
{
    let n = image::image_length(part);
    parts::copy(out, 0, &image[..n]);
    out[VERSION] = PLAIN;
}

// An image of version 2 as one of version 1: only if no count is lost by it.
pub fn to_plain(image: &[u8], out: &mut [u8]) -> Saved
    ensures answer { result ≡ (to_plain_of image.now out.old).answer }
    ensures bytes { out.new ≡ (to_plain_of image.now out.old).out }
{
    let part = image::part_in(image);
    match to_plain_verdict(image, out.len()) {
        Ok(()) => {
            write_plain(part, image, out);
            Saved {
                verdict: Ok(()),
                length: image::image_length(part),
            }
        }
        Err(r) => refused(r),
    }
}
