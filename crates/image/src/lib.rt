// The stored image of a chip: saved into a lent buffer, loaded from one. Nobody has to check first.
#![tactic(auto)]

ghost use Rattle.std.specs.Prelude.{◌≡◌, ◌+◌, ◌≤◌, length, drop, ◌++◌};
ghost use Rattle.parts.specs.Table.{facts_of};
ghost use Rattle.chip.specs.Memory.{mem};
ghost use Rattle.image.specs.Layout.{image_head_of, image_of, image_length_of, part_in, lock_in, stored_in, mark_right_of, lock_byte_right_of, formed_as};
ghost use Rattle.image.specs.Calls.{save_verdict_of, judged_of, load_verdict_of, saving, loading};

use parts::{Refusal, Verdict};
use state::Chip;

const VERSION: u8 = 1;

// No Result: the clause `answer` of `save` says what a refused call hands back.
#[derive(Clone, Copy)]
pub struct Saved {
    pub verdict: Verdict,
    // Bytes of the image; 0 where the call is refused.
    pub length: usize,
}

// No Result: the clause `answer` of `load` gives a refused call the image's part and a chip in standby.
#[derive(Clone, Copy)]
pub struct Loaded {
    pub verdict: Verdict,
    pub part: u8,
    pub chip: Chip,
}

// ---- shared by both

// The bytes of a part's image; of a number that is no part what its row gives (S-3).
pub fn image_length(part: u8) -> usize
    ensures { result ≡ image_length_of (facts_of part) }
{
    let f = parts::facts_of(part);
    let own = parts::id_size(f);
    7 + f.size + own
}

// ---- saving

fn head(part: u8, lock: bool) -> [u8; 7]
    ensures { result ≡ image_head_of part lock }
{
    [b'E', b'P', b'R', 0, VERSION, part, parts::flag(lock)]
}

pub fn save_verdict(part: u8, chip: Chip, n: usize, d: usize, room: usize) -> Verdict
    ensures { result ≡ save_verdict_of part chip n d room }
{
    let f = parts::facts_of(part);
    let lent = parts::lent_verdict(f, n, d);
    let ranged = state::in_range(part, chip);
    let need = image_length(part);
    let state = parts::claim(!ranged, Refusal::BadState);
    let short = parts::claim(room < need, Refusal::ShortBuffer);
    parts::sooner(lent, parts::sooner(state, short))
}

fn write(part: u8, lock: bool, array: &[u8], id: &[u8], out: &mut [u8])
    requires { 7 + length array.now + length id.now ≤ length out.old }
    ensures { out.new
        ≡ image_of part lock (mem array.now id.now) ++ drop (7 + length array.now + length id.now)
        out.old }
{
    let first = head(part, lock);
    let n = array.len();
    parts::copy(out, 0, &first);
    parts::copy(out, 7, array);
    parts::copy(out, 7 + n, id);
}

// The chip as it stands: what is latched or under way is not saved.
pub fn save(part: u8, chip: Chip, array: &[u8], id: &[u8], out: &mut [u8]) -> Saved
    ensures answer { result ≡ (saving part chip (mem array.now id.now) out.old).answer }
    ensures bytes { out.new ≡ (saving part chip (mem array.now id.now) out.old).out }
{
    let lock = chip.line.core.locked;
    match save_verdict(part, chip, array.len(), id.len(), out.len()) {
        Ok(()) => {
            write(part, lock, array, id, out);
            Saved {
                verdict: Ok(()),
                length: image_length(part),
            }
        }
        Err(r) => Saved {
            verdict: Err(r),
            length: 0,
        },
    }
}

// ---- loading

// The part byte; 0 where the image is too short to hold one.
pub fn part_in(image: &[u8]) -> u8
    ensures { result ≡ part_in image.now }
{
    parts::byte_at(image, 5)
}

pub fn lock_in(image: &[u8]) -> bool
    ensures { result ≡ lock_in image.now }
{
    parts::byte_at(image, 6) == 1
}

// The mark `EPR` and the version, whose high byte is 0.
#[tactic(auto, unfolding(crate::specs::Layout::mark_right_of))]
fn mark_right(version: u8, image: &[u8]) -> bool
    ensures { result ≡ mark_right_of version image.now }
{
    parts::byte_at(image, 0) == b'E'
        && parts::byte_at(image, 1) == b'P'
        && parts::byte_at(image, 2) == b'R'
        && parts::byte_at(image, 3) == 0
        && parts::byte_at(image, 4) == version
}

#[tactic(auto, unfolding(crate::specs::Layout::lock_byte_right_of))]
fn lock_byte_right(part: u8, byte: u8) -> bool
    ensures { result ≡ lock_byte_right_of (facts_of part) byte }
{
    match byte {
        0 => true,
        1 => parts::facts_of(part).ident,
        _ => false,
    }
}

// Whether the image is one of a version, whose images of the part have `need` bytes.
#[tactic(auto, unfolding(crate::specs::Layout::formed_as))]
pub fn formed(version: u8, need: usize, part: u8, image: &[u8]) -> bool
    ensures { result ≡ formed_as version need (facts_of part) image.now }
{
    image.len() == need
        && mark_right(version, image)
        && lock_byte_right(part, parts::byte_at(image, 6))
}

// Which refusal an image is given that holds its part byte.
fn judged(image: &[u8], enable: u8, n: usize, d: usize) -> Verdict
    ensures { result ≡ judged_of image.now enable n d }
{
    let part = part_in(image);
    let f = parts::facts_of(part);
    let lent = parts::lent_verdict(f, n, d);
    let enabled = parts::enable_right(f, enable);
    let right = formed(VERSION, image_length(part), part, image);
    let enable = parts::claim(!enabled, Refusal::WrongEnable);
    let form = parts::claim(!right, Refusal::BadImage);
    parts::sooner(lent, parts::sooner(enable, form))
}

fn load_verdict(image: &[u8], enable: u8, n: usize, d: usize) -> Verdict
    ensures { result ≡ load_verdict_of image.now enable n d }
{
    if image.len() < 6 {
        return Err(Refusal::BadImage);
    }
    judged(image, enable, n, d)
}

fn fill(part: u8, image: &[u8], array: &mut [u8], id: &mut [u8])
    requires { (length array.old ≡ (facts_of part).size) × (length image.now ≡ 7 + length array.old + length id.old) }
    ensures cells { array.new ≡ (stored_in (facts_of part) image.now).cells }
    ensures ident { id.new ≡ (stored_in (facts_of part) image.now).ident }
{
    let n = array.len();
    let end = 7 + n;
    parts::copy(array, 0, &image[7..end]);
    parts::copy(id, 0, &image[end..]);
}

// A chip in standby as after reset, from the image and an enable for it.
pub fn load(image: &[u8], enable: u8, array: &mut [u8], id: &mut [u8]) -> Loaded
    ensures answer { result ≡ (loading image.now enable (mem array.old id.old)).answer }
    ensures cells { array.new ≡ (loading image.now enable (mem array.old id.old)).stored.cells }
    ensures ident { id.new ≡ (loading image.now enable (mem array.old id.old)).stored.ident }
{
    let part = part_in(image);
    match load_verdict(image, enable, array.len(), id.len()) {
        Ok(()) => {
            let lock = lock_in(image);
            fill(part, image, array, id);
            Loaded {
                verdict: Ok(()),
                part,
                chip: chip::standby(part, lock),
            }
        }
        Err(r) => Loaded {
            verdict: Err(r),
            part,
            chip: chip::standby(part, false),
        },
    }
}
