// The image whose counts are gone on from, and in which they are saved.
use crate::source::Told;
use crate::work::Worn;
use files::{shape, traced};
use host::Host;
use parts::{Refusal, Verdict};

// ---- reading

fn refuse(host: &Host, word: usize, bytes: &[u8], r: Refusal) -> Told {
    shape::tell(host, word, bytes);
    traced::end(host, r);
    Told
}

// The work begins with the counts of an image and their worst, zeros of one that has none. Every part has the enable 0.
pub fn begun(host: &Host, word: usize, bytes: &[u8], counts: &mut [u32]) -> Result<Worn, Told> {
    let part = image::part_in(bytes);
    let mut array_room = [0u8; 32768];
    let mut id_room = [0u8; 64];
    let array = fitted::array(part, &mut array_room);
    let id = fitted::id(part, &mut id_room);
    let l = image_worn::load_worn(bytes, 0, array, id, fitted::counts(part, counts));
    match l.loaded.verdict {
        Ok(()) => Ok(Worn {
            part: Some(l.loaded.part),
            worst: l.worst,
            ..Worn::nothing_yet()
        }),
        Err(r) => Err(refuse(host, word, bytes, r)),
    }
}

// ---- writing

fn store(host: &Host, word: usize, bytes: &[u8], counts: &[u32]) -> bool {
    let part = image::part_in(bytes);
    let mut array_room = [0u8; 32768];
    let mut id_room = [0u8; 64];
    let mut before = [0u32; 8192];
    let mut out = [0u8; shape::ROOM];
    let array = fitted::array(part, &mut array_room);
    let id = fitted::id(part, &mut id_room);
    let l = image_worn::load_worn(bytes, 0, array, id, fitted::counts(part, &mut before));
    let saved = image_worn::save_worn(l.loaded.part, l.loaded.chip, array, id, counts, &mut out);
    let n = saved.length;
    n <= out.len() && files::store::store(host, word, &out[..n])
}

// Whether the image stands that a word names, or none is asked for: what an image holds that was loaded, with these counts.
pub fn save(host: &Host, word: Option<usize>, bytes: &[u8], counts: &[u32]) -> bool {
    match word {
        Some(word) => store(host, word, bytes, counts),
        None => true,
    }
}
