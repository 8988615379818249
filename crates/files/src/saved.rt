// A chip in a file: as an EPR image, as Intel HEX or as the raw bytes of its array.
use crate::lost;
use crate::store::store;
use host::Host;
use words::Job;
use words::form::Form;

// The first bytes, so many.
fn save_in(host: &Host, word: usize, length: usize, out: &[u8]) -> bool {
    match out.get(..length) {
        Some(bytes) => store(host, word, bytes),
        None => false,
    }
}

// Of version 1.
fn plain(host: &Host, word: usize, part: u8, held: &[u8], array: &[u8], id: &[u8]) -> bool {
    let mut out = [0u8; 32839];
    let saved = image::save(part, pack_chip::unpack(held), array, id, &mut out);
    save_in(host, word, saved.length, &out)
}

// Of version 2.
pub(crate) fn worn(
    host: &Host,
    word: usize,
    part: u8,
    held: &[u8],
    array: &[u8],
    id: &[u8],
    counts: &[u32],
) -> bool {
    let mut out = [0u8; 65607];
    let saved = image_worn::save_worn(part, pack_chip::unpack(held), array, id, counts, &mut out);
    save_in(host, word, saved.length, &out)
}

// The text of the largest array fits.
fn hex(host: &Host, word: usize, part: u8, array: &[u8]) -> bool {
    let mut out = [0u8; 90124];
    let written = hexfile::write(part, array, &mut out);
    save_in(host, word, written.length, &out)
}

// In the form of the job, in the file that a word names, and without counts. What the array alone does not hold is told.
pub(crate) fn formed(
    host: &Host,
    job: Job,
    word: usize,
    held: &[u8],
    array: &[u8],
    id: &[u8],
) -> bool {
    if job.form == Form::Epr {
        return plain(host, word, job.part, held, array, id);
    }
    lost::tell(host, job.part, pack_chip::unpack(held), id, job.wear);
    if job.form == Form::Hex {
        return hex(host, word, job.part, array);
    }
    store(host, word, array)
}
