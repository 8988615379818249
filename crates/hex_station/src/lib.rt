// The command `hex`: Intel HEX files looked at, made into images of a chip, and made of one.
#![tactic(auto)]

use hexfile::HexRead;
use host::Host;
use parts::{Refusal, Verdict};
use words::{Job, answer};

// ---- from HEX

fn tell_read(host: &Host, job: Job, read: HexRead) -> bool {
    let told = answer::say(host, true, b"read\n");
    let counted = answer::count(host, told, b"records ", read.records);
    answer::bytes(host, counted, read.named, parts::facts_of(job.part).size)
}

// The file stands before anything is told. Of a refused one standard error has the reason.
fn answer_read(host: &Host, job: Job, read: HexRead, held: &[u8], array: &[u8], id: &[u8]) -> bool {
    match read.verdict {
        Ok(()) => files::save(host, job, held, array, id) && tell_read(host, job, read),
        Err(r) => answer::refused(host, r),
    }
}

fn fetch(host: &Host, job: Job, word: usize) -> bool {
    let mut array_room = [0u8; 32768];
    let mut id_room = [0u8; 64];
    let mut held = [0u8; pack_chip::LENGTH];
    let array = fitted::array(job.part, &mut array_room);
    let id = fitted::id(job.part, &mut id_room);
    match files::hex_fetched(host, word, job.part, &mut held, array, id) {
        Some(read) => answer_read(host, job, read, &held, array, id),
        None => false,
    }
}

// 1 is given before a file is looked at.
fn read_asked(host: &Host, asked: Option<Job>) -> bool {
    let Some(job) = asked else {
        return false;
    };
    if !parts::facts_of(job.part).known {
        return answer::no_part(host, answer::refused(host, Refusal::NoPart));
    }
    match job.image {
        Some(word) => fetch(host, job, word),
        None => false,
    }
}

// ---- to HEX

// The text of the largest array fits.
fn tell_text(host: &Host, part: u8, array: &[u8]) -> bool {
    let mut out = [0u8; 90124];
    let n = hexfile::write(part, array, &mut out).length;
    n <= out.len() && answer::say(host, true, &out[..n])
}

fn refuse(host: &Host, word: usize, bytes: &[u8]) -> bool {
    if files::is_hex(bytes) {
        files::tell::name(host, word);
        files::tell::say(host, b": got Intel HEX, wanted an EPR image\n");
    } else {
        files::shape::tell(host, word, bytes);
        files::tell::say(host, b"\n");
    }
    answer::no_image(host, answer::refused(host, Refusal::BadImage))
}

// An image has one part; every part has the enable 0.
fn text_of(host: &Host, word: usize, bytes: &[u8]) -> bool {
    let part = image::part_in(bytes);
    let mut array_room = [0u8; 32768];
    let mut id_room = [0u8; 64];
    let mut count_room = [0u32; 8192];
    let array = fitted::array(part, &mut array_room);
    let id = fitted::id(part, &mut id_room);
    let counts = fitted::counts(part, &mut count_room);
    let l = image_worn::load_worn(bytes, 0, array, id, counts);
    match l.loaded.verdict {
        Ok(()) => {
            files::lost::tell(host, l.loaded.part, l.loaded.chip, id, 0 < l.worst.count);
            tell_text(host, l.loaded.part, array)
        }
        Err(_) => refuse(host, word, bytes),
    }
}

fn text_asked(host: &Host, asked: Option<Job>) -> bool {
    let Some(word) = asked.and_then(|job| job.image) else {
        return false;
    };
    let mut room = files::room();
    match files::contents(host, word, &mut room) {
        Some(bytes) => text_of(host, word, bytes),
        None => false,
    }
}

// ---- the command: `next` is the first word behind `hex`, and the words end before `end`

fn choose(host: &Host, next: usize, end: usize) -> bool {
    let behind = words::after(next);
    if words::is(host, next, b"check") {
        return read_asked(host, words::hex_asked(host, false, behind, end));
    }
    if words::is(host, next, b"image") {
        return read_asked(host, words::hex_asked(host, true, behind, end));
    }
    if words::is(host, next, b"text") {
        return text_asked(host, words::text_asked(host, behind, end));
    }
    words::complain_hex(host, next, end);
    false
}

// False where nothing, or not all, could be answered: standard error has the reason.
pub fn hex_command(host: &Host, next: usize, end: usize) -> bool {
    if next < end {
        return choose(host, next, end);
    }
    words::complain_hex(host, next, end);
    false
}
