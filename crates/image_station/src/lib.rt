// The command `image`: what a stored image holds, and an image of one version made into one of the other.
#![tactic(auto)]

pub mod show;

use files::shape;
use host::Host;
use image::Saved;
use image_worn::LoadedWorn;
use parts::{Refusal, Verdict};
use words::answer;
use words::answer::{number, say};
use words::imaging::Imaging;

// ---- what is no image

// Standard error has the reason.
fn refuse(host: &Host, word: usize, bytes: &[u8], r: Refusal) -> bool {
    shape::tell(host, word, bytes);
    files::tell::say(host, b"\n");
    let told = answer::refused(host, r);
    match r {
        Refusal::NoPart => answer::no_part(host, told),
        _ => answer::no_image(host, told),
    }
}

// ---- what an image holds

// What an image holds; its counts are put into those that are lent, of which there are as many as its part has groups. Every part has the
// enable 0.
fn load(bytes: &[u8], counts: &mut [u32]) -> LoadedWorn {
    let part = image::part_in(bytes);
    let mut array = [0u8; 32768];
    let mut id = [0u8; 64];
    image_worn::load_worn(
        bytes,
        0,
        fitted::array(part, &mut array),
        fitted::id(part, &mut id),
        counts,
    )
}

fn info_of(host: &Host, word: usize, bytes: &[u8]) -> bool {
    let mut room = [0u32; 8192];
    let counts = fitted::counts(image::part_in(bytes), &mut room);
    let l = load(bytes, counts);
    match l.loaded.verdict {
        Ok(()) => show::info(host, bytes, l.worst, counts),
        Err(r) => refuse(host, word, bytes, r),
    }
}

// ---- a version made into the other

// How many groups of an image are worn.
fn worn_in(bytes: &[u8]) -> usize {
    let mut room = [0u32; 8192];
    let counts = fitted::counts(image::part_in(bytes), &mut room);
    load(bytes, counts);
    show::worn(counts)
}

// `refused 21: `
fn refused(host: &Host, r: Refusal) -> bool {
    words::status::refused(host);
    let told = number(
        host,
        say(host, true, b"refused "),
        text::wide(parts::number(r)),
    );
    say(host, told, b": ")
}

fn lost(host: &Host, worn: usize) -> bool {
    let told = number(host, refused(host, Refusal::CountsLost), worn);
    if worn == 1 {
        return say(
            host,
            told,
            b" group has a count that version 1 cannot hold\n",
        );
    }
    say(
        host,
        told,
        b" groups have counts that version 1 cannot hold\n",
    )
}

fn name(host: &Host, ok: bool, word: usize) -> bool {
    if words::is_input(host, word) {
        return say(host, ok, b"standard input");
    }
    say(host, ok, host.word(word).bytes())
}

fn already(host: &Host, file: usize, version: u8) -> bool {
    let named = name(host, refused(host, Refusal::BadImage), file);
    let told = number(host, say(host, named, b" is version "), text::wide(version));
    say(host, told, b" already\n")
}

fn formed(version: u8, bytes: &[u8]) -> bool {
    let part = image::part_in(bytes);
    image::formed(version, shape::length_of(version, part), part, bytes)
}

fn unmade(host: &Host, file: usize, version: u8, bytes: &[u8], r: Refusal) -> bool {
    match r {
        Refusal::CountsLost => lost(host, worn_in(bytes)),
        Refusal::BadImage if formed(version, bytes) => already(host, file, version),
        _ => refuse(host, file, bytes, r),
    }
}

// The file stands before anything is told.
fn made(host: &Host, out: usize, version: u8, bytes: &[u8]) -> bool {
    if !files::store::store(host, out, bytes) {
        return false;
    }
    let told = number(host, say(host, true, b"version "), text::wide(version));
    say(
        host,
        number(host, say(host, told, b", "), bytes.len()),
        b" bytes\n",
    )
}

fn converted(version: u8, bytes: &[u8], out: &mut [u8]) -> Saved {
    if version == 1 {
        image_worn::to_plain(bytes, out)
    } else {
        image_worn::to_worn(bytes, out)
    }
}

// The largest image fits.
fn convert(host: &Host, file: usize, out: usize, version: u8, bytes: &[u8]) -> bool {
    let mut room = [0u8; shape::ROOM];
    let saved = converted(version, bytes, &mut room);
    let n = saved.length;
    match saved.verdict {
        Ok(()) => n <= room.len() && made(host, out, version, &room[..n]),
        Err(r) => unmade(host, file, version, bytes, r),
    }
}

// ---- the command: `next` is the first word behind `image`, and the words end before `end`

// False where nothing, or not all, could be answered: standard error has the reason.
pub fn image_command(host: &Host, next: usize, end: usize) -> bool {
    let Some(asked) = words::imaging::asked(host, next, end) else {
        return false;
    };
    let mut room = [0u8; shape::ROOM];
    let Some(bytes) = files::contents(host, asked.file(), &mut room) else {
        return false;
    };
    match asked {
        Imaging::Info { file } => info_of(host, file, bytes),
        Imaging::Convert { file, out, version } => convert(host, file, out, version, bytes),
    }
}
