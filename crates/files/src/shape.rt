// Why a file is no image: what stands there and what was wanted, on standard error. A file of counts has a mark, a version and a part too.
use crate::tell::{byte, name, number, say};
use host::Host;

// Room for one byte more than the largest image has, so that a longer file is seen to be too long.
pub const ROOM: usize = 65608;

// And one more than the most bytes that a file of any form has.
const WHOLE: usize = 1048577;

// The mark, the version and the part.
const HEAD: usize = 6;

const LOCK: usize = 6;

// ---- what both kinds of files have

// `mark 45h 50h 52h`: the bytes may be none that can be shown.
pub fn mark(host: &Host, bytes: &[u8]) {
    say(host, b"mark ");
    byte(host, parts::byte_at(bytes, 0));
    say(host, b" ");
    byte(host, parts::byte_at(bytes, 1));
    say(host, b" ");
    byte(host, parts::byte_at(bytes, 2));
}

pub fn marked(bytes: &[u8], last: u8) -> bool {
    bytes.starts_with(&[b'E', b'P', last])
}

// `version 0003h`
pub fn version(host: &Host, bytes: &[u8]) {
    say(host, b"version ");
    say(host, &text::hex(parts::byte_at(bytes, 3)));
    byte(host, parts::byte_at(bytes, 4));
}

pub fn versioned(bytes: &[u8], least: u8, most: u8) -> bool {
    let low = parts::byte_at(bytes, 4);
    parts::byte_at(bytes, 3) == 0 && least <= low && low <= most
}

pub fn no_part(host: &Host, part: u8) {
    say(host, b"part ");
    number(host, text::wide(part));
    say(host, b", wanted 0 to 5");
}

// Of a file that is longer than any, not all was read: no more than there was room for.
pub fn found(host: &Host, n: usize, room: usize) {
    number(host, n);
    if n == 1 {
        return say(host, b" byte");
    }
    say(host, b" bytes");
    if n == room || n == WHOLE {
        say(host, b" or more");
    }
}

// ---- images

// The bytes of an image of a version.
pub fn length_of(version: u8, part: u8) -> usize {
    if version == 1 {
        return image::image_length(part);
    }
    image_worn::worn_length(part)
}

fn length(host: &Host, n: usize, wanted: usize) {
    say(host, b"got ");
    found(host, n, ROOM);
    say(host, b", wanted ");
    number(host, wanted);
}

// A part without an identification page has no lock.
fn lock(host: &Host, flag: u8, ident: bool) {
    say(host, b"found lock byte ");
    byte(host, flag);
    say(host, b", wanted 00h");
    if ident {
        say(host, b" or 01h");
    }
}

fn behind_version(host: &Host, part: u8, ident: bool, bytes: &[u8]) {
    let wanted = length_of(parts::byte_at(bytes, 4), part);
    if bytes.len() != wanted {
        return length(host, bytes.len(), wanted);
    }
    lock(host, parts::byte_at(bytes, LOCK), ident);
}

fn no_mark(host: &Host, bytes: &[u8]) {
    say(host, b"found ");
    mark(host, bytes);
    say(host, b", wanted 45h 50h 52h, EPR");
}

// Refusal 1 is given before 12; a file that is no image at all is to be seen as one.
fn unknown(host: &Host, part: u8, bytes: &[u8]) {
    say(host, b"found ");
    no_part(host, part);
    if !marked(bytes, b'R') {
        say(host, b"; ");
        no_mark(host, bytes);
    }
}

fn malformed(host: &Host, part: u8, ident: bool, bytes: &[u8]) {
    if !marked(bytes, b'R') {
        return no_mark(host, bytes);
    }
    if !versioned(bytes, 1, 2) {
        say(host, b"found ");
        version(host, bytes);
        return say(host, b", wanted 0001h or 0002h");
    }
    behind_version(host, part, ident, bytes);
}

// Of few bytes neither version nor part is known.
fn reason(host: &Host, bytes: &[u8]) {
    let part = image::part_in(bytes);
    let f = parts::facts_of(part);
    if bytes.len() < HEAD {
        length(host, bytes.len(), image::image_length(0));
        return say(host, b" or more");
    }
    if !f.known {
        return unknown(host, part, bytes);
    }
    malformed(host, part, f.ident, bytes);
}

// `FILE: `, and the first that is wrong of bytes that are no image; with no line end.
pub fn tell(host: &Host, word: usize, bytes: &[u8]) {
    name(host, word);
    say(host, b": ");
    reason(host, bytes);
}

// What else the bytes could have been, where they have no mark: the array of a part.
pub(crate) fn or_raw(host: &Host, part: u8, bytes: &[u8]) {
    let f = parts::facts_of(part);
    if !marked(bytes, b'R') {
        say(host, b"; or ");
        number(host, f.size);
        say(host, b" raw bytes, got ");
        found(host, bytes.len(), WHOLE);
    }
}

// `FILE: got 8191 bytes, wanted 8192`
pub(crate) fn tell_length(host: &Host, word: usize, n: usize, wanted: usize) {
    name(host, word);
    say(host, b": got ");
    found(host, n, WHOLE);
    say(host, b", wanted ");
    number(host, wanted);
    say(host, b"\n");
}
