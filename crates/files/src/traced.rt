// What is wrong with a trace, in a line on standard error. A file is named as it was typed, or as its list names it; `input`: it is standard
// input.
use crate::shape;
use crate::tell::{byte, number, say};
use host::Host;
use parts::{Refusal, Verdict};
use words::status;

// The first line: a part, a space, an enable, a newline.
const HEAD: usize = 4;

fn named(host: &Host, input: bool, name: &[u8]) {
    if input {
        return say(host, b"standard input");
    }
    say(host, name);
}

// `FILE: `
pub fn begin(host: &Host, input: bool, name: &[u8]) {
    named(host, input, name);
    say(host, b": ");
}

// A letter as it is, any other byte as its number.
fn shown(host: &Host, b: u8) {
    if b.is_ascii_graphic() {
        return say(host, &[b]);
    }
    byte(host, b);
}

fn headed(text: &[u8]) -> bool {
    match text {
        [part, b' ', enable, b'\n', ..] => part.is_ascii_digit() && enable.is_ascii_digit(),
        _ => false,
    }
}

fn four(host: &Host, text: &[u8]) {
    byte(host, parts::byte_at(text, 0));
    say(host, b" ");
    byte(host, parts::byte_at(text, 1));
    say(host, b" ");
    byte(host, parts::byte_at(text, 2));
    say(host, b" ");
    byte(host, parts::byte_at(text, 3));
}

fn no_part(host: &Host, text: &[u8]) {
    say(host, b"line 1: found ");
    if text.len() < HEAD {
        shape::found(host, text.len(), HEAD);
        return say(host, b", wanted a part, a space, an enable and a newline");
    }
    if headed(text) {
        say(host, b"part ");
        shown(host, parts::byte_at(text, 0));
        return say(host, b", wanted 0 to 5");
    }
    four(host, text);
    say(host, b", wanted a part, a space, an enable and a newline");
}

fn wrong_enable(host: &Host, text: &[u8]) {
    let f = parts::facts_of(text::value(parts::byte_at(text, 0)));
    say(host, b"line 1: found enable ");
    shown(host, parts::byte_at(text, 2));
    if f.enables == 1 {
        return say(host, b", wanted 0");
    }
    say(host, b", wanted 0 to 7");
}

fn of_pin(b: u8) -> bool {
    matches!(b, b'L' | b'H' | b'F')
}

fn bad_letter(host: &Host, text: &[u8], k: usize) {
    let b = parts::byte_at(text, k.wrapping_add(HEAD));
    say(host, b"letter ");
    number(host, k);
    say(host, b": found ");
    shown(host, b);
    if of_pin(b) {
        return say(
            host,
            b", wanted none of L H F: the part has no Write Control pin",
        );
    }
    say(host, b", wanted one of 0 1 S P E L H F R");
}

fn reason(host: &Host, text: &[u8], r: Refusal) {
    match r {
        Refusal::NoPart => no_part(host, text),
        Refusal::WrongEnable => wrong_enable(host, text),
        Refusal::BadEvent(_) => bad_letter(host, text, parts::verdict_place(Err(r))),
        Refusal::TooMany => say(host, b"got more than 32768 letters, wanted no more"),
        _ => say(host, b"not as it should be"),
    }
}

// The end of a line that says why.
pub fn end(host: &Host, r: Refusal) {
    say(host, b" (refused ");
    number(host, text::wide(parts::number(r)));
    say(host, b")\n");
    status::refused(host);
}

// A refused trace.
pub fn tell(host: &Host, input: bool, name: &[u8], text: &[u8], r: Refusal) {
    begin(host, input, name);
    reason(host, text, r);
    end(host, r);
}

// The letters' event codes, into a buffer of as many bytes.
pub fn recode(letters: &[u8], events: &mut [u8]) {
    for (event, letter) in events.iter_mut().zip(letters) {
        *event = trace::code_of(*letter);
    }
}
