// Plain lines on standard output that other tools can read, for more than one command. Each function is told whether the lines before it
// were written, and says so of its own: what standard output does not take is said once, and nothing follows.
use crate::status;
use host::Host;
use parts::Refusal;

// Whether a write was taken: said where it was not.
pub fn written(host: &Host, done: bool) -> bool {
    if !done {
        crate::unsaid(host);
    }
    done
}

pub fn say(host: &Host, ok: bool, text: &[u8]) -> bool {
    if !ok {
        return false;
    }
    written(host, host.say(text))
}

pub fn number(host: &Host, ok: bool, n: usize) -> bool {
    let mut text = [0u8; 20];
    let k = io::decimal(n as u64, &mut text);
    say(host, ok, &text[..k])
}

pub fn count(host: &Host, ok: bool, name: &[u8], n: usize) -> bool {
    let named = say(host, ok, name);
    let told = number(host, named, n);
    say(host, told, b"\n")
}

pub fn bytes(host: &Host, ok: bool, n: usize, all: usize) -> bool {
    let named = say(host, ok, b"bytes ");
    let told = number(host, named, n);
    count(host, told, b" of ", all)
}

// The first line of a refusal, and the reasons that two commands give.
pub fn refused(host: &Host, r: Refusal) -> bool {
    let n = parts::number(r);
    status::refused(host);
    count(host, true, b"refused ", text::wide(n))
}

pub fn no_part(host: &Host, ok: bool) -> bool {
    say(host, ok, b"there is no such part\n")
}

pub fn no_image(host: &Host, ok: bool) -> bool {
    say(host, ok, b"the file is no image of its part\n")
}

pub fn wrong_enable(host: &Host, ok: bool) -> bool {
    say(host, ok, b"this part is never at this enable\n")
}

pub fn no_pin(host: &Host, ok: bool) -> bool {
    say(host, ok, b"this part has no Write Control pin\n")
}

// ---- events

fn letter(code: u8) -> u8 {
    match code {
        0 => b'0',
        1 => b'1',
        2 => b'S',
        3 => b'P',
        4 => b'E',
        _ => b'R',
    }
}

fn mark(level: u8) -> u8 {
    match level {
        0 => b'0',
        1 => b'1',
        _ => b'-',
    }
}

fn sign(levels: bool, x: u8) -> u8 {
    if levels {
        return mark(x);
    }
    letter(x)
}

// Codes become letters, or levels their marks.
fn spell(levels: bool, tape: &mut [u8]) {
    for x in tape.iter_mut() {
        *x = sign(levels, *x);
    }
}

// Codes as letters, or levels as marks, with no line end; they are spelled where they stand.
pub fn letters(host: &Host, ok: bool, levels: bool, codes: &mut [u8]) -> bool {
    spell(levels, codes);
    say(host, ok, codes)
}

// As much of a tape of `sent` events as was kept, as one line.
pub fn tape(host: &Host, ok: bool, levels: bool, sent: usize, kept: &mut [u8]) -> bool {
    let n = sent.min(kept.len());
    let told = letters(host, ok, levels, &mut kept[..n]);
    say(host, told, b"\n")
}

// ---- bytes and addresses

// `5Ah`
pub fn byte(host: &Host, ok: bool, b: u8) -> bool {
    let [high, low] = text::hex(b);
    say(host, ok, &[high, low, b'h'])
}

// `001Fh`
pub fn address(host: &Host, ok: bool, a: usize) -> bool {
    let [first, second, third, fourth] = text::word(a);
    say(host, ok, &[first, second, third, fourth, b'h'])
}

// `0024h..0027h`, or `0024h` where it is one byte: the places from one on to before another.
pub fn span(host: &Host, ok: bool, from: usize, end: usize) -> bool {
    let low = address(host, ok, from);
    let last = end.saturating_sub(1);
    if last <= from {
        return low;
    }
    let to = say(host, low, b"..");
    address(host, to, last)
}

// How far two memories are looked through: whether all was written, whether a span was told, and where one begins that is not told yet.
#[derive(Clone, Copy)]
struct Seen {
    ok: bool,
    any: bool,
    open: Option<usize>,
}

// The span that is open, if any, ends before a place.
fn closed(host: &Host, l: Seen, end: usize) -> Seen {
    let Some(from) = l.open else {
        return l;
    };
    let next = if l.any { say(host, l.ok, b", ") } else { l.ok };
    Seen {
        ok: span(host, next, from, end),
        any: true,
        open: None,
    }
}

fn looked(host: &Host, l: Seen, i: usize, differs: bool) -> Seen {
    if !differs {
        return closed(host, l, i);
    }
    let open = Some(l.open.unwrap_or(i));
    Seen { open, ..l }
}

pub fn differs(before: &[u8], after: &[u8], i: usize) -> bool {
    parts::byte_at(before, i) != parts::byte_at(after, i)
}

fn look(host: &Host, ok: bool, before: &[u8], after: &[u8]) -> Seen {
    let mut l = Seen {
        ok,
        any: false,
        open: None,
    };
    for i in 0..after.len() {
        l = looked(host, l, i, differs(before, after, i));
    }
    closed(host, l, after.len())
}

// The places at which two memories differ, with no line end: `0000h..0003h, 001Ch..001Fh`, or `none`.
pub fn spans(host: &Host, ok: bool, before: &[u8], after: &[u8]) -> bool {
    let l = look(host, ok, before, after);
    if l.any {
        return l.ok;
    }
    say(host, l.ok, b"none")
}
