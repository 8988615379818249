// Why a HEX file was refused: one line for people on standard error, with the file and the number of the line, which is read again here.
use crate::tell::{name, number, say};
use host::Host;
use parts::{Refusal, Verdict};

// The lowest address that two records name, and the line of the earlier one.
#[derive(Clone, Copy)]
struct Lap {
    line: usize,
    at: usize,
}

#[derive(Clone, Copy)]
struct Span {
    from: usize,
    end: usize,
}

fn byte(host: &Host, x: u8) {
    say(host, &text::hex(x));
}

// `1FFFh`. A record goes no further than 100FEh: an address of 16 bits, and 255 bytes.
fn address(host: &Host, a: usize) {
    if 65535 < a {
        say(host, b"1");
    }
    let [a, b, c, d] = text::word(a);
    say(host, &[a, b, c, d, b'h']);
}

// ---- lines

// The line of this number, counted from 1, with its LF; none where the text ends before it.
fn line_at(text: &[u8], line: usize) -> Option<&[u8]> {
    text.split_inclusive(|b| *b == b'\n')
        .nth(line.saturating_sub(1))
}

// Without its end: a CR directly before its LF is no part of it.
fn bare(line: &[u8]) -> &[u8] {
    match line {
        [bare @ .., b'\r', b'\n'] | [bare @ .., b'\n'] => bare,
        _ => line,
    }
}

// ---- records

// How many bytes the digits behind the colon make.
fn bytes_in(line: &[u8]) -> usize {
    line.len().saturating_sub(1) / 2
}

fn joined(high: u8, low: u8) -> u8 {
    if high < 16 && low < 16 {
        high * 16 + low
    } else {
        0
    }
}

// The i-th byte of a record: first the count, the address in two, the type. 0 beyond its end. The limit is for the proof alone: a record
// has 260 bytes at most.
fn byte_in(line: &[u8], i: usize) -> u8 {
    if i < 65536 {
        let at = 2 * i + 1;
        let high = text::value(parts::byte_at(line, at));
        let low = text::value(parts::byte_at(line, at + 1));
        return joined(high, low);
    }
    0
}

fn count_in(line: &[u8]) -> usize {
    text::wide(byte_in(line, 0))
}

fn place_in(line: &[u8]) -> u16 {
    let high = byte_in(line, 1);
    let low = byte_in(line, 2);
    high as u16 * 256 + low as u16
}

// The address of its first byte, and the one behind its last.
fn span_in(line: &[u8]) -> Span {
    let from = place_in(line);
    let n = byte_in(line, 0);
    Span {
        from: from as usize,
        end: from as usize + n as usize,
    }
}

// ---- 16, no record

// `'x'`, or `0x0D` of a byte that cannot be shown.
fn shown(host: &Host, b: u8) {
    if matches!(b, b' '..=b'~') {
        return say(host, &[b'\'', b, b'\'']);
    }
    say(host, b"0x");
    byte(host, b);
}

// The first byte behind the colon that is no digit.
fn no_digit(line: &[u8]) -> Option<usize> {
    line.iter()
        .enumerate()
        .skip(1)
        .find(|(_, b)| 15 < text::value(**b))
        .map(|(i, _)| i)
}

fn stray(host: &Host, line: &[u8], i: usize, wanted: &[u8]) {
    say(host, b"found ");
    shown(host, parts::byte_at(line, i));
    say(host, b" in column ");
    if i < line.len() {
        number(host, i + 1);
    }
    say(host, b", wanted ");
    say(host, wanted);
}

fn typed(host: &Host, kind: u8) {
    if kind == 1 {
        return say(host, b"found another end record, wanted :00000001FF");
    }
    say(host, b"found type ");
    byte(host, kind);
    say(
        host,
        b", wanted 00 or 01: objcopy -I ihex -O ihex IN OUT, or srec_cat IN -intel -o OUT -intel -address-length=2 -obs=16, makes a file without it",
    );
}

// All are digits, two a byte.
fn miscounted(host: &Host, line: &[u8]) {
    let n = bytes_in(line);
    if n < 5 {
        say(host, b"found ");
        number(host, n);
        return say(host, b" bytes, wanted 5 or more");
    }
    if n - 5 == count_in(line) {
        return typed(host, byte_in(line, 3));
    }
    say(host, b"found ");
    number(host, n - 5);
    say(host, b" data bytes, wanted ");
    number(host, count_in(line));
    say(host, b" as the record says");
}

fn malformed(host: &Host, line: &[u8]) {
    if line.is_empty() {
        return say(host, b"the line is empty, wanted a record");
    }
    if line[0] != b':' {
        return stray(host, line, 0, b"':'");
    }
    if let Some(i) = no_digit(line) {
        return stray(host, line, i, b"a hexadecimal digit");
    }
    if line.len() % 2 == 0 {
        return say(host, b"found an odd number of digits, wanted two a byte");
    }
    miscounted(host, line);
}

// ---- 17, a wrong sum

// The sum of the first n bytes.
fn sum_of(line: &[u8], n: usize) -> u8 {
    (0..n).fold(0u8, |sum, i| sum.wrapping_add(byte_in(line, i)))
}

fn missummed(host: &Host, line: &[u8]) {
    let n = bytes_in(line);
    if 0 < n {
        say(host, b"found sum ");
        byte(host, byte_in(line, n - 1));
        say(host, b", wanted ");
        byte(host, sum_of(line, n - 1).wrapping_neg());
    }
}

// ---- 18, overlap, or beyond the array

// Where the record of a line meets another; a record of no bytes meets none.
fn meet(a: Span, line: usize, b: Span) -> Option<Lap> {
    if a.from < a.end && a.from < b.end && b.from < a.end {
        let at = a.from.max(b.from);
        return Some(Lap { line, at });
    }
    None
}

// Of the lines before one, which are good records.
fn first_lap(text: &[u8], line: usize, span: Span) -> Option<Lap> {
    text.split_inclusive(|b| *b == b'\n')
        .enumerate()
        .take(line.saturating_sub(1))
        .filter_map(|(i, record)| meet(span_in(bare(record)), i.saturating_add(1), span))
        .min_by_key(|lap| lap.at)
}

// A record of no bytes is beyond too, by its address.
fn beyond(host: &Host, span: Span, size: usize) {
    if span.from == span.end {
        say(host, b"found address ");
        address(host, span.from);
        say(host, b", wanted none beyond ");
        return address(host, size);
    }
    say(host, b"found bytes to ");
    address(host, span.end.saturating_sub(1));
    say(host, b", wanted none beyond ");
    address(host, size.saturating_sub(1));
}

fn misplaced(host: &Host, text: &[u8], line: usize, span: Span, part: u8) {
    let f = parts::facts_of(part);
    if f.size < span.end {
        return beyond(host, span, f.size);
    }
    let nowhere = Lap { line: 0, at: 0 };
    let found = first_lap(text, line, span).unwrap_or(nowhere);
    say(host, b"found ");
    address(host, found.at);
    say(host, b", named by line ");
    number(host, found.line);
    say(host, b" already");
}

// ---- 19, the end

fn endless(host: &Host, rest: Option<&[u8]>) {
    if rest.is_some() {
        return say(host, b"found text behind the end record, wanted none");
    }
    say(host, b"found the end of the text, wanted :00000001FF");
}

// ---- the line

fn begin(host: &Host, word: usize, line: usize) {
    name(host, word);
    say(host, b": line ");
    number(host, line);
    say(host, b": ");
}

fn reason(host: &Host, part: u8, text: &[u8], line: usize, r: Refusal) {
    let found = line_at(text, line);
    let record = bare(found.unwrap_or(b""));
    match r {
        Refusal::BadRecord(_) => malformed(host, record),
        Refusal::BadSum(_) => missummed(host, record),
        Refusal::Misplaced(_) => misplaced(host, text, line, span_in(record), part),
        Refusal::NoEnd(_) => endless(host, found),
        _ => {}
    }
}

// The refusals of a text: the others have no line.
pub(crate) fn tell(host: &Host, word: usize, part: u8, text: &[u8], r: Refusal) {
    let line = parts::verdict_place(Err(r));
    begin(host, word, line);
    reason(host, part, text, line, r);
    say(host, b"\n");
}
