// The file of counts: the mark `EPC`, version 0001h high byte first, the part, then each group's count as four bytes, high byte first.
use crate::source::{Source, Told};
use files::tell::{number, say};
use files::{shape, traced};
use host::Host;
use parts::Refusal;

// Room for one byte more than the largest has, so that a longer file is seen to be too long.
pub const ROOM: usize = 32775;

const HEAD: usize = 6;

const PART: usize = 5;

// The bytes of a file with so many counts. The limit is for the proof alone: no part has so many groups.
pub fn size_of(groups: usize) -> usize {
    if groups < 65536 { HEAD + 4 * groups } else { 0 }
}

// ---- reading

// As many counts as there is room for.
pub fn load(bytes: &[u8], counts: &mut [u32]) {
    files::counts::take(bytes, HEAD, counts);
}

// ---- what is no file of counts

fn begin(source: Source<'_>) {
    source.begin();
    say(source.host, b"no file of counts: found ");
}

fn begin_length(source: Source<'_>, n: usize) {
    source.begin();
    say(source.host, b"no file of counts: got ");
    shape::found(source.host, n, ROOM);
    say(source.host, b", wanted ");
}

fn end(source: Source<'_>) -> Told {
    traced::end(source.host, Refusal::BadImage);
    Told
}

fn no_mark(source: Source<'_>, bytes: &[u8]) -> Told {
    begin(source);
    shape::mark(source.host, bytes);
    say(source.host, b", wanted 45h 50h 43h, EPC");
    end(source)
}

fn no_version(source: Source<'_>, bytes: &[u8]) -> Told {
    begin(source);
    shape::version(source.host, bytes);
    say(source.host, b", wanted 0001h");
    end(source)
}

fn no_part(source: Source<'_>, part: u8) -> Told {
    begin(source);
    shape::no_part(source.host, part);
    end(source)
}

fn no_head(source: Source<'_>, n: usize) -> Told {
    begin_length(source, n);
    number(source.host, size_of(wear::groups(0)));
    say(source.host, b" or ");
    number(source.host, size_of(wear::groups(5)));
    end(source)
}

fn no_length(source: Source<'_>, n: usize, part: u8) -> Told {
    begin_length(source, n);
    number(source.host, size_of(wear::groups(part)));
    say(source.host, b" for part ");
    number(source.host, text::wide(part));
    end(source)
}

// The part that a file of counts is of; standard error has the reason where the bytes are none.
pub fn part_in(source: Source<'_>, bytes: &[u8]) -> Result<u8, Told> {
    let part = parts::byte_at(bytes, PART);
    if bytes.len() < HEAD {
        Err(no_head(source, bytes.len()))
    } else if !shape::marked(bytes, b'C') {
        Err(no_mark(source, bytes))
    } else if !shape::versioned(bytes, 1, 1) {
        Err(no_version(source, bytes))
    } else if !parts::facts_of(part).known {
        Err(no_part(source, part))
    } else if bytes.len() != size_of(wear::groups(part)) {
        Err(no_length(source, bytes.len(), part))
    } else {
        Ok(part)
    }
}

// ---- writing

fn store(host: &Host, word: usize, part: u8, counts: &[u32]) -> bool {
    let mut out = [0u8; ROOM];
    parts::copy(&mut out, 0, &[b'E', b'P', b'C', 0, 1, part]);
    files::counts::put(&mut out, HEAD, counts);
    let n = size_of(counts.len());
    n <= out.len() && files::store::store(host, word, &out[..n])
}

// Whether the file stands that a word names, or none is asked for.
pub fn save(host: &Host, word: Option<usize>, part: u8, counts: &[u32]) -> bool {
    match word {
        Some(word) => store(host, word, part, counts),
        None => true,
    }
}
