// The bytes of a file, byte for byte as `hexdump -C` prints them. Each function is told whether the lines before it were written, and says so
// of its own.
use crate::source;
use crate::source::Stored;
use host::Host;
use parts::Refusal;
use words::answer::say;
use words::looking::Looking;
use words::report::{first_of, onward};

// The columns of a line: the offset, two blanks, the bytes in two halves, and behind a bar what each is in ASCII.
const WIDTH: usize = 79;

const BAR: usize = 60;

// ---- a line

// Where the digits of byte i stand.
fn column(i: usize) -> usize {
    if i < 8 {
        return 10 + 3 * i;
    }
    if i < 16 { 11 + 3 * i } else { WIDTH }
}

// Where byte i stands as ASCII; behind the last byte stands the other bar.
fn sign_column(i: usize) -> usize {
    if i <= 16 { BAR + 1 + i } else { WIDTH }
}

fn sign(b: u8) -> u8 {
    match b {
        b' '..=b'~' => b,
        _ => b'.',
    }
}

fn put(line: &mut [u8], i: usize, b: u8) {
    let digits = text::small_hex(b);
    parts::copy(line, column(i), &digits);
    parts::copy(line, sign_column(i), &[sign(b)]);
}

fn spell(line: &mut [u8], row: &[u8]) {
    for (i, b) in row.iter().enumerate() {
        put(line, i, *b);
    }
}

fn offset(host: &Host, ok: bool, at: usize) -> bool {
    let mut digits = [0u8; 16];
    let k = io::hex(at as u64, 8, &mut digits);
    say(host, ok, &digits[..k])
}

// As much of a line as so many bytes fill; its offset is told before, and every line has as much.
fn cut(host: &Host, ok: bool, line: &[u8], bytes: usize) -> bool {
    match line.get(8..onward(sign_column(bytes), 2)) {
        Some(rest) => say(host, ok, rest),
        None => ok,
    }
}

fn row_told(host: &Host, at: usize, row: &[u8]) -> bool {
    let mut line = [b' '; WIDTH];
    spell(&mut line, row);
    parts::copy(&mut line, BAR, b"|");
    parts::copy(&mut line, sign_column(row.len()), b"|\n");
    cut(host, offset(host, true, at), &line, row.len())
}

// ---- the lines

// A `*` stands for all that are as the one before. A last row of fewer bytes is not; nor is the first, as no row is empty.
fn rows(host: &Host, from: usize, shown: &[u8], all: bool) -> bool {
    let mut before: &[u8] = b"";
    let mut left_out = false;
    for (k, row) in shown.chunks(16).enumerate() {
        let alike = !all && row == before;
        let told = if alike {
            left_out || say(host, true, b"*\n")
        } else {
            row_told(host, onward(from, first_of(k, 16)), row)
        };
        if !told {
            return false;
        }
        before = row;
        left_out = alike;
    }
    true
}

// Bytes from a place on, and the place behind them.
fn told(host: &Host, from: usize, shown: &[u8], all: bool) -> bool {
    let done = rows(host, from, shown, all);
    say(host, offset(host, done, onward(from, shown.len())), b"\n")
}

// ---- what is asked for

fn beyond(host: &Host) -> bool {
    source::refuse(host, Refusal::Beyond)
}

// As hexdump has it: where no bytes are asked for there is no line, and of what goes to the end there is always the last one.
fn within(host: &Host, l: Looking, memory: &[u8]) -> bool {
    let Some(rest) = memory.get(l.from..) else {
        return beyond(host);
    };
    let Some(length) = l.length else {
        return told(host, l.from, rest, l.all);
    };
    match rest.get(..length) {
        None => beyond(host),
        Some([]) => true,
        Some(shown) => told(host, l.from, shown, l.all),
    }
}

pub(crate) fn tell(host: &Host, l: Looking, part: u8, chip: Stored<'_>) -> bool {
    if !l.ident {
        within(host, l, chip.array)
    } else if parts::facts_of(part).ident {
        within(host, l, chip.id)
    } else {
        beyond(host)
    }
}
