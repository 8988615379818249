// What a word says: a number, a byte, a part, a level of the pin.

// Whether two words are the same but for the case of letters.
pub fn same(a: &[u8], b: &[u8]) -> bool {
    a.len() == b.len() && a.iter().zip(b).all(|(x, y)| x.eq_ignore_ascii_case(y))
}

// ---- numbers

// A number of more than 28 bits is no number here: nothing takes one so large.
const MOST: usize = 16777215;

fn grown(n: usize, base: usize, digit: usize) -> Option<usize> {
    if MOST < n || base <= digit {
        return None;
    }
    n.checked_mul(base)?.checked_add(digit)
}

fn digits(word: &[u8], base: usize) -> Option<usize> {
    if word.is_empty() {
        return None;
    }
    word.iter()
        .try_fold(0, |n, b| grown(n, base, text::wide(text::value(*b))))
}

pub(crate) fn number_of(word: &[u8]) -> Option<usize> {
    match word {
        [b'0', b'x' | b'X', rest @ ..] => digits(rest, 16),
        _ => digits(word, 10),
    }
}

// The bit of a byte.
pub(crate) fn bit_of(word: &[u8]) -> Option<u8> {
    number_of(word).filter(|n| *n < 8).map(text::narrow)
}

// The byte that two digits say.
pub(crate) fn byte_of(word: &[u8]) -> Option<u8> {
    if word.len() != 2 {
        return None;
    }
    digits(word, 16).map(text::narrow)
}

// ---- parts

fn is_name(part: u8, word: &[u8]) -> bool {
    let name = parts::name_of(part);
    let bytes = name.bytes;
    let n = name.length;
    same(word, &bytes[..n])
}

// The part of this name in the part table.
fn named(word: &[u8]) -> Option<u8> {
    (0..255u8)
        .take_while(|part| parts::facts_of(*part).known)
        .find(|part| is_name(*part, word))
}

// A digit above 5 is taken: the run refuses it with its number.
pub(crate) fn part_of(word: &[u8]) -> Option<u8> {
    match word {
        [b @ b'0'..=b'9'] => Some(text::value(*b)),
        _ => named(word),
    }
}

// ---- the pin

// The events L, H and F.
pub(crate) fn pin_of(word: &[u8]) -> Option<u8> {
    if same(word, b"low") {
        return Some(5);
    }
    if same(word, b"high") {
        return Some(6);
    }
    if same(word, b"floating") {
        Some(7)
    } else {
        None
    }
}
