// The lines that a trying program reads: a letter for what is done, up to sixteen numbers and, after a colon, what is tried. And what the trying
// programs have in common: what they lend to a call, and how they tell its answer.
#![tactic(auto)]

ghost use Rattle.std.specs.Prelude.{◌≡◌, ◌+◌, ◌<◌, length, take, IfSome};

pub mod counts;
mod laid;
mod lent;
mod marks;
mod pattern;
pub mod told;

pub use laid::Laid;
pub use lent::Lent;
pub use marks::{Marked, ended};
use parts::Loss;
pub use pattern::{Pattern, fill, filled};

// ---- parts of a buffer

// The first n; all of a buffer that has fewer.
pub fn first<T>(s: &[T], n: usize) -> &[T]
    ensures { result.now ≡ take n s.now }
{
    &s[..n.min(s.len())]
}

pub fn set<T: Copy>(s: &mut [T], at: usize, x: T) {
    if let Some(place) = s.get_mut(at) {
        *place = x;
    }
}

// ---- lines

// A number with one digit more; anything but a digit leaves it, and so does an eleventh digit.
fn with_digit(n: usize, x: u8) -> usize {
    match x {
        b'0'..=b'9' if n < 1000000000 => n * 10 + usize::from(x - b'0'),
        _ => n,
    }
}

fn number(digits: &[u8]) -> usize {
    digits.iter().fold(0, |n, x| with_digit(n, *x))
}

// The numbers of a line after its first two bytes, a space between them; what follows the sixteenth is passed over.
pub fn numbers(line: &[u8]) -> [usize; 16] {
    let mut values = [0; 16];
    let typed = line.get(2..).unwrap_or(b"");
    for (value, digits) in values.iter_mut().zip(typed.split(|x| *x == b' ')) {
        *value = number(digits);
    }
    values
}

// What stands before the first such byte, and what behind it.
pub fn split_once(s: &[u8], mark: u8) -> Option<(&[u8], &[u8])>
    ensures { IfSome result (λ p. length p.0.now + length p.1.now + 1 ≡ length s.now) }
{
    let n = s.iter().position(|x| *x == mark)?;
    Some((&s[..n], &s[n + 1..]))
}

// The same, where nothing stands behind a byte that is not there.
pub fn halves(s: &[u8], mark: u8) -> (&[u8], &[u8]) {
    split_once(s, mark).unwrap_or((s, b""))
}

// What is tried: the text behind the colon and a space; all of a line without them.
pub fn label(line: &[u8]) -> &[u8] {
    match split_once(line, b':') {
        Some((_, [_, tried @ ..])) => tried,
        _ => line,
    }
}

// ---- what is given for a loss of power

// 0 the old contents, 1 a lent page, 2 a lent page and the lock.
pub fn loss_of(n: usize) -> Loss {
    if n == 0 {
        return Loss::Old;
    }
    Loss::Lent(n == 2)
}

// ---- numbers that tell buffers apart

// Two numbers as one that tells them apart.
pub fn mix(sum: usize, x: usize) -> usize
    ensures { result < 1000003 }
{
    (sum % 1000003 * 31 + x % 1000003) % 1000003
}

// A number that tells lists apart by what stands in them and where.
pub fn mixed<T: Copy + Into<u64>>(s: &[T]) -> usize {
    s.iter().fold(0, |sum, x| mix(sum, (*x).into() as usize))
}
