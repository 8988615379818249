// The bytes that every buffer is filled with before it is lent: from the first on one more each, and 0 behind 250. 251 is no multiple of a page, so
// that the bytes tell the pages apart.

#[derive(Clone, Copy)]
pub struct Pattern(pub u8);

impl Iterator for Pattern {
    type Item = u8;

    fn next(&mut self) -> Option<u8> {
        let x = self.0;
        self.0 = if x < 250 { x + 1 } else { 0 };
        Some(x)
    }
}

pub fn fill(s: &mut [u8], first: u8) {
    for (place, x) in s.iter_mut().zip(Pattern(first)) {
        *place = x;
    }
}

// Whether a buffer is as it was filled.
pub fn filled(s: &[u8], first: u8) -> bool {
    s.iter().zip(Pattern(first)).all(|(x, lent)| *x == lent)
}
