// A text in parts that each end in a mark, as lines do; what is not ended is no part.
ghost use Rattle.std.specs.Prelude.{length};
ghost use Rattle.std.specs.Iterator.{at_most};

use crate::split_once;

#[derive(Clone, Copy)]
pub struct Marked<'a> {
    rest: &'a [u8],
    mark: u8,
}

pub fn ended(text: &[u8], mark: u8) -> Marked<'_> {
    Marked { rest: text, mark }
}

impl<'a> Iterator for Marked<'a> {
    type Item = &'a [u8];

    ghost remaining = { λ s. at_most (length s.rest.now) };

    fn next(&mut self) -> Option<&'a [u8]> {
        let (part, rest) = split_once(self.rest, self.mark)?;
        self.rest = rest;
        Some(part)
    }
}
