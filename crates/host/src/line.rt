// A line that is written into memory, and holds as much as there is room for.
ghost use Rattle.std.specs.Prelude.{◌≤◌};

use std::fmt;

const MOST: usize = 128;

#[derive(Drop)]
pub(crate) struct Line {
    bytes: [u8; 128],
    length: usize,
    ghost fits: { length ≤ 128 },
}

impl Line {
    pub(crate) fn new() -> Line {
        Line {
            bytes: [0; 128],
            length: 0,
        }
    }

    fn push(&mut self, b: u8) {
        if self.length < MOST {
            self.bytes[self.length] = b;
            self.length += 1;
        }
    }

    fn written(&self) -> &[u8] {
        &self.bytes[..self.length]
    }

    // Up to the last ` (`: behind it an error tells its number.
    pub(crate) fn unnumbered(&self) -> &[u8] {
        let all = self.written();
        let number = all.iter().rposition(|b| *b == b'(').unwrap_or(0);
        if number == 0 { all } else { &all[..number - 1] }
    }
}

impl fmt::Write for Line {
    fn write_str(&mut self, s: &str) -> fmt::Result {
        for b in s.bytes() {
            self.push(b);
        }
        Ok(())
    }
}
