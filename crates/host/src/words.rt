// The words of the command line, the program's name at 0.
ghost use Rattle.std.specs.Prelude.{◌≤◌, IfSome};
ghost use Rattle.io.specs.Counts.{IsPrefixLen};

use crate::Host;
use crate::error::{INVALID, TOO_LONG};
use std::env::{Env, FillError};

// A word, as long as a file's name may be.
#[derive(Drop)]
pub struct Word {
    letters: [u8; 4096],
    length: usize,
    ghost fits: { length ≤ 4096 },
}

impl Word {
    pub fn bytes(&self) -> &[u8] {
        &self.letters[..self.length]
    }
}

fn is_there(rt: HostRuntime, i: usize) -> bool {
    match rt.arg(i, &mut []) {
        Ok(_) | Err(FillError::TooLong) => true,
        Err(FillError::NotPresent) => false,
    }
}

pub(crate) fn count(rt: HostRuntime) -> usize {
    (0..usize::MAX).take_while(|i| is_there(rt, *i)).count()
}

impl Host {
    pub fn arg_count(&self) -> usize {
        self.words
    }

    // Puts word i at the start of the buffer, and says how long it is: none, and an error is kept, where there is no such word or it does not
    // fit. Of a word that is there no error is kept.
    pub fn arg(&self, i: usize, buf: &mut [u8]) -> Option<usize>
        ensures { IfSome result (λ n. IsPrefixLen n buf.new) }
    {
        match self.rt.arg(i, buf) {
            Ok(n) => {
                self.keep(0);
                Some(n)
            }
            Err(FillError::TooLong) => {
                self.keep(TOO_LONG);
                None
            }
            Err(FillError::NotPresent) => {
                self.keep(INVALID);
                None
            }
        }
    }

    // Word i; of no bytes where there is no such word, or it is longer than a file's name may be.
    pub fn word(&self, i: usize) -> Word {
        let mut letters = io::buffer();
        let length = self.arg(i, &mut letters).unwrap_or(0);
        Word { letters, length }
    }
}
