// The last error of the system: kept by its number, and told as the system tells it.
ghost use Rattle.std.specs.Prelude.{◌≡◌};
ghost use Rattle.std.specs.Result.{result_ok};

use crate::line::Line;
use crate::{Host, STDERR};
use std::fmt::Write;
use std::io;

// Numbers that are kept where the system was not asked at all.
pub(crate) const BAD_DESCRIPTOR: i32 = 9;

const NO_MEMORY: i32 = 12;

pub(crate) const BUSY: i32 = 16;

// What a file is refused with where one has its name.
pub(crate) const EXISTS: i32 = 17;

pub(crate) const INVALID: i32 = 22;

// What a write is refused with where nobody reads any more.
const UNREAD: i32 = 32;

pub(crate) const TOO_LONG: i32 = 36;

// A name that is no UTF-8.
pub(crate) const NO_TEXT: i32 = 84;

// Of what std refused itself: a name with a NUL in it, say.
fn number_of_kind(kind: io::ErrorKind) -> i32 {
    match kind {
        io::ErrorKind::OutOfMemory => NO_MEMORY,
        _ => INVALID,
    }
}

fn number_of(error: io::Error) -> i32 {
    match error.raw_os_error() {
        Some(code) => code,
        None => number_of_kind(error.kind()),
    }
}

impl Host {
    pub(crate) fn keep(&self, code: i32) {
        self.error.set(code);
    }

    // What was asked of the system; none where it failed, and why is kept.
    pub(crate) fn kept<T: Drop>(&self, done: io::Result<T>) -> Option<T>
        ensures { result ≡ result_ok done }
    {
        match done {
            Ok(value) => Some(value),
            Err(error) => {
                self.keep(number_of(error));
                None
            }
        }
    }

    // The number of the last error, or 0.
    pub fn errno(&self) -> i32 {
        self.error.get()
    }

    // Whether the last error is that nobody reads any more what is written, as behind `head`.
    pub fn is_unread(&self) -> bool {
        self.errno() == UNREAD
    }

    // Writes a line to standard error: what failed, and why.
    pub fn fail(&self, what: &[u8]) {
        let mut line = Line::new();
        let error = io::Error::from_raw_os_error(self.errno());
        let _ = write!(line, "{error}");
        self.write_all(STDERR, what);
        self.write_all(STDERR, b": ");
        self.write_all(STDERR, line.unnumbered());
        self.write_all(STDERR, b"\n");
    }
}
