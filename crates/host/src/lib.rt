// What a program is given by the system: its words, files, streams and the status that it ends with. `main` makes one, and every function
// that needs any of it is lent it. What stays between two calls is in cells.
#![tactic(auto)]

mod error;
mod files;
mod line;
mod names;
mod places;
mod say;
mod words;

use std::cell::{Cell, RefCell};
use std::fs::File;
pub use words::Word;

// Descriptors of the standard streams; a file that is opened has a higher one.
pub const STDIN: i32 = 0;

pub const STDOUT: i32 = 1;

pub const STDERR: i32 = 2;

#[derive(Drop)]
pub struct Host {
    rt: HostRuntime,
    // How many words there are, the program's name among them.
    words: usize,
    // The highest status so far.
    status: Cell<u8>,
    // The system's number for what failed last.
    error: Cell<i32>,
    // The files that are open, by descriptor from the first behind the streams on.
    files: RefCell<Vec<Option<File>>>,
    // Standard input, where it is read for a second time.
    again: RefCell<Option<File>>,
}

impl Host {
    pub fn new(rt: HostRuntime) -> Host {
        Host {
            rt,
            words: words::count(rt),
            status: Cell::new(0),
            error: Cell::new(0),
            files: RefCell::new(Vec::new(rt.alloc())),
            again: RefCell::new(None),
        }
    }

    // The status that the program is to end with.
    pub fn status(&self) -> u8 {
        self.status.get()
    }

    // It ends with this one at least.
    pub fn mark(&self, status: u8) {
        if self.status.get() < status {
            self.status.set(status);
        }
    }
}
