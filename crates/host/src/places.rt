// Where a file is read: what can be read for a second time, and from where.
use crate::error::{BUSY, INVALID};
use crate::files::{failed, file_at};
use crate::{Host, STDIN};
use std::fs::File;
use std::io;
use std::io::{Read, Seek, SeekFrom};

const INPUT: &str = "/dev/stdin";

const INPUT_FACTS: &str = "/proc/self/fdinfo/0";

// What the system says of a pipe.
const NO_PLACE: i32 = 29;

// The number behind the first blanks: the system writes `pos:`, a tab and the number in the first line.
fn first_number(facts: &[u8]) -> u64 {
    facts
        .iter()
        .map(|b| text::value(*b))
        .skip_while(|d| 9 < *d)
        .take_while(|d| *d < 10)
        .fold(0u64, |n, d| n.wrapping_mul(10).wrapping_add(u64::from(d)))
}

// Standard input, opened once more.
fn input_again(rt: HostRuntime) -> io::Result<File> {
    let file = File::open(&rt, INPUT)?;
    if file.metadata()?.is_file() {
        return Ok(file);
    }
    Err(failed(NO_PLACE))
}

fn input_place(rt: HostRuntime) -> io::Result<u64> {
    let _ = input_again(rt)?;
    let mut facts = File::open(&rt, INPUT_FACTS)?;
    let mut text = [0u8; 64];
    let n = facts.read(&mut text)?;
    Ok(first_number(&text[..n]))
}

fn moved(file: &mut File, from: u64) -> io::Result<()> {
    file.seek(SeekFrom::Start(from))?;
    Ok(())
}

impl Host {
    fn place_of(&self, fd: i32) -> io::Result<u64> {
        if fd == STDIN {
            return input_place(self.rt);
        }
        match self.files.try_borrow_mut() {
            Ok(mut files) => file_at(&mut files, fd)?.stream_position(),
            Err(_) => Err(failed(BUSY)),
        }
    }

    // Where the file is read next; none of what has no such place, as a pipe.
    pub fn position(&self, fd: i32) -> Option<u64> {
        self.kept(self.place_of(fd))
    }

    // From then on standard input is read by a file of its own.
    fn input_moved(&self, from: u64) -> io::Result<()> {
        let mut file = input_again(self.rt)?;
        moved(&mut file, from)?;
        match self.again.try_borrow_mut() {
            Ok(mut again) => {
                *again = Some(file);
                Ok(())
            }
            Err(_) => Err(failed(BUSY)),
        }
    }

    fn file_moved(&self, fd: i32, from: u64) -> io::Result<()> {
        match self.files.try_borrow_mut() {
            Ok(mut files) => moved(file_at(&mut files, fd)?, from),
            Err(_) => Err(failed(BUSY)),
        }
    }

    // Whether the file is read from this place on.
    pub fn seek(&self, fd: i32, from: u64) -> bool {
        let moved = if fd == STDIN {
            self.input_moved(from)
        } else {
            self.file_moved(fd, from)
        };
        self.kept(moved).is_some()
    }
}
