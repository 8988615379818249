// Files by name. A name is bytes; one that is no UTF-8 is refused, since std takes text.
use crate::Host;
use crate::error::{EXISTS, INVALID, NO_TEXT};
use std::fs::OpenOptions;
use std::{fs, io};

// How often a name that no file has is looked for.
const TRIES: u32 = 1000000;

// The number of a name that is no text: a NUL is told first.
fn number_of_name(name: &[u8]) -> i32 {
    if name.contains(&0) { INVALID } else { NO_TEXT }
}

fn text_of(name: &[u8]) -> io::Result<&str> {
    std::str::from_utf8(name).map_err(|_| io::Error::from_raw_os_error(number_of_name(name)))
}

// A letter or a digit.
fn letter(n: u32) -> u8 {
    let d = (n % 36) as u8;
    if d < 10 { b'0' + d } else { b'A' - 10 + d }
}

// Puts the number in place of the last six bytes.
fn spell(name: &mut [u8], number: u32) {
    let mut rest = number;
    for byte in name.iter_mut().rev().take(6) {
        *byte = letter(rest);
        rest /= 36;
    }
}

impl Host {
    fn opened(&self, how: &OpenOptions, name: &[u8]) -> Option<i32> {
        let text = self.kept(text_of(name))?;
        self.taken(how.open(&self.rt, text))
    }

    // Opens the file for reading: its descriptor.
    pub fn open_read(&self, name: &[u8]) -> Option<i32> {
        let mut how = OpenOptions::new();
        how.read(true);
        self.opened(&how, name)
    }

    // Opens the file for writing and empties it, or makes it where it is missing: its descriptor.
    pub fn open_overwrite(&self, name: &[u8]) -> Option<i32> {
        let mut how = OpenOptions::new();
        how.write(true).create(true).truncate(true);
        self.opened(&how, name)
    }

    // Makes the file, which no name may have yet: its descriptor, open for writing.
    pub fn create(&self, name: &[u8]) -> Option<i32> {
        let mut how = OpenOptions::new();
        how.write(true).create_new(true);
        self.opened(&how, name)
    }

    // Makes a file under a name that no file has: the last six bytes are replaced. Its descriptor.
    pub fn create_temp(&self, name: &mut [u8]) -> Option<i32> {
        let first = std::process::id(self.rt.process());
        for i in 0..TRIES {
            spell(name, first.wrapping_mul(TRIES).wrapping_add(i));
            let made = self.create(name);
            if made.is_some() || self.errno() != EXISTS {
                return made;
            }
        }
        None
    }

    // Whether it was done.
    pub fn rename(&self, from: &[u8], to: &[u8]) -> bool {
        self.kept(renamed(self.rt, from, to)).is_some()
    }

    // Whether it was done.
    pub fn unlink(&self, name: &[u8]) -> bool {
        self.kept(unlinked(self.rt, name)).is_some()
    }
}

fn renamed(rt: HostRuntime, from: &[u8], to: &[u8]) -> io::Result<()> {
    fs::rename(&rt, text_of(from)?, text_of(to)?)
}

fn unlinked(rt: HostRuntime, name: &[u8]) -> io::Result<()> {
    fs::remove_file(&rt, text_of(name)?)
}
