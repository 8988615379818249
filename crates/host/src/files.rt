// Open files, each by its descriptor: what is read, written and closed.
ghost use Rattle.std.specs.Prelude.{IfSome};
ghost use Rattle.io.specs.Counts.{IsPrefixLen};
ghost use Rattle.std.specs.Io.{ReadsAtMost};

use crate::error::{BAD_DESCRIPTOR, BUSY};
use crate::{Host, STDERR, STDIN, STDOUT};
use std::fs::File;
use std::io;
use std::io::{Print, Read, Write};

// The descriptor of the first file that is opened.
const FIRST: i32 = 3;

fn index_of(fd: i32) -> Option<usize> {
    usize::try_from(fd.checked_sub(FIRST)?).ok()
}

fn descriptor_of(i: usize) -> Option<i32> {
    i32::try_from(i).ok()?.checked_add(FIRST)
}

pub(crate) fn failed(code: i32) -> io::Error {
    io::Error::from_raw_os_error(code)
}

// Where no file stands, or at the end.
fn put(files: &mut Vec<Option<File>>, file: File) -> io::Result<usize> {
    match files.iter().position(|f| f.is_none()) {
        Some(i) => {
            files[i] = Some(file);
            Ok(i)
        }
        None => {
            files.push(Some(file))?;
            Ok(files.len() - 1)
        }
    }
}

fn slot_at(files: &mut Vec<Option<File>>, fd: i32) -> io::Result<&mut Option<File>> {
    match index_of(fd) {
        Some(i) => files.get_mut(i).ok_or(failed(BAD_DESCRIPTOR)),
        None => Err(failed(BAD_DESCRIPTOR)),
    }
}

pub(crate) fn file_at(files: &mut Vec<Option<File>>, fd: i32) -> io::Result<&mut File> {
    slot_at(files, fd)?.as_mut().ok_or(failed(BAD_DESCRIPTOR))
}

impl Host {
    fn place(&self, opened: io::Result<File>) -> io::Result<usize> {
        match self.files.try_borrow_mut() {
            Ok(mut files) => put(&mut files, opened?),
            Err(_) => Err(failed(BUSY)),
        }
    }

    // The descriptor of a file that was opened.
    pub(crate) fn taken(&self, opened: io::Result<File>) -> Option<i32> {
        descriptor_of(self.kept(self.place(opened))?)
    }
}

// ---- reading

impl Host {
    fn read_input(&self, buf: &mut [u8]) -> io::Result<usize>
        ensures { ReadsAtMost result buf.new }
    {
        match self.again.try_borrow_mut() {
            Ok(mut again) => match &mut *again {
                Some(file) => file.read(buf),
                None => self.rt.stdin().read(buf),
            },
            Err(_) => Err(failed(BUSY)),
        }
    }

    fn read_some(&self, fd: i32, buf: &mut [u8]) -> io::Result<usize>
        ensures { ReadsAtMost result buf.new }
    {
        if fd == STDIN {
            return self.read_input(buf);
        }
        match self.files.try_borrow_mut() {
            Ok(mut files) => file_at(&mut files, fd)?.read(buf),
            Err(_) => Err(failed(BUSY)),
        }
    }

    // Reads some bytes to the start of the buffer: how many, 0 at the end of the file.
    pub fn read(&self, fd: i32, buf: &mut [u8]) -> Option<usize>
        ensures { IfSome result (λ n. IsPrefixLen n buf.new) }
    {
        let got = self.read_some(fd, buf);
        self.kept(got)
    }

    // Reads until the buffer is full, the input ends or a read fails: how many bytes stand at its start.
    pub fn read_full(&self, fd: i32, buf: &mut [u8]) -> usize
        ensures { IsPrefixLen result buf.new }
    {
        let mut done = 0;
        // (a `while`, since no `for` goes on by what each turn has read)
        while done < buf.len() {
            let n = self.read(fd, &mut buf[done..]).unwrap_or(0);
            if n == 0 {
                break;
            }
            done += n;
        }
        done
    }
}

// ---- writing

impl Host {
    fn write_some(&self, fd: i32, bytes: &[u8]) -> io::Result<()> {
        match fd {
            STDOUT => self.rt.stdout().write_all(bytes),
            STDERR => self.rt.stderr().write_all(bytes),
            _ => self.write_file(fd, bytes),
        }
    }

    fn write_file(&self, fd: i32, bytes: &[u8]) -> io::Result<()> {
        match self.files.try_borrow_mut() {
            Ok(mut files) => file_at(&mut files, fd)?.write_all(bytes),
            Err(_) => Err(failed(BUSY)),
        }
    }

    // Whether all of the bytes were written.
    pub fn write_all(&self, fd: i32, bytes: &[u8]) -> bool {
        self.kept(self.write_some(fd, bytes)).is_some()
    }
}

// ---- closing

impl Host {
    fn synced(&self, fd: i32) -> io::Result<()> {
        match self.files.try_borrow_mut() {
            Ok(mut files) => file_at(&mut files, fd)?.sync_all(),
            Err(_) => Err(failed(BUSY)),
        }
    }

    // Whether what was written to the file is on its disk.
    pub fn fsync(&self, fd: i32) -> bool {
        self.kept(self.synced(fd)).is_some()
    }

    fn closed(&self, fd: i32) -> io::Result<()> {
        match self.files.try_borrow_mut() {
            Ok(mut files) => {
                *slot_at(&mut files, fd)? = None;
                Ok(())
            }
            Err(_) => Err(failed(BUSY)),
        }
    }

    // Whether it was done.
    pub fn close(&self, fd: i32) -> bool {
        self.kept(self.closed(fd)).is_some()
    }
}
