// A file that is written: it is there whole or not at all, and what was there before stays until then. What is below /dev/ is no file that
// can be replaced, and is written where it is.
use crate::{extend, tell};
use host::Host;
use words::status;

// A file under way: its descriptor, and how many bytes of the name beside are its own for now, 0 where it is written where it is.
#[derive(Clone, Copy)]
pub struct Begun {
    pub fd: i32,
    pub n: usize,
}

fn is_device(name: &[u8]) -> bool {
    match name.split_at_checked(5) {
        Some((first, rest)) => !rest.is_empty() && words::same(first, b"/dev/"),
        None => false,
    }
}

// A file that could not be begun is told.
fn said(host: &Host, name: &[u8], fd: Option<i32>, n: usize) -> Option<Begun> {
    if fd.is_none() {
        words::failed(host, name);
    }
    Some(Begun { fd: fd?, n })
}

// A name that no file has, so that nothing that a run before left is in the way. The file is as the system makes files.
fn begin_beside(host: &Host, name: &[u8], beside: &mut [u8]) -> Option<Begun> {
    let n = extend(beside, 0, name);
    let k = extend(beside, n, b".XXXXXX");
    let made = host.create_temp(beside.get_mut(..k)?);
    said(host, name, made, k)
}

fn begin_named(host: &Host, name: &[u8], beside: &mut [u8]) -> Option<Begun> {
    if name.is_empty() {
        words::trouble(
            host,
            b"a file that is written has a name, and one that is not too long\n",
        );
        return None;
    }
    if is_device(name) {
        return said(host, name, host.open_overwrite(name), 0);
    }
    begin_beside(host, name, beside)
}

// The file that a word names, to be written; `beside` has its name for now. None where it cannot be written, and that was said.
pub fn begin(host: &Host, word: usize, beside: &mut [u8]) -> Option<Begun> {
    if words::is_input(host, word) {
        words::trouble(
            host,
            b"a file that is written has a name: - is for standard input\n",
        );
        return None;
    }
    begin_named(host, host.word(word).bytes(), beside)
}

// The file is closed, and what it has is on the disk, as `synced` says. What is no file of a disk has none to be on.
fn closed(host: &Host, fd: i32, synced: bool) -> bool {
    let closed = host.close(fd);
    synced && closed
}

fn given_up(host: &Host, name: &[u8], beside: &[u8]) -> bool {
    words::failed(host, name);
    host.unlink(beside);
    false
}

fn finish_beside(host: &Host, fd: i32, name: &[u8], beside: &[u8]) -> bool {
    let synced = host.fsync(fd);
    if closed(host, fd, synced) && host.rename(beside, name) {
        return true;
    }
    given_up(host, name, beside)
}

fn finish_there(host: &Host, fd: i32, name: &[u8]) -> bool {
    let done = host.close(fd);
    if !done {
        words::failed(host, name);
    }
    done
}

fn finish_whole(host: &Host, fd: i32, name: &[u8], beside: &[u8]) -> bool {
    if beside.is_empty() {
        return finish_there(host, fd, name);
    }
    finish_beside(host, fd, name, beside)
}

// What the system said of it is not known here any more.
fn finish_part(host: &Host, fd: i32, name: &[u8], beside: &[u8]) -> bool {
    host.close(fd);
    host.unlink(beside);
    tell::say(host, b"sapwoodle: ");
    tell::say(host, name);
    tell::say(host, b": not all of it could be written\n");
    status::trouble(host);
    false
}

fn finish_named(host: &Host, fd: i32, whole: bool, name: &[u8], beside: &[u8]) -> bool {
    if whole {
        return finish_whole(host, fd, name, beside);
    }
    finish_part(host, fd, name, beside)
}

// Whether the file stands now; `whole`: all of it was written.
pub fn finish(host: &Host, b: Begun, whole: bool, word: usize, beside: &[u8]) -> bool {
    match beside.get(..b.n) {
        Some(own) => finish_named(host, b.fd, whole, host.word(word).bytes(), own),
        None => false,
    }
}

fn store_in(host: &Host, word: usize, bytes: &[u8], beside: &mut [u8]) -> bool {
    let Some(b) = begin(host, word, beside) else {
        return false;
    };
    let whole = host.write_all(b.fd, bytes);
    finish(host, b, whole, word, beside)
}

// Whether the file stands that a word names.
pub fn store(host: &Host, word: usize, bytes: &[u8]) -> bool {
    let mut beside = io::buffer();
    store_in(host, word, bytes, &mut beside)
}
