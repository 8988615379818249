// The bytes of a write, and of files.
ghost use Rattle.std.specs.Prelude.{IfSome};
ghost use Rattle.io.specs.Counts.{IsPrefixLen};

use crate::value::byte_of;
use crate::wrong::{Wrong, complain};
use crate::{failed, same};
use help::Command;
use host::{Host, STDIN};

// How many bytes a file or the standard input has, all at the start of the buffer, or as much as there is room for; none where a read failed.
// One more read tells the end from a failure.
pub fn read_all(host: &Host, fd: i32, to: &mut [u8]) -> Option<usize>
    ensures { IfSome result (λ n. IsPrefixLen n to.new) }
{
    let n = host.read_full(fd, to);
    if n < to.len() && host.read(fd, &mut [0]) != Some(0) {
        return None;
    }
    Some(n)
}

fn input(host: &Host, to: &mut [u8]) -> Option<usize>
    ensures { IfSome result (λ n. IsPrefixLen n to.new) }
{
    let got = read_all(host, STDIN, to);
    if got.is_none() {
        failed(host, b"standard input");
    }
    got
}

// The bytes that two digits each say, where there is room for them.
fn unhex(word: &[u8], to: &mut [u8]) -> Option<usize>
    ensures { IfSome result (λ n. IsPrefixLen n to.new) }
{
    let n = word.len() / 2;
    if word.len() % 2 != 0 || to.len() < n {
        return None;
    }
    for (byte, pair) in to.iter_mut().zip(word.chunks_exact(2)) {
        *byte = byte_of(pair)?;
    }
    Some(n)
}

fn bytes(host: &Host, word: &[u8], to: &mut [u8], i: usize) -> Option<usize>
    ensures { IfSome result (λ n. IsPrefixLen n to.new) }
{
    if same(word, b"-") {
        return input(host, to);
    }
    let made = unhex(word, to);
    if made.is_none() {
        complain(host, Command::Write, i, Wrong::Bytes);
    }
    made
}

// How many bytes word i says, all at the start of the buffer; none where it says none, and that was said. A word that is too long has more
// bytes than any array.
pub fn data(host: &Host, to: &mut [u8], i: usize) -> Option<usize>
    ensures { IfSome result (λ n. IsPrefixLen n to.new) }
{
    let mut word = io::large_buffer();
    match host.arg(i, &mut word) {
        Some(n) => bytes(host, &word[..n], to, i),
        None => {
            complain(host, Command::Write, i, Wrong::TooLong);
            None
        }
    }
}
