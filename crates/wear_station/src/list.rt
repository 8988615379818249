// A list of traces: a name a line, LF or CR LF; empty lines are left out. It is read in pieces, so a list of any length goes through.
ghost use Rattle.std.specs.Prelude.{◌≤◌};

use crate::source::{Source, Told};
use crate::work;
use host::Host;
use work::Worn;

// The line that is read: its number, and as much of it as has come.
#[derive(Drop)]
struct Line {
    number: usize,
    letters: [u8; 4096],
    length: usize,
    ghost fits: { length ≤ 4096 },
}

impl Line {
    fn first() -> Line {
        Line {
            number: 1,
            letters: io::buffer(),
            length: 0,
        }
    }

    fn text(&self) -> &[u8] {
        &self.letters[..self.length]
    }

    // False where there is no room for another byte.
    fn keep(&mut self, b: u8) -> bool {
        if self.length == self.letters.len() {
            return false;
        }
        self.letters[self.length] = b;
        self.length += 1;
        true
    }

    fn end(&mut self) {
        self.number = self.number.wrapping_add(1);
        self.length = 0;
    }
}

// A CR directly before its LF is no part of the line.
fn bare(line: &[u8]) -> &[u8] {
    match line {
        [name @ .., b'\r'] => name,
        _ => line,
    }
}

// The trace that the line names. A name of a list is a file's, be it `-`.
fn named(host: &Host, w: Worn, name: &[u8], counts: &mut [u32]) -> Result<Worn, Told> {
    if name.is_empty() {
        return Ok(w);
    }
    let source = Source {
        host,
        is_input: false,
        name,
    };
    work::one_trace(w, source, counts)
}

fn byte(
    w: Worn,
    b: u8,
    list: Source<'_>,
    line: &mut Line,
    counts: &mut [u32],
) -> Result<Worn, Told> {
    if b == b'\n' {
        let behind = named(list.host, w, bare(line.text()), counts)?;
        line.end();
        return Ok(behind);
    }
    if line.keep(b) {
        Ok(w)
    } else {
        Err(list.long_line(line.number, line.text().len()))
    }
}

fn piece(
    mut w: Worn,
    chunk: &[u8],
    list: Source<'_>,
    line: &mut Line,
    counts: &mut [u32],
) -> Result<Worn, Told> {
    for b in chunk {
        w = byte(w, *b, list, line, counts)?;
    }
    Ok(w)
}

// The last line end may be missing. Nothing says that a file ends, and a proved loop has to: so there are as many turns as no run uses up.
fn read(mut w: Worn, fd: i32, list: Source<'_>, counts: &mut [u32]) -> Result<Worn, Told> {
    let mut line = Line::first();
    for _ in 0..u64::MAX {
        let mut chunk = io::buffer();
        match list.host.read(fd, &mut chunk) {
            None => return Err(list.unread()),
            Some(0) => return named(list.host, w, line.text(), counts),
            Some(n) => w = piece(w, &chunk[..n], list, &mut line, counts)?,
        }
    }
    Err(Told)
}

// The traces that a list names.
pub fn one_list(w: Worn, list: Source<'_>, counts: &mut [u32]) -> Result<Worn, Told> {
    let fd = list.open()?;
    let behind = read(w, fd, list, counts);
    list.close(fd);
    behind
}
