// The words of the commands that look at files: `info`, `dump` and `compare`.
use crate::reader::Reader;
use crate::value::part_of;
use crate::wrong::Wrong;
use crate::{files_end, inputs, trouble};
use help::{Command, Flag};
use host::Host;

// A file that is looked at, by the word that names it, and the part that is named.
#[derive(Clone, Copy)]
pub struct Looking {
    pub part: Option<u8>,
    pub file: usize,
    // Of a dump: which bytes, and how many, if not all.
    pub ident: bool,
    pub all: bool,
    pub from: usize,
    pub length: Option<usize>,
}

// What `info` is asked about.
#[derive(Clone, Copy)]
pub enum Informing {
    Part(u8),
    File(Looking),
}

// Two files that are compared, by the words that name them, and the part that is named.
#[derive(Clone, Copy)]
pub struct Comparing {
    pub part: Option<u8>,
    pub one: usize,
    pub two: usize,
}

// ---- the words that are always there

// A file, whose word stands before the options.
fn file(read: &mut Reader, behind: usize) -> Option<usize> {
    if behind <= read.next {
        return read.wrong_at(behind, Wrong::Missing);
    }
    read.file()
}

// The part, where a word more than so many files stands before the options.
fn part(read: &mut Reader, files: usize, behind: usize) -> Option<Option<u8>> {
    if behind <= read.next.saturating_add(files) {
        return Some(None);
    }
    Some(Some(read.part()?))
}

// No word is left over before the options, and standard input is read once.
fn filed(read: &Reader, first: usize, behind: usize) -> Option<()> {
    if read.next < behind {
        return read.wrong(Wrong::TooMany);
    }
    if 1 < inputs(read.host, first, behind) {
        trouble(read.host, b"only one FILE can be standard input\n");
        return None;
    }
    Some(())
}

// `[PART] FILE`
fn one(read: &mut Reader) -> Option<Looking> {
    let behind = files_end(read.host, read.next, read.end);
    let part = part(read, 1, behind)?;
    let file = file(read, behind)?;
    filed(read, file, behind)?;
    Some(Looking {
        part,
        file,
        ident: false,
        all: false,
        from: 0,
        length: None,
    })
}

// ---- the options of a dump

fn number(read: &mut Reader) -> Option<usize> {
    read.wants(1)?;
    read.number()
}

fn option(read: &mut Reader, l: &mut Looking) -> Option<()> {
    match read.flag()? {
        Flag::Ident => l.ident = true,
        Flag::All => l.all = true,
        Flag::From => l.from = number(read)?,
        Flag::Length => l.length = Some(number(read)?),
        _ => {}
    }
    Some(())
}

// ---- the commands: the words go from `next` to before `end`; none where one was wrong, and that was said

// `PART`, `FILE` or `PART FILE`: a word that names a part does not name a file.
pub fn info_asked(host: &Host, next: usize, end: usize) -> Option<Informing> {
    let mut read = Reader::new(host, Command::Info, next, end);
    if end <= next.saturating_add(1) {
        if let Some(part) = part_of(read.word().bytes()) {
            return Some(Informing::Part(part));
        }
    }
    let l = one(&mut read)?;
    read.ended()?;
    Some(Informing::File(l))
}

// `[PART] FILE`, and options. Of four options one is said again where there are more.
pub fn dump_asked(host: &Host, next: usize, end: usize) -> Option<Looking> {
    let mut read = Reader::new(host, Command::Dump, next, end);
    let mut l = one(&mut read)?;
    for _ in 0..4 {
        if read.is_done() {
            break;
        }
        option(&mut read, &mut l)?;
    }
    read.ended()?;
    Some(l)
}

// `[PART] FILE FILE`
pub fn compare_asked(host: &Host, next: usize, end: usize) -> Option<Comparing> {
    let mut read = Reader::new(host, Command::Compare, next, end);
    let behind = files_end(host, next, end);
    let part = part(&mut read, 2, behind)?;
    let one = file(&mut read, behind)?;
    let two = file(&mut read, behind)?;
    filed(&read, one, behind)?;
    read.ended()?;
    Some(Comparing { part, one, two })
}

// No word stands behind the command.
pub fn nothing_asked(host: &Host, command: Command, next: usize, end: usize) -> bool {
    Reader::new(host, command, next, end).ended().is_some()
}
