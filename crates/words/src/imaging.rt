// The words of the command `image`: `info FILE`, and `convert FILE OUT --to 1` or `--to 2`.
use crate::reader::Reader;
use crate::same;
use crate::wrong::Wrong;
use help::Command;
use host::Host;

// What is asked for: `file` and `out` are the words that name the files; `version` is the one to convert to.
#[derive(Clone, Copy)]
pub enum Imaging {
    Info {
        file: usize,
    },
    Convert {
        file: usize,
        out: usize,
        version: u8,
    },
}

impl Imaging {
    // The word that names the file that is read.
    pub fn file(self) -> usize {
        match self {
            Imaging::Info { file } | Imaging::Convert { file, .. } => file,
        }
    }
}

fn info(read: &mut Reader) -> Option<Imaging> {
    let file = read.file()?;
    read.ended()?;
    Some(Imaging::Info { file })
}

fn version_of(word: &[u8]) -> Option<u8> {
    match word {
        b"1" => Some(1),
        b"2" => Some(2),
        _ => None,
    }
}

fn convert(read: &mut Reader) -> Option<Imaging> {
    read.wants(4)?;
    let file = read.file()?;
    let out = read.file()?;
    if !same(read.word().bytes(), b"--to") {
        return read.wrong(Wrong::To);
    }
    read.pass();
    let Some(version) = version_of(read.word().bytes()) else {
        return read.wrong(Wrong::To);
    };
    read.pass();
    read.ended()?;
    Some(Imaging::Convert { file, out, version })
}

// The words go from `next` to before `end`; none where one was wrong, and that was said.
pub fn asked(host: &Host, next: usize, end: usize) -> Option<Imaging> {
    let mut read = Reader::new(host, Command::Image, next, end);
    read.wants(1)?;
    let word = read.word();
    if same(word.bytes(), b"info") {
        read.pass();
        return info(&mut read);
    }
    if same(word.bytes(), b"convert") {
        read.pass();
        return convert(&mut read);
    }
    read.wrong(Wrong::ImageWord)
}
