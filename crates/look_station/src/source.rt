// What a file is looked at for: all that it has, the part that it is of, and the chip that it holds; and what is answered where there is none.
use files::shape;
use host::Host;
use parts::{Refusal, Verdict};
use wear::Most;
use words::form::Form;
use words::report;
use words::report::Ground;

// A chip that is stored: its lock, its memories, the counts of its wear and the worst of them.
#[derive(Clone, Copy)]
pub(crate) struct Stored<'a> {
    pub(crate) locked: bool,
    pub(crate) array: &'a [u8],
    pub(crate) id: &'a [u8],
    pub(crate) counts: &'a [u32],
    pub(crate) worst: Most,
}

// Of what is refused here no place is told.
pub(crate) fn refuse(host: &Host, r: Refusal) -> bool {
    let nowhere = Ground {
        page: 1,
        ident: false,
        from: 0,
    };
    report::refused(host, nowhere, r)
}

// Whether a part is asked for that there is not.
pub(crate) fn unknown(asked: Option<u8>) -> bool {
    asked.is_some_and(|part| !parts::facts_of(part).known)
}

// An EPR image names its part. Bytes that are taken for another form may begin as one does, and name none.
fn said_in(host: &Host, word: usize, bytes: &[u8]) -> Option<u8> {
    let part = image::part_in(bytes);
    let is_image = files::form_in(host, word, part, bytes) == Form::Epr;
    (is_image && shape::marked(bytes, b'R')).then_some(part)
}

// The part that is asked for, else the one that the file names.
pub(crate) fn said(host: &Host, asked: Option<u8>, word: usize, bytes: &[u8]) -> Option<u8> {
    asked.or_else(|| said_in(host, word, bytes))
}

pub(crate) fn unsaid(host: &Host, word: usize) -> bool {
    files::complain(host, word, b": names no part: write PART before the file\n");
    false
}

// What is made of all that the file of a word has. Of one that cannot be read standard error has the reason.
pub(crate) fn read<F: FnOnce(&[u8]) -> bool>(host: &Host, word: usize, look: F) -> bool
    requires { F.IsAlwaysCallable look }
{
    let mut room = files::room();
    match files::contents(host, word, &mut room) {
        Some(bytes) => look(bytes),
        None => false,
    }
}

// What is told of the chip that a file's bytes hold. Every part has the enable 0.
pub(crate) fn load<F: FnOnce(Stored<'_>) -> bool>(
    host: &Host,
    word: usize,
    part: u8,
    bytes: &[u8],
    tell: F,
) -> bool
    requires { F.IsAlwaysCallable tell }
{
    let mut array_room = [0u8; 32768];
    let mut id_room = [0u8; 64];
    let mut count_room = [0u32; 8192];
    let mut held = [0u8; pack_chip::LENGTH];
    let array = fitted::array(part, &mut array_room);
    let id = fitted::id(part, &mut id_room);
    let counts = fitted::counts(part, &mut count_room);
    let Some(ready) = files::chip_in(host, word, part, 0, bytes, &mut held, array, id, counts)
    else {
        return false;
    };
    match ready.verdict {
        Ok(()) => tell(Stored {
            locked: pack_chip::unpack(&held).line.core.locked,
            array,
            id,
            counts,
            worst: ready.worst,
        }),
        Err(r) => refuse(host, r),
    }
}
