// The forms of a stored chip: an EPR image, Intel HEX, raw bytes.
use crate::same;
use host::Host;

#[derive(Clone, Copy, PartialEq, Eq)]
pub enum Form {
    Epr,
    Hex,
    Raw,
}

// Behind `--as`.
pub(crate) fn named(word: &[u8]) -> Option<Form> {
    if same(word, b"epr") {
        return Some(Form::Epr);
    }
    if same(word, b"hex") {
        return Some(Form::Hex);
    }
    if same(word, b"raw") {
        return Some(Form::Raw);
    }
    None
}

// Whether a name ends so, behind one letter at least.
fn ends(name: &[u8], last: &[u8; 4]) -> bool {
    match name.split_last_chunk::<4>() {
        Some((first, end)) => !first.is_empty() && same(end, last),
        None => false,
    }
}

// What a file's name says.
pub fn of_name(name: &[u8]) -> Option<Form> {
    if ends(name, b".hex") || ends(name, b".ihx") {
        return Some(Form::Hex);
    }
    if ends(name, b".bin") || ends(name, b".raw") {
        return Some(Form::Raw);
    }
    None
}

// What the name says that word i is.
pub fn of_word(host: &Host, i: usize) -> Option<Form> {
    of_name(host.word(i).bytes())
}

// The form that is saved in the file that a word names: what `--as` says, else the name, else an image.
pub(crate) fn saved(host: &Host, said: Option<Form>, word: Option<usize>) -> Form {
    match (said, word) {
        (Some(form), _) => form,
        (None, Some(i)) => of_word(host, i).unwrap_or(Form::Epr),
        (None, None) => Form::Epr,
    }
}
