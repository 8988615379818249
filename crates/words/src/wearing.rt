// The words of the command `wear`: its options stand before, between and behind the traces, and the order of the words is that of the work.
use crate::wrong::{Wrong, complain};
use crate::{after, dashed_at, is_input, same, trouble};
use help::Command;
use host::Host;

// What a word is.
#[derive(Clone, Copy, PartialEq, Eq)]
pub enum Role {
    Trace,
    // The names of options behind which a file stands, and that file.
    Counts,
    CountsFile,
    List,
    ListFile,
    Image,
    ImageFile,
    Save,
    SaveFile,
    All,
    Wrong,
}

// What is asked for: `image` and `save` are the words that name the files.
#[derive(Clone, Copy)]
pub struct Wear {
    pub image: Option<usize>,
    pub save: Option<usize>,
    pub all: bool,
}

// How far the words are looked at: how many name what is read, and standard input.
#[derive(Clone, Copy)]
struct Taken {
    asked: Wear,
    sources: usize,
    inputs: usize,
}

const OPTIONS: [(&str, Role); 5] = [
    ("--counts", Role::Counts),
    ("--list", Role::List),
    ("--image", Role::Image),
    ("--save", Role::Save),
    ("--all", Role::All),
];

fn option(word: &[u8]) -> Role {
    OPTIONS
        .iter()
        .find(|(name, _)| same(word, name.as_bytes()))
        .map_or(Role::Wrong, |(_, role)| *role)
}

// What word i is, behind a word that is `before`; no option's name stands before the first.
pub fn role_of(host: &Host, before: Role, i: usize) -> Role {
    match before {
        Role::Counts => Role::CountsFile,
        Role::List => Role::ListFile,
        Role::Image => Role::ImageFile,
        Role::Save => Role::SaveFile,
        _ if dashed_at(host, i) => option(host.word(i).bytes()),
        _ => Role::Trace,
    }
}

// ---- looking at all words, before anything is read

fn source(host: &Host, l: Taken, i: usize) -> Taken {
    let sources = after(l.sources);
    if is_input(host, i) {
        return Taken {
            sources,
            inputs: after(l.inputs),
            ..l
        };
    }
    Taken { sources, ..l }
}

// One file is saved, and the counts of one image are gone on from.
fn is_wrong(asked: Wear, role: Role) -> bool {
    match role {
        Role::Image => asked.image.is_some(),
        Role::Save => asked.save.is_some(),
        _ => role == Role::Wrong,
    }
}

fn seen(host: &Host, mut l: Taken, role: Role, i: usize) -> Taken {
    match role {
        Role::Trace | Role::CountsFile | Role::ListFile => source(host, l, i),
        Role::ImageFile => {
            l.asked.image = Some(i);
            source(host, l, i)
        }
        Role::SaveFile => {
            l.asked.save = Some(i);
            l
        }
        Role::All => {
            l.asked.all = true;
            l
        }
        Role::Counts | Role::List | Role::Image | Role::Save | Role::Wrong => l,
    }
}

fn lacks<T>(host: &Host, i: usize, wrong: Wrong) -> Option<T> {
    complain(host, Command::Wear, i, wrong);
    None
}

fn look(host: &Host, next: usize, end: usize) -> Option<Taken> {
    let mut l = Taken {
        asked: Wear {
            image: None,
            save: None,
            all: false,
        },
        sources: 0,
        inputs: 0,
    };
    let mut role = Role::All;
    for i in next..end {
        role = role_of(host, role, i);
        if is_wrong(l.asked, role) {
            return lacks(host, i, Wrong::TooMany);
        }
        l = seen(host, l, role, i);
    }
    if matches!(role, Role::Counts | Role::List | Role::Image | Role::Save) {
        return lacks(host, end, Wrong::Missing);
    }
    Some(l)
}

// The words go from `next` to before `end`; none where one was wrong, and that was said. Something is there to be counted, and standard input
// is read once.
pub fn asked(host: &Host, next: usize, end: usize) -> Option<Wear> {
    let l = look(host, next, end)?;
    if l.sources == 0 {
        return lacks(host, end, Wrong::Sources);
    }
    if 1 < l.inputs {
        trouble(
            host,
            b"only one of TRACE, --list, --counts and --image can be standard input\n",
        );
        return None;
    }
    Some(l.asked)
}
