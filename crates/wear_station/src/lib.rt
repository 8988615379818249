// The command `wear`: how many ended or cut cycles touched each group of the array, over traces that are run one after another, each from
// delivery, over files of counts, and from the counts of an image on.
#![tactic(auto)]

mod imaged;
mod list;
mod show;
mod source;
mod stored;
mod work;

use files::shape;
use host::Host;
use parts::Verdict;
use source::{Source, Told};
use words::wearing::{Role, Wear};
use work::Worn;

// ---- the words, in their order

fn named(w: Worn, role: Role, source: Source<'_>, counts: &mut [u32]) -> Result<Worn, Told> {
    match role {
        Role::Trace => work::one_trace(w, source, counts),
        Role::CountsFile => work::one_counts(w, source, counts),
        Role::ListFile => list::one_list(w, source, counts),
        _ => Ok(w),
    }
}

fn word(host: &Host, w: Worn, role: Role, i: usize, counts: &mut [u32]) -> Result<Worn, Told> {
    let name = host.word(i);
    let source = Source {
        host,
        is_input: words::is_input(host, i),
        name: name.bytes(),
    };
    named(w, role, source, counts)
}

fn take_words(
    host: &Host,
    mut w: Worn,
    next: usize,
    end: usize,
    counts: &mut [u32],
) -> Result<Worn, Told> {
    let mut role = Role::All;
    for i in next..end {
        role = words::wearing::role_of(host, role, i);
        w = word(host, w, role, i, counts)?;
    }
    Ok(w)
}

// ---- behind them

// The total is a walk's, the worst is held.
fn tell_all(host: &Host, asked: Wear, part: u8, w: Worn, counts: &[u32]) -> bool {
    if asked.all {
        return show::all(host, counts);
    }
    let r = wear::report(part, counts);
    match r.verdict {
        Ok(()) => show::told(host, part, r.total, w, counts),
        Err(_) => false,
    }
}

// Counts that go on from an image are saved in one.
fn saved(host: &Host, asked: Wear, part: u8, image: &[u8], counts: &[u32]) -> bool {
    match asked.image {
        Some(_) => imaged::save(host, asked.save, image, counts),
        None => stored::save(host, asked.save, part, counts),
    }
}

// The file stands before anything is told.
fn ended(host: &Host, asked: Wear, w: Worn, image: &[u8], counts: &mut [u32]) -> bool {
    let Some(part) = w.part else {
        words::trouble(
            host,
            b"no list names a trace, and there is no file of counts\n",
        );
        return false;
    };
    let counts = fitted::counts(part, counts);
    saved(host, asked, part, image, counts) && tell_all(host, asked, part, w, counts)
}

// ---- before them

// The bytes of the image, none where none is asked for.
fn read_image<'a>(host: &Host, asked: Wear, to: &'a mut [u8]) -> Result<&'a [u8], Told> {
    match asked.image {
        Some(word) => files::contents(host, word, to).ok_or(Told),
        None => Ok(b""),
    }
}

fn begun(host: &Host, asked: Wear, image: &[u8], counts: &mut [u32]) -> Result<Worn, Told> {
    match asked.image {
        Some(word) => imaged::begun(host, word, image, counts),
        None => Ok(Worn::nothing_yet()),
    }
}

// Whether all was answered. The image is read once, and first, wherever its word stands: standard input is not there a second time. The counts
// of the largest part fit.
fn worked(host: &Host, asked: Wear, next: usize, end: usize) -> Result<bool, Told> {
    let mut counts = [0u32; 8192];
    let mut room = [0u8; shape::ROOM];
    let image = read_image(host, asked, &mut room)?;
    let first = begun(host, asked, image, &mut counts)?;
    let w = take_words(host, first, next, end, &mut counts)?;
    Ok(ended(host, asked, w, image, &mut counts))
}

// ---- the command: `next` is the first word behind `wear`, and the words end before `end`

// False where nothing, or not all, could be answered: standard error has the reason.
pub fn wear_command(host: &Host, next: usize, end: usize) -> bool {
    match words::wearing::asked(host, next, end) {
        Some(asked) => matches!(worked(host, asked, next, end), Ok(true)),
        None => false,
    }
}
