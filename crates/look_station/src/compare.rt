// Two files, page by page. Each function that tells is told whether the lines before it were written, and says so of its own.
use crate::source;
use crate::source::Stored;
use host::Host;
use parts::Refusal;
use words::answer::{address, byte, count, differs, number, say};
use words::looking::Comparing;
use words::report::{Ground, first_of, onward};
use words::{report, status};

// How many bytes of a stretch differ, one or more, and the place of the first.
#[derive(Clone, Copy)]
struct Unlike {
    bytes: usize,
    first: usize,
}

// How many pages differ, and in how many bytes.
#[derive(Clone, Copy)]
struct Tally {
    pages: usize,
    bytes: usize,
}

// Standard output did not take a line, which was said.
#[derive(Clone, Copy)]
struct Untold;

// ---- a page

// What differs from a place on up to another.
fn unlike_in(one: &[u8], two: &[u8], from: usize, end: usize) -> Option<Unlike> {
    let first = (from..end).find(|at| differs(one, two, *at))?;
    let bytes = (first..end).filter(|at| differs(one, two, *at)).count();
    Some(Unlike { bytes, first })
}

fn counted(host: &Host, ok: bool, bytes: usize) -> bool {
    if bytes == 1 {
        return say(host, ok, b": 1 byte differs, first ");
    }
    let told = number(host, say(host, ok, b": "), bytes);
    say(host, told, b" bytes differ, first ")
}

// The end of a line: how many, and the first as each file has it.
fn tell_unlike(host: &Host, ok: bool, u: Unlike, one: &[u8], two: &[u8]) -> bool {
    let at = u.first;
    let there = say(host, address(host, counted(host, ok, u.bytes), at), b": ");
    let left = byte(host, there, parts::byte_at(one, at));
    let right = byte(host, say(host, left, b", "), parts::byte_at(two, at));
    say(host, right, b"\n")
}

// ---- the array

fn page(
    host: &Host,
    t: Tally,
    size: usize,
    p: usize,
    one: &[u8],
    two: &[u8],
) -> Result<Tally, Untold> {
    let from = first_of(p, size);
    let Some(u) = unlike_in(one, two, from, onward(from, size)) else {
        return Ok(t);
    };
    let ground = Ground {
        page: size,
        ident: false,
        from: 0,
    };
    if !tell_unlike(host, report::page(host, true, ground, p), u, one, two) {
        return Err(Untold);
    }
    Ok(Tally {
        pages: t.pages.saturating_add(1),
        bytes: t.bytes.saturating_add(u.bytes),
    })
}

fn pages(host: &Host, size: usize, n: usize, one: &[u8], two: &[u8]) -> Result<Tally, Untold> {
    let mut t = Tally { pages: 0, bytes: 0 };
    for p in 0..n {
        t = page(host, t, size, p, one, two)?;
    }
    Ok(t)
}

fn page_count(part: u8) -> usize {
    let f = parts::facts_of(part);
    f.size / f.page
}

// ---- what else there is

fn ident(host: &Host, unlike: Option<Unlike>, one: &[u8], two: &[u8]) -> bool {
    match unlike {
        Some(u) => tell_unlike(host, say(host, true, b"identification page"), u, one, two),
        None => true,
    }
}

fn lock(host: &Host, ok: bool, one: bool, two: bool) -> bool {
    if one == two {
        return ok;
    }
    if one {
        say(host, ok, b"lock: locked, unlocked\n")
    } else {
        say(host, ok, b"lock: unlocked, locked\n")
    }
}

// The last line, of what differs.
fn total(host: &Host, ok: bool, t: Tally, all: usize) -> bool {
    status::refused(host);
    let paged = number(host, say(host, ok, b"pages "), t.pages);
    let among = number(host, say(host, paged, b" of "), all);
    count(host, among, b" differ, bytes ", t.bytes)
}

// Two chips of a part.
fn tell(host: &Host, part: u8, one: Stored<'_>, two: Stored<'_>) -> bool {
    let all = page_count(part);
    let size = parts::facts_of(part).page;
    let Ok(t) = pages(host, size, all, one.array, two.array) else {
        return false;
    };
    let unlike = unlike_in(one.id, two.id, 0, one.id.len());
    if t.pages == 0 && unlike.is_none() && one.locked == two.locked {
        return say(host, true, b"same\n");
    }
    let told = ident(host, unlike, one.id, two.id);
    total(host, lock(host, told, one.locked, two.locked), t, all)
}

// ---- the files

// The first that names a part says it.
fn said(host: &Host, l: Comparing, one: &[u8], two: &[u8]) -> Option<u8> {
    source::said(host, l.part, l.one, one).or_else(|| source::said(host, l.part, l.two, two))
}

fn look(host: &Host, l: Comparing, one: &[u8], two: &[u8]) -> bool {
    let Some(part) = said(host, l, one, two) else {
        files::complain(
            host,
            l.one,
            b": names no part: write PART before the files\n",
        );
        return false;
    };
    source::load(host, l.one, part, one, |first| {
        source::load(host, l.two, part, two, |second| {
            tell(host, part, first, second)
        })
    })
}

// 1 is given before a file is looked at.
pub(crate) fn open(host: &Host, l: Comparing) -> bool {
    if source::unknown(l.part) {
        return source::refuse(host, Refusal::NoPart);
    }
    source::read(host, l.one, |one| {
        source::read(host, l.two, |two| look(host, l, one, two))
    })
}
