// What a run of driver and chip is answered with, for the commands that have one. Each function is told whether the lines before it were
// written, and says so of its own.
use crate::answer;
use crate::answer::{address, bytes, count, number, say};
use host::Host;
use parts::{Refusal, Verdict};

// Where the bytes of a request lie: the bytes of a page, which of the two memories, and the first place.
#[derive(Clone, Copy)]
pub struct Ground {
    pub page: usize,
    pub ident: bool,
    pub from: usize,
}

// Where a count of wear stays.
const FULL: u32 = 4294967295;

// ---- what was refused

// The address of the i-th byte from one on. What is shown lies in an array, so neither this sum nor the product below is too large.
pub fn onward(from: usize, i: usize) -> usize {
    from.saturating_add(i)
}

// The first address of a page, and its last.
pub fn first_of(page: usize, size: usize) -> usize {
    page.saturating_mul(size)
}

fn last_of(page: usize, size: usize) -> usize {
    onward(first_of(page, size), size).saturating_sub(1)
}

// A page's number, and its addresses.
pub fn page(host: &Host, ok: bool, g: Ground, p: usize) -> bool {
    if g.ident {
        return say(host, ok, b"identification page");
    }
    let named = say(host, ok, b"page ");
    let told = number(host, named, p);
    let from = say(host, told, b" (");
    let low = address(host, from, first_of(p, g.page));
    let to = say(host, low, b" to ");
    let high = address(host, to, last_of(p, g.page));
    say(host, high, b")")
}

fn memory(host: &Host, ok: bool, g: Ground) -> bool {
    if g.ident {
        return say(host, ok, b" (location ");
    }
    say(host, ok, b" (address ")
}

// And what to look at first.
fn advised(host: &Host, ok: bool, r: Refusal) -> bool {
    let named = say(host, ok, b": ");
    if !named {
        return false;
    }
    let told = answer::written(host, crate::say_advice(host, r));
    say(host, told, b"\n")
}

fn lost(host: &Host, g: Ground, name: &[u8], p: usize, r: Refusal) -> bool {
    let named = say(host, true, name);
    let told = say(host, named, b" not acknowledged, ");
    let paged = page(host, told, g, p);
    advised(host, paged, r)
}

fn lost_data(host: &Host, g: Ground, i: usize, r: Refusal) -> bool {
    let named = say(host, true, b"data byte ");
    let told = number(host, named, i);
    let there = memory(host, told, g);
    let placed = address(host, there, onward(g.from, i));
    let all = say(host, placed, b") not acknowledged");
    advised(host, all, r)
}

// What a call is refused for, and which byte ended a run that has begun. Of a HEX file standard error has the reason; the others cannot
// come of these commands.
fn reason(host: &Host, g: Ground, r: Refusal) -> bool {
    let k = parts::verdict_place(Err(r));
    match r {
        Refusal::NoPart => answer::no_part(host, true),
        Refusal::WrongEnable => answer::wrong_enable(host, true),
        Refusal::BadEvent(_) => answer::no_pin(host, true),
        Refusal::Beyond => say(
            host,
            true,
            b"the bytes do not all lie in the array or the page, or there is no such page\n",
        ),
        Refusal::BadLimit => say(
            host,
            true,
            b"the budget goes from 1 to 1000, --ends-at from 1 to 65535\n",
        ),
        Refusal::NoSelect(_) => lost(host, g, b"select", k, r),
        Refusal::NoFirst(_) => lost(host, g, b"first address byte", k, r),
        Refusal::NoSecond(_) => lost(host, g, b"second address byte", k, r),
        Refusal::NoData(_) => lost_data(host, g, k, r),
        Refusal::PollsUsed => advised(host, say(host, true, b"polls used up"), r),
        Refusal::BadImage => answer::no_image(host, true),
        Refusal::WrongBuffer
        | Refusal::BadState
        | Refusal::ShortBuffer
        | Refusal::TooMany
        | Refusal::BadRecord(_)
        | Refusal::BadSum(_)
        | Refusal::Misplaced(_)
        | Refusal::NoEnd(_)
        | Refusal::BadSample(_)
        | Refusal::CountsLost => true,
    }
}

pub fn refused(host: &Host, g: Ground, r: Refusal) -> bool {
    answer::refused(host, r) && reason(host, g, r)
}

// The first line, which tells a refusal from a run that is done.
pub fn head(host: &Host, g: Ground, verdict: Verdict) -> bool {
    match verdict {
        Ok(()) => say(host, true, b"done\n"),
        Err(r) => refused(host, g, r),
    }
}

// The figures of a run.
pub fn figures(
    host: &Host,
    ok: bool,
    done: usize,
    asked: usize,
    polls: usize,
    cycles: usize,
    clocks: usize,
) -> bool {
    let one = bytes(host, ok, done, asked);
    let two = count(host, one, b"polls ", polls);
    let three = count(host, two, b"cycles ", cycles);
    count(host, three, b"clocks ", clocks)
}

// ---- the most worn group

// A count that stays at its top says how many there were at least.
pub fn or_more(host: &Host, ok: bool, most: u32) -> bool {
    if most == FULL {
        return say(host, ok, b" or more");
    }
    ok
}

// `most group 16, 0040h..0043h: 560`, of groups of so many bytes; with no line end.
pub fn most(host: &Host, ok: bool, size: usize, group: usize, count: u32) -> bool {
    let named = number(host, say(host, ok, b"most group "), group);
    let from = first_of(group, size);
    let there = answer::span(host, say(host, named, b", "), from, onward(from, size));
    let told = number(host, say(host, there, b": "), count as usize);
    or_more(host, told, count)
}
