// Counts as they are typed: `5=3;` gives group 5 a count of 3, `*=3;` each group; a group that is not named has 0.
ghost use Rattle.std.specs.Prelude.{◌≡◌, take};

use crate::{ended, set, with_digit};

#[derive(Clone, Copy)]
enum Groups {
    One(usize),
    All,
}

// What was read of the entry under way.
#[derive(Clone, Copy)]
struct Entry {
    value: usize,
    groups: Groups,
}

// The first n counts; all of a buffer that has fewer.
pub fn first(counts: &mut [u32], n: usize) -> &mut [u32]
    ensures { result.now ≡ take n counts.old }
{
    let most = n.min(counts.len());
    &mut counts[..most]
}

// ---- reading

// At most the top.
pub fn narrow(n: usize) -> u32 {
    u32::try_from(n).unwrap_or(u32::MAX)
}

fn turned(entry: Entry, x: u8) -> Entry {
    match (x, entry.groups) {
        (b'*', _) => Entry {
            value: 0,
            groups: Groups::All,
        },
        (b'=', Groups::One(_)) => Entry {
            value: 0,
            groups: Groups::One(entry.value),
        },
        (b'=', Groups::All) => Entry {
            value: 0,
            groups: Groups::All,
        },
        _ => Entry {
            value: with_digit(entry.value, x),
            groups: entry.groups,
        },
    }
}

fn enter(counts: &mut [u32], typed: &[u8]) {
    let nothing = Entry {
        value: 0,
        groups: Groups::One(0),
    };
    let entry = typed.iter().fold(nothing, |entry, x| turned(entry, *x));
    let count = narrow(entry.value);
    match entry.groups {
        Groups::One(group) => set(counts, group, count),
        Groups::All => counts.fill(count),
    }
}

pub fn read(counts: &mut [u32], typed: &[u8]) {
    for entry in ended(typed, b';') {
        enter(counts, entry);
    }
}
