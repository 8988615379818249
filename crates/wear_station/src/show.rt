// What is told of the counts. Each function is told whether the lines before it were written, and says so of its own.
use crate::work::Worn;
use host::Host;
use image_station::show::{big, worn};
use wear::Most;
use words::answer::{address, number, say};
use words::report::{first_of, or_more};
use words::{answer, report};

const BARS: usize = 10;

// `1 trace`, `3 traces`
fn some(host: &Host, ok: bool, n: usize, name: &[u8]) -> bool {
    let told = number(host, ok, n);
    let named = say(host, told, name);
    if n == 1 {
        named
    } else {
        say(host, named, b"s")
    }
}

// ---- the first three lines

fn head(host: &Host, part: u8, size: usize, groups: usize, w: Worn) -> bool {
    let parted = image_station::show::part_named(host, true, part, b", ");
    let two = some(host, say(host, parted, b": "), groups, b" group");
    let three = some(host, say(host, two, b" of "), size, b" byte");
    let four = some(host, say(host, three, b"; "), w.traces, b" trace");
    let five = some(host, say(host, four, b", "), w.cycles, b" cycle");
    say(host, five, b"\n")
}

fn total(host: &Host, ok: bool, sum: u64, most: u32) -> bool {
    let told = big(host, say(host, ok, b"total "), sum);
    say(host, or_more(host, told, most), b"\n")
}

fn two_digits(host: &Host, ok: bool, n: u64) -> bool {
    let tens = big(host, ok, n / 10 % 10);
    big(host, tens, n % 10)
}

// Of the cycles that the data sheets name, at 25 degrees; cut, not rounded.
fn percent(host: &Host, ok: bool, count: u32) -> bool {
    let n = count as u64 * 10000 / 4000000;
    let whole = say(host, big(host, ok, n / 100), b".");
    say(host, two_digits(host, whole, n % 100), b" % of 4000000\n")
}

fn most(host: &Host, ok: bool, size: usize, worst: Most) -> bool {
    let told = report::most(host, ok, size, worst.group, worst.count);
    percent(host, say(host, told, b", "), worst.count)
}

// ---- the bars

fn columns(most: u32) -> usize {
    let mut text = [0u8; 20];
    io::decimal(most as u64, &mut text)
}

// Forty characters for the most, one at the least.
fn share(count: u32, most: u32) -> usize {
    if most == 0 {
        return 0;
    }
    (count as usize * 40 / most as usize).max(1)
}

fn row(host: &Host, ok: bool, n: usize) -> bool {
    let marks = [b'#'; 40];
    say(host, ok, &marks[..n.min(40)])
}

// A group that is not worn has no bar.
fn bar(host: &Host, ok: bool, size: usize, top: Most, most: u32) -> bool {
    if top.count == 0 {
        return ok;
    }
    let named = say(host, address(host, ok, first_of(top.group, size)), b"  ");
    let counted = named && answer::written(host, host.say_right(top.count as usize, columns(most)));
    let drawn = row(host, say(host, counted, b" "), share(top.count, most));
    say(host, drawn, b"\n")
}

// Whether a group stands behind another in the order of the bars: most first, lowest group first on a tie.
fn behind(group: usize, count: u32, last: Most) -> bool {
    count < last.count || (count == last.count && last.group < group)
}

fn better(best: Most, group: usize, count: u32, last: Most) -> Most {
    if behind(group, count, last) && best.count < count {
        Most { group, count }
    } else {
        best
    }
}

// The first of those that stand behind another; a count of 0 where none is worn.
fn next(counts: &[u32], last: Most) -> Most {
    let mut best = Most { group: 0, count: 0 };
    for (group, count) in counts.iter().enumerate() {
        best = better(best, group, *count, last);
    }
    best
}

fn bars(host: &Host, ok: bool, size: usize, first: Most, counts: &[u32]) -> bool {
    let mut told = ok;
    let mut top = first;
    for _ in 0..BARS {
        told = bar(host, told, size, top, first.count);
        top = next(counts, top);
    }
    told
}

fn rest(host: &Host, ok: bool, worn: usize) -> bool {
    if worn <= BARS {
        return ok;
    }
    let told = some(host, say(host, ok, b"and "), worn - BARS, b" more group");
    say(host, told, b"\n")
}

// ---- all of it

// For people: the sum, the worst, which is the first bar, and the bars.
pub fn told(host: &Host, part: u8, sum: u64, w: Worn, counts: &[u32]) -> bool {
    let size = parts::facts_of(part).group;
    let one = head(host, part, size, counts.len(), w);
    let two = total(host, one, sum, w.worst.count);
    let three = most(host, two, size, w.worst);
    let four = bars(host, three, size, w.worst, counts);
    rest(host, four, worn(counts))
}

fn line(host: &Host, ok: bool, group: usize, count: u32) -> bool {
    if count == 0 {
        return ok;
    }
    let named = number(host, ok, group);
    let told = number(host, say(host, named, b" "), count as usize);
    say(host, told, b"\n")
}

// For other tools: each group that is worn, and its count.
pub fn all(host: &Host, counts: &[u32]) -> bool {
    let mut told = true;
    for (group, count) in counts.iter().enumerate() {
        told = line(host, told, group, *count);
    }
    told
}
