// What is told of an image and of counts. Each function is told whether what stands before it was written, and says so of its own.
use host::Host;
use parts::Verdict;
use wear::Most;
use words::answer;
use words::answer::{address, number, say};
use words::report::{first_of, or_more};

// ---- counts

pub fn big(host: &Host, ok: bool, n: u64) -> bool {
    let mut text = [0u8; 20];
    let k = io::decimal(n, &mut text);
    say(host, ok, &text[..k])
}

// How many groups are worn.
pub fn worn(counts: &[u32]) -> usize {
    counts.iter().filter(|count| 0 < **count).count()
}

// ---- an image

// The part's number and its name.
pub fn part_named(host: &Host, ok: bool, part: u8, between: &[u8]) -> bool {
    let named = say(
        host,
        number(host, say(host, ok, b"part "), text::wide(part)),
        between,
    );
    named && answer::written(host, words::say_name(host, part))
}

fn lock(host: &Host, ok: bool, locked: bool) -> bool {
    if locked {
        say(host, ok, b", locked, ")
    } else {
        say(host, ok, b", unlocked, ")
    }
}

fn head(host: &Host, version: u8, image: &[u8]) -> bool {
    let one = number(host, say(host, true, b"EPR version "), text::wide(version));
    let two = part_named(host, say(host, one, b", "), image::part_in(image), b" ");
    let three = lock(host, two, image::lock_in(image));
    say(host, number(host, three, image.len()), b" bytes; ")
}

// The group with most; none where none is worn.
fn most(host: &Host, ok: bool, size: usize, worst: Most) -> bool {
    if worst.count == 0 {
        return ok;
    }
    let named = number(host, say(host, ok, b", most group "), worst.group);
    let there = address(host, say(host, named, b" ("), first_of(worst.group, size));
    let told = big(host, say(host, there, b") "), worst.count as u64);
    or_more(host, told, worst.count)
}

fn tally(host: &Host, ok: bool, part: u8, worst: Most, counts: &[u32]) -> bool {
    let f = parts::facts_of(part);
    let r = wear::report(part, counts);
    match r.verdict {
        Ok(()) => {
            let one = number(host, say(host, ok, b"worn groups "), worn(counts));
            let two = big(host, say(host, one, b", total "), r.total);
            let three = most(host, or_more(host, two, worst.count), f.group, worst);
            say(host, three, b"\n")
        }
        Err(_) => false,
    }
}

// An image in one line, with its counts and their worst beside it.
pub fn info(host: &Host, image: &[u8], worst: Most, counts: &[u32]) -> bool {
    let version = parts::byte_at(image, 4);
    let told = head(host, version, image);
    if version == 1 {
        return say(host, told, b"no counts\n");
    }
    tally(host, told, image::part_in(image), worst, counts)
}
