// A part in a line. Each function is told whether what stands before it was written, and says so of its own.
use host::Host;
use image_station::show::part_named;
use words::answer::{number, say};

fn addressed(host: &Host, ok: bool, wide: bool) -> bool {
    if wide {
        say(host, ok, b", 2 address bytes")
    } else {
        say(host, ok, b", 1 address byte")
    }
}

fn has(host: &Host, ok: bool, there: bool, what: &[u8]) -> bool {
    let named = if there {
        say(host, ok, b", ")
    } else {
        say(host, ok, b", no ")
    };
    say(host, named, what)
}

fn enabled(host: &Host, ok: bool, enables: u8) -> bool {
    if enables < 2 {
        return say(host, ok, b", enable 0");
    }
    number(
        host,
        say(host, ok, b", enables 0 to "),
        text::wide(enables - 1),
    )
}

pub(crate) fn tell(host: &Host, part: u8) -> bool {
    let f = parts::facts_of(part);
    let named = say(host, part_named(host, true, part, b" "), b": ");
    let sized = say(host, number(host, named, f.size), b" bytes, pages of ");
    let paged = say(host, number(host, sized, f.page), b", groups of ");
    let wired = addressed(host, number(host, paged, f.group), f.wide);
    let ident = has(host, wired, f.ident, b"identification page");
    let pinned = has(host, ident, f.pin, b"Write Control pin");
    say(host, enabled(host, pinned, f.enables), b"\n")
}
