// The table of parts, in columns that stand one below the other. Each function is told whether what stands before it was written, and says so
// of its own.
use host::Host;
use words::answer::{number, say, written};

// A number at the right end of its column.
fn right(host: &Host, ok: bool, n: usize, columns: usize) -> bool {
    ok && written(host, host.say_right(n, columns))
}

// At the left end of a column, blanks behind it.
fn left(host: &Host, ok: bool, name: &[u8]) -> bool {
    let mut cell = [b' '; 12];
    parts::copy(&mut cell, 0, name);
    say(host, ok, &cell)
}

fn named(host: &Host, ok: bool, part: u8) -> bool {
    let name = parts::name_of(part);
    left(host, ok, &name.bytes[..name.length])
}

// A column of one of two texts.
fn has(host: &Host, ok: bool, there: bool, yes: &[u8], no: &[u8]) -> bool {
    say(host, ok, if there { yes } else { no })
}

fn enables(host: &Host, ok: bool, n: u8) -> bool {
    if n < 2 {
        return say(host, ok, b"0\n");
    }
    say(
        host,
        number(host, say(host, ok, b"0-"), text::wide(n - 1)),
        b"\n",
    )
}

fn line(host: &Host, ok: bool, part: u8) -> bool {
    let f = parts::facts_of(part);
    let one = named(
        host,
        say(host, number(host, ok, text::wide(part)), b"    "),
        part,
    );
    let two = right(host, right(host, one, f.size, 5), f.page, 5);
    let three = right(
        host,
        right(host, two, f.group, 6),
        parts::address_bytes(f),
        8,
    );
    let four = has(host, three, f.ident, b" yes   ", b" no    ");
    let five = has(host, four, f.pin, b"yes ", b"no  ");
    enables(host, five, f.enables)
}

// The parts are numbered from 0 on.
pub(crate) fn tell(host: &Host) -> bool {
    let mut told = say(
        host,
        true,
        b"part name        array page group address ident pin enables\n",
    );
    for part in 0..u8::MAX {
        if !parts::facts_of(part).known {
            break;
        }
        told = line(host, told, part);
    }
    told
}
