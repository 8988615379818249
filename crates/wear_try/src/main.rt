// Tries calls of `wear`, one for each line of the input, and prints what each answers. A line is a letter for the call (`call`), its numbers and,
// after a colon, what is tried; behind a slash the counts that stand before the call (`cases::counts`), and behind another the events (`events`) or the
// counts that are joined to them.
#![tactic(auto)]

mod counts;
mod events;
mod runs;

use cases::told::{tell, tell_fine};
use cases::{ended, first, halves, label, numbers};
use host::{Host, STDIN};
use text::narrow;

// More than any part has groups.
const MOST: usize = 8200;

fn counts_of(typed: &[u8]) -> [u32; MOST] {
    let mut own = [0u32; MOST];
    cases::counts::read(&mut own, typed);
    own
}

// ---- the calls without a chip

// The part and the counts lent.
fn tell_report(host: &Host, v: [usize; 16], typed: &[u8]) {
    let own = counts_of(typed);
    let shown = first(&own, v[1]);
    counts::tell_report(host, narrow(v[0]), shown);
    counts::tell_found(host, narrow(v[0]), shown);
}

// The numbers are the counts lent, a group and its count.
fn tell_borne(host: &Host, v: [usize; 16], typed: &[u8]) {
    let own = counts_of(typed);
    counts::tell_borne(host, first(&own, v[0]), counts::most(v[1], v[2]));
}

// The part, and how many counts are lent of either. All that was lent is told, refused or not: what lies behind the lengths too.
fn tell_join(host: &Host, v: [usize; 16], one: &[u8], two: &[u8]) {
    let mut own = counts_of(one);
    let other = counts_of(two);
    let verdict = wear::join(
        narrow(v[0]),
        cases::counts::first(&mut own, v[1]),
        first(&other, v[2]),
    );
    tell_fine(host, verdict);
    host.say(b"; first");
    counts::tell_worn(host, &own);
    host.say(b"; second");
    counts::tell_worn(host, &other);
}

// ---- the lines

fn call(host: &Host, letter: u8, v: [usize; 16], typed: &[u8]) {
    let (counted, behind) = halves(typed, b'/');
    match letter {
        b'g' => tell(host, b"groups ", wear::groups(narrow(v[0]))),
        b'w' => tell_report(host, v, typed),
        b'j' => tell_join(host, v, counted, behind),
        b'b' => tell_borne(host, v, typed),
        b'c' => counts::tell_worse(host, counts::most(v[0], v[1]), counts::most(v[2], v[3])),
        b'm' => runs::tell_mark(host, v, counted, behind),
        b't' => runs::tell_runs(host, v, true, counted, behind),
        _ => runs::tell_runs(host, v, false, counted, behind),
    }
}

fn one(host: &Host, line: &[u8]) {
    if let Some(letter) = line.first() {
        let (tried, typed) = halves(label(line), b'/');
        host.say(tried);
        host.say(b": ");
        call(host, *letter, numbers(line), typed);
        host.say(b"\n");
    }
}

fn main(rt: HostRuntime) {
    let host = Host::new(rt);
    let mut buf = [0u8; 262144];
    let n = host.read_full(STDIN, &mut buf);
    for line in ended(&buf[..n], b'\n') {
        one(&host, line);
    }
}
