// Commands as they are typed, one after the other: the words are those of the file args, with `then` between two commands. One more compares
// two files that they left: `same A B`.
#![tactic(auto)]

use host::Host;

// ---- two files, byte for byte

fn compare(host: &Host, one: &[u8], two: &[u8]) {
    if one == two {
        host.say(b"same\n");
    } else {
        host.say(b"differ\n");
    }
}

fn compare_in(host: &Host, first: usize, a: &mut [u8], b: &mut [u8]) {
    let one = files::contents(host, first, a);
    let two = files::contents(host, first.saturating_add(1), b);
    if let (Some(one), Some(two)) = (one, two) {
        compare(host, one, two);
    }
}

// There is room for the largest image.
fn same_command(host: &Host, first: usize) {
    let mut a = [0u8; 65608];
    let mut b = [0u8; 65608];
    compare_in(host, first, &mut a, &mut b);
}

// ---- the commands

// The command from a word on; an empty line stands before it.
fn command(host: &Host, at: usize, end: usize) {
    host.say(b"\n");
    if words::is(host, at, b"same") {
        return same_command(host, at.saturating_add(1));
    }
    commands::command(host, at, end);
}

fn main(rt: HostRuntime) {
    let host = Host::new(rt);
    let count = host.arg_count();
    let mut first = 1;
    for i in 1..count {
        if words::is(&host, i, b"then") {
            command(&host, first, i);
            first = i.saturating_add(1);
        }
    }
    command(&host, first, count);
}
