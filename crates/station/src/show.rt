// The bytes of a read, for people. Each function is told whether the lines before it were written, and says so of its own.
use host::Host;
use words::answer::say;
use words::report::onward;

fn hex(host: &Host, ok: bool, b: u8) -> bool {
    let d = text::small_hex(b);
    say(host, ok, &[b' ', d[0], d[1]])
}

fn address(host: &Host, ok: bool, from: usize, i: usize) -> bool {
    let at = onward(from, i);
    let mut text = [0u8; 16];
    let k = io::hex(at as u64, 4, &mut text);
    say(host, ok, &text[..k])
}

// 16 bytes to a line, behind the address of the first.
fn row(host: &Host, ok: bool, from: usize, i: usize) -> bool {
    if i % 16 != 0 {
        return ok;
    }
    if i == 0 {
        return say(host, address(host, ok, from, i), b":");
    }
    let ended = say(host, ok, b"\n");
    say(host, address(host, ended, from, i), b":")
}

pub fn dump(host: &Host, ok: bool, from: usize, shown: &[u8]) -> bool {
    let told = shown
        .iter()
        .enumerate()
        .fold(ok, |told, (i, b)| hex(host, row(host, told, from, i), *b));
    if shown.is_empty() {
        return told;
    }
    say(host, told, b"\n")
}
