// What is said on standard error.
use host::{Host, STDERR};

pub fn say(host: &Host, text: &[u8]) {
    host.write_all(STDERR, text);
}

// A file that is read, by the word that names it.
pub fn name(host: &Host, word: usize) {
    if words::is_input(host, word) {
        return say(host, b"standard input");
    }
    say(host, host.word(word).bytes());
}

pub fn number(host: &Host, n: usize) {
    host.print_decimal(STDERR, n as u64);
}

// `45h`
pub fn byte(host: &Host, b: u8) {
    let [high, low] = text::hex(b);
    say(host, &[high, low, b'h']);
}
