// The words of a command line, made into a job. What is wrong with a word is said on standard error at once. And the words that more than
// one command answers with.
#![tactic(auto)]

pub mod answer;
mod bytes;
pub mod form;
pub mod imaging;
mod job;
pub mod looking;
mod reader;
pub mod report;
pub mod status;
pub mod tracing;
mod value;
pub mod wearing;
mod wrong;

pub use bytes::{data, read_all};
use host::{Host, STDERR};
pub use job::{
    Job, asked, bench_asked, capture_asked, complain_hex, hex_asked, power_asked, text_asked,
};
use parts::Refusal;
pub use value::same;

// ---- complaints

fn tell(host: &Host, text: &[u8]) {
    host.write_all(STDERR, text);
}

// What is wrong, in a line behind the program's name.
pub fn trouble(host: &Host, what: &[u8]) {
    tell(host, b"sapwoodle: ");
    tell(host, what);
    status::trouble(host);
}

// What the system did not do, with its own reason: to be called before anything else is asked of it.
pub fn failed(host: &Host, what: &[u8]) {
    tell(host, b"sapwoodle: ");
    host.fail(what);
    status::trouble(host);
}

// Standard output did not take all. Where nobody reads it any more, nobody is told.
pub fn unsaid(host: &Host) {
    if host.is_unread() {
        return status::trouble(host);
    }
    failed(host, b"standard output");
}

// ---- answers

// What a refusal that ends a begun driver means at a bench, and what to look at first.
pub fn say_advice(host: &Host, r: Refusal) -> bool {
    let advice = match r {
        Refusal::NoSelect(_) => {
            "look at the enable straps first; or the chip is busy, or there is none"
        }
        Refusal::NoData(_) => "Write Control is high, or the identification page is locked",
        Refusal::PollsUsed => "the chip stayed busy longer than the budget of polls",
        _ => "the chip answered its select, so look at the line, not at the board",
    };
    host.say(advice.as_bytes())
}

// The name of a part of the part table.
pub fn say_name(host: &Host, part: u8) -> bool {
    let name = parts::name_of(part);
    let bytes = name.bytes;
    let n = name.length;
    host.say(&bytes[..n])
}

// ---- words

// Whether word i is this one.
pub fn is(host: &Host, i: usize, this: &[u8]) -> bool {
    same(host.word(i).bytes(), this)
}

// Whether a word stands for standard input.
pub fn is_input(host: &Host, i: usize) -> bool {
    is(host, i, b"-")
}

// The word behind.
pub fn after(i: usize) -> usize {
    i.saturating_add(1)
}

fn dashed_at(host: &Host, i: usize) -> bool {
    host.word(i).bytes().starts_with(b"--")
}

// The first word from one on that begins with `--`, or the end.
fn files_end(host: &Host, next: usize, end: usize) -> usize {
    (next..end).find(|i| dashed_at(host, *i)).unwrap_or(end)
}

// How many words stand for standard input.
fn inputs(host: &Host, next: usize, end: usize) -> usize {
    (next..end).filter(|i| is_input(host, *i)).count()
}
