// Intel HEX, by lines of standard input. `t PART LENGTH TEXT` reads a text: `/` is LF, `~` CR, `@` the byte 0 and `^` the byte 200. `g` reads a
// text made of records, `w` writes an array and reads it back: the numbers of both are said below. Every buffer is filled first, so that each
// answer also tells what was left alone.
#![tactic(auto)]

use cases::told::{tell, tell_done};
use cases::{Laid, ended, fill, first, mixed, numbers};
use host::{Host, STDIN};
use text::narrow;

// ---- what is told

fn tell_read(host: &Host, part: u8, text: &[u8], array: &mut [u8]) {
    fill(array, 7);
    let r = hexfile::read(part, text, array);
    tell_done(host, r.verdict);
    tell(host, b", records ", r.records);
    tell(host, b", named ", r.named);
    tell(host, b", array ", mixed(array));
    host.say(b"\n");
}

// Of a length of the array; 0 stands for the part's own.
fn lent(host: &Host, part: u8, length: usize, text: &[u8], array: &mut [u8]) {
    let n = match length {
        0 => parts::facts_of(part).size,
        n => n,
    };
    tell_read(host, part, text, fitted::first(array, n));
}

// ---- texts that are typed

fn meant(x: u8) -> u8 {
    match x {
        b'/' => b'\n',
        b'~' => b'\r',
        b'@' => 0,
        b'^' => 200,
        _ => x,
    }
}

// The text stands behind the third space of the line.
fn typed(host: &Host, line: &[u8], text: &mut [u8], array: &mut [u8]) {
    let [part, length, ..] = numbers(line);
    let mut laid = Laid::new(text);
    if let Some(typed) = line.splitn(4, |x| *x == b' ').nth(3) {
        for x in typed {
            laid.push(meant(*x));
        }
    }
    lent(host, narrow(part), length, laid.bytes(), array);
}

// ---- texts made of records

// The end record of a text, with its line end or without.
#[derive(Clone, Copy)]
enum Last {
    Missing,
    Ended,
    Open,
}

// 0 no end record, 1 with its line end, 2 without.
fn last_of(n: usize) -> Last {
    match n {
        0 => Last::Missing,
        1 => Last::Ended,
        _ => Last::Open,
    }
}

// `g PART LENGTH RECORDS FIRST STEP BYTES DOWN SMALL CR END ODD`: record number ODD has a wrong sum, 65536 for none.
#[derive(Clone, Copy)]
struct Plan {
    records: usize,
    first: usize,
    step: usize,
    bytes: usize,
    down: bool,
    small: bool,
    cr: bool,
    last: Last,
    odd: usize,
}

fn plan_of(v: [usize; 16]) -> Plan {
    let [_, _, records, first, step, bytes, down, small, ..] = v;
    let [.., cr, end, odd, _, _, _, _, _] = v;
    Plan {
        records: records % 65536,
        first,
        step,
        bytes,
        down: down == 1,
        small: small == 1,
        cr: cr == 1,
        last: last_of(end),
        odd,
    }
}

fn low(n: usize) -> u8 {
    (n % 256) as u8
}

// The data bytes, each the low byte of its address and 3 more.
fn data_at(at: usize, i: usize) -> u8 {
    low(at % 65536 + i % 256 + 3)
}

impl Plan {
    // The address behind one: up by a step, or down, but not below 0.
    fn behind(self, at: usize) -> usize {
        if self.down {
            return at.saturating_sub(self.step);
        }
        if at < 1000000 {
            return at + self.step % 65536;
        }
        at
    }
}

// A text under way, and what the bytes of its last record add up to.
#[derive(Drop)]
struct Records<'a> {
    text: Laid<'a>,
    small: bool,
    cr: bool,
    sum: u8,
}

impl<'a> Records<'a> {
    fn add_byte(&mut self, x: u8) {
        let digits = if self.small {
            text::small_hex(x)
        } else {
            text::hex(x)
        };
        self.text.extend(&digits);
        self.sum = self.sum.wrapping_add(x);
    }

    fn add_end(&mut self) {
        self.text.extend(if self.cr { b"\r\n" } else { b"\n" });
    }

    // ':' and the first four bytes of a record.
    fn add_head(&mut self, head: [u8; 4]) {
        self.text.push(b':');
        self.sum = 0;
        for x in head {
            self.add_byte(x);
        }
    }

    // `off` is what the sum is off by.
    fn add_sum(&mut self, off: u8) {
        self.add_byte(self.sum.wrapping_add(off).wrapping_neg());
    }

    // A data record.
    fn add_record(&mut self, at: usize, count: usize, off: u8) {
        self.add_head([low(count), low(at / 256), low(at), 0]);
        for i in 0..count {
            self.add_byte(data_at(at, i));
        }
        self.add_sum(off);
        self.add_end();
    }

    fn add_last(&mut self, last: Last) {
        if let Last::Missing = last {
            return;
        }
        self.add_head([0, 0, 0, 1]);
        self.add_sum(0);
        if let Last::Ended = last {
            self.add_end();
        }
    }
}

fn make<'a>(text: &'a mut [u8], plan: Plan) -> Laid<'a> {
    let mut made = Records {
        text: Laid::new(text),
        small: plan.small,
        cr: plan.cr,
        sum: 0,
    };
    let mut at = plan.first;
    for i in 0..plan.records {
        made.add_record(at, plan.bytes, u8::from(i == plan.odd));
        at = plan.behind(at);
    }
    made.add_last(plan.last);
    made.text
}

fn made(host: &Host, line: &[u8], text: &mut [u8], array: &mut [u8]) {
    let v = numbers(line);
    let laid = make(text, plan_of(v));
    let text = laid.bytes();
    tell(host, b"text of ", text.len());
    tell(host, b" bytes, ", mixed(text));
    host.say(b": ");
    lent(host, narrow(v[0]), v[1], text, array);
}

// ---- arrays written, and read back

fn back(host: &Host, part: u8, text: &[u8], array: &mut [u8]) {
    let before = mixed(array);
    fill(array, 99);
    let r = hexfile::read(part, text, array);
    host.say(b"; back ");
    tell_done(host, r.verdict);
    tell(host, b", records ", r.records);
    tell(host, b", named ", r.named);
    if before == mixed(array) {
        host.say(b", the same");
    }
}

fn told(host: &Host, part: u8, text: &mut [u8], array: &mut [u8]) {
    let w = hexfile::write(part, array, text);
    tell_done(host, w.verdict);
    tell(host, b", length ", w.length);
    tell(host, b", text ", mixed(text));
    back(host, part, first(text, w.length), array);
    host.say(b"\n");
}

// `w PART LENGTH ROOM FIRST`: an array of so many bytes from the first on, into so much room.
fn written(host: &Host, line: &[u8], text: &mut [u8], array: &mut [u8]) {
    let [part, length, room, from, ..] = numbers(line);
    fill(text, 1);
    fill(array, narrow(from));
    told(
        host,
        narrow(part),
        fitted::first(text, room),
        fitted::first(array, length),
    );
}

// ---- lines

fn one(host: &Host, line: &[u8], text: &mut [u8], array: &mut [u8]) {
    let Some(letter) = line.first() else {
        return;
    };
    host.say(line);
    host.say(b"\n  ");
    match letter {
        b't' => typed(host, line, text, array),
        b'g' => made(host, line, text, array),
        _ => written(host, line, text, array),
    }
}

fn main(rt: HostRuntime) {
    let host = Host::new(rt);
    let mut input = io::large_buffer();
    let n = host.read_full(STDIN, &mut input);
    let mut text = [0u8; 92200];
    let mut array = [0u8; 32769];
    for line in ended(&input[..n], b'\n') {
        one(&host, line, &mut text, &mut array);
    }
}
