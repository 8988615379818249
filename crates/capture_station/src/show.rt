// What a capture is answered with. Each function is told whether the lines before it were written, and says so of its own.
use capture::Tally;
use host::Host;
use parts::{Refusal, Verdict};
use words::answer::{count, number, say};
use words::{answer, status};

// A clock in its byte: how many clocks of the byte came before it, which byte behind the last Start, counted from 1, and the bits so far.
#[derive(Clone, Copy)]
pub struct Spot {
    pub place: u8,
    pub byte: usize,
    pub value: u8,
}

// The first clock at which the line differs from the model: its sample and its number, both counted from 0, the line's level, and where it stands
// in its byte.
#[derive(Clone, Copy)]
pub struct Marked {
    pub sample: usize,
    pub clock: usize,
    pub level: u8,
    pub spot: Spot,
}

// What is told of one capture. `other`: whether the other reading of it has a mark.
#[derive(Clone, Copy)]
pub struct Figures {
    pub samples: usize,
    pub events: usize,
    pub clocks: usize,
    pub ends: usize,
    pub cycles: usize,
    pub tally: Tally,
    pub mark: Option<Marked>,
    pub other: bool,
}

// What is told of all files together.
#[derive(Clone, Copy)]
pub struct Sums {
    pub files: usize,
    pub differ: usize,
    pub refused: usize,
    pub cycles: usize,
    pub tally: Tally,
}

fn field(host: &Host, ok: bool, name: &[u8], n: usize) -> bool {
    let named = say(host, ok, name);
    number(host, named, n)
}

// ---- the first line

// What a command is refused for before a file is looked at. Of a HEX file standard error has the reason.
fn reason(host: &Host, r: Refusal) -> bool {
    match r {
        Refusal::NoPart => answer::no_part(host, true),
        Refusal::WrongEnable => answer::wrong_enable(host, true),
        Refusal::BadEvent(_) => answer::no_pin(host, true),
        Refusal::BadImage => answer::no_image(host, true),
        _ => true,
    }
}

pub fn refused(host: &Host, r: Refusal) -> bool {
    if answer::refused(host, r) {
        return reason(host, r);
    }
    false
}

// A sample that is none, and what files have such.
pub fn refused_at(host: &Host, ok: bool, r: Refusal) -> bool {
    status::refused(host);
    let told = field(host, ok, b"refused ", text::wide(parts::number(r)));
    let placed = count(host, told, b" at ", parts::verdict_place(Err(r)));
    say(
        host,
        placed,
        b"a text line at the front such as sigrok's META, or more channels than two: see --scl and --sda\n",
    )
}

fn told_byte(host: &Host, ok: bool, b: u8) -> bool {
    let d = text::hex(b);
    say(host, ok, &[b',', b' ', d[0], d[1], b'h'])
}

fn told_spot(host: &Host, ok: bool, s: Spot) -> bool {
    if s.place < 8 {
        let bit = field(host, ok, b" (bit ", text::wide(7 - s.place));
        let told = field(host, bit, b" of byte ", s.byte);
        return say(host, told, b")\n");
    }
    let named = field(host, ok, b" (acknowledge of byte ", s.byte);
    let told = told_byte(host, named, s.value);
    say(host, told, b")\n")
}

// The model's level is the other one.
fn differs(host: &Host, ok: bool, m: Marked) -> bool {
    status::refused(host);
    let one = field(host, ok, b"differs at sample ", m.sample);
    let two = field(host, one, b", clock ", m.clock);
    let three = field(host, two, b": line ", text::wide(m.level));
    let four = field(host, three, b", model ", text::wide(1 - m.level % 2));
    told_spot(host, four, m.spot)
}

fn tell_mark(host: &Host, ok: bool, mark: Option<Marked>) -> bool {
    match mark {
        None => say(host, ok, b"same\n"),
        Some(m) => differs(host, ok, m),
    }
}

// ---- the other lines

fn reading(host: &Host, ok: bool, letter: bool) -> bool {
    if letter {
        return say(host, ok, b"read by the letter\n");
    }
    say(host, ok, b"read as on a bus\n")
}

fn tallied(host: &Host, ok: bool, t: Tally) -> bool {
    let one = field(host, ok, b"starts ", t.starts as usize);
    let two = field(host, one, b" stops ", t.stops as usize);
    let three = field(host, two, b" bytes ", t.bytes as usize);
    count(host, three, b" unacknowledged ", t.unacknowledged as usize)
}

// Where the other reading has no mark.
fn advised(host: &Host, ok: bool, letter: bool, f: Figures) -> bool {
    if f.mark.is_none() || f.other {
        return ok;
    }
    if letter {
        return say(host, ok, b"as on a bus it would be the same\n");
    }
    say(host, ok, b"by the letter it would be the same\n")
}

// All of one capture but its events.
pub fn lines(host: &Host, ok: bool, letter: bool, f: Figures) -> bool {
    let one = tell_mark(host, ok, f.mark);
    let two = reading(host, one, letter);
    let three = field(host, two, b"samples ", f.samples);
    let four = field(host, three, b" events ", f.events);
    let five = count(host, four, b" ends ", f.ends);
    let six = tallied(host, five, f.tally);
    let seven = count(host, six, b"cycles ", f.cycles);
    advised(host, seven, letter, f)
}

// The name of a file, as it was typed.
pub fn name(host: &Host, ok: bool, word: usize) -> bool {
    let told = say(host, say(host, ok, b"file "), host.word(word).bytes());
    say(host, told, b"\n")
}

// All files together.
pub fn all(host: &Host, ok: bool, s: Sums) -> bool {
    let one = field(host, ok, b"all\nfiles ", s.files);
    let two = field(host, one, b" differ ", s.differ);
    let three = count(host, two, b" refused ", s.refused);
    let four = tallied(host, three, s.tally);
    count(host, four, b"cycles ", s.cycles)
}
