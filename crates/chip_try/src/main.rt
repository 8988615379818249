// Tries calls of the chip and of its images, one for each line of the input, and prints what each answers and whether a refused one left
// everything. A line is a letter for the call (`call`), sixteen numbers and, after a colon, what is tried; the lines of `cuts` have events
// behind a slash.
#![tactic(auto)]

mod cuts;
mod images;

use cases::told::{tell, tell_fine};
use cases::{Lent, ended, fill, filled, first, halves, label, numbers, set};
use host::{Host, STDIN};
use parts::{Loss, Refusal, Verdict};
use state::Chip;
use text::{narrow, wide};

// The numbers of a line, and what is given for a loss of power.
#[derive(Clone, Copy)]
struct Case<'a> {
    part: u8,
    enable: u8,
    // Bytes lent of the array and of the identification buffer.
    array: usize,
    id: usize,
    // The state, pin and phase as pack_chip numbers them; a latch at 64 is none.
    counter: usize,
    pin: u8,
    inhibited: u8,
    locked: u8,
    phase: u8,
    left: u8,
    latch: usize,
    // The list: clocks, but for the code, which stands at two places if they lie in the list. Of an image: its bytes that are lent, and the code at
    // one place.
    events: usize,
    room: usize,
    code: u8,
    first: usize,
    second: usize,
    loss: Loss,
    page: &'a [u8],
}

fn case_of(v: [usize; 16]) -> Case<'static> {
    let [part, enable, array, id, counter, pin, inhibited, locked, ..] = v;
    let [.., phase, left, latch, events, room, code, first, second] = v;
    Case {
        part: narrow(part),
        enable: narrow(enable),
        array,
        id,
        counter,
        pin: narrow(pin),
        inhibited: narrow(inhibited),
        locked: narrow(locked),
        phase: narrow(phase),
        left: narrow(left),
        latch,
        events,
        room,
        code: narrow(code),
        first,
        second,
        loss: Loss::Old,
        page: b"",
    }
}

// What a call answered, and whether state and buffers are as before.
#[derive(Clone, Copy)]
struct Tried {
    verdict: Verdict,
    kept: bool,
}

// ---- states as bytes

// Byte i of the latches: 7 in one of them, 256, nothing, in the others.
fn latch_byte(i: usize, at: usize) -> u8 {
    match (i / 2 == at, i % 2) {
        (true, 1) => 7,
        (false, 0) => 1,
        _ => 0,
    }
}

impl<'a> Case<'a> {
    fn state(self) -> [u8; 137] {
        let mut held = [0u8; 137];
        for (i, byte) in held[9..].iter_mut().enumerate() {
            *byte = latch_byte(i, self.latch);
        }
        held[0] = narrow(self.counter / 256);
        held[1] = narrow(self.counter % 256);
        held[2] = self.pin;
        held[3] = self.inhibited;
        held[4] = self.locked;
        held[5] = self.phase;
        held[7] = self.left;
        held
    }
}

// Two states are the same where their bytes are.
fn same_state(chip: Chip, held: &[u8; 137]) -> bool {
    let mut bytes = [0u8; 137];
    pack_chip::pack(chip, &mut bytes);
    bytes == *held
}

// ---- the calls, each on buffers of its own with room for one byte more than any part has

// A refused call answers no level and no cycle, and leaves the state.
fn try_step(case: Case) -> Tried {
    let mut lent = Lent::filled();
    let held = case.state();
    let (array, id) = lent.first(case.array, case.id);
    let s = chip::step(
        case.part,
        case.enable,
        case.loss,
        case.page,
        pack_chip::unpack(&held),
        array,
        id,
        case.code,
    );
    Tried {
        verdict: s.verdict,
        kept: s.level == 2 && s.cycles == 0 && same_state(s.chip, &held) && lent.is_filled(),
    }
}

fn run(case: Case, events: &[u8]) -> Tried {
    let mut lent = Lent::filled();
    let mut answers = [0u8; 32769];
    fill(&mut answers, 50);
    let held = case.state();
    let (array, id) = lent.first(case.array, case.id);
    let r = chip::run(
        case.part,
        case.enable,
        case.loss,
        case.page,
        pack_chip::unpack(&held),
        array,
        id,
        events,
        fitted::first(&mut answers, case.room),
    );
    let same = r.cycles == 0 && same_state(r.chip, &held);
    Tried {
        verdict: r.verdict,
        kept: same && filled(&answers, 50) && lent.is_filled(),
    }
}

fn try_run(case: Case) -> Tried {
    let mut events = [1u8; 32769];
    set(&mut events, case.first, case.code);
    set(&mut events, case.second, case.code);
    run(case, first(&events, case.events))
}

fn try_deliver(case: Case) -> Tried {
    let mut lent = Lent::filled();
    let (array, id) = lent.first(case.array, case.id);
    let verdict = chip::deliver(case.part, array, id).verdict;
    Tried {
        verdict,
        kept: lent.is_filled(),
    }
}

// ---- what is printed

// Whether anything changed is told only where the call is refused.
fn tell_tried(host: &Host, t: Tried) {
    tell_fine(host, t.verdict);
    if let Err(_) = t.verdict {
        if t.kept {
            host.say(b", unchanged");
        } else {
            host.say(b", CHANGED");
        }
    }
}

// Prints the code where it is taken; whether it is refused 5 at 0 with nothing changed.
fn tell_code(host: &Host, t: Tried, code: u8) -> bool {
    match t.verdict {
        Ok(()) => {
            tell(host, b"", wide(code));
            host.say(b" ");
            false
        }
        Err(Refusal::BadEvent(0)) => t.kept,
        Err(_) => false,
    }
}

// Every code, in a step or as a list of one event.
fn every_code<F: Fn(Case) -> Tried>(host: &Host, case: Case, call: F)
    requires { F.IsAlwaysCallable call }
{
    let mut refused = 0;
    for n in 0..256 {
        let code = narrow(n);
        if tell_code(host, call(Case { code, ..case }), code) {
            refused += 1;
        }
    }
    tell(host, b"taken, ", refused);
    tell(
        host,
        b" refused ",
        wide(parts::number(Refusal::BadEvent(0))),
    );
    host.say(b" at 0, unchanged");
}

fn step_and_run(host: &Host, case: Case) {
    host.say(b"step ");
    tell_tried(host, try_step(case));
    host.say(b"; run ");
    tell_tried(host, try_run(case));
}

fn call(host: &Host, letter: u8, v: [usize; 16], typed: &[u8]) {
    let case = case_of(v);
    match letter {
        b'a' => {
            host.say(b"deliver ");
            tell_tried(host, try_deliver(case));
            host.say(b"; ");
            step_and_run(host, case);
        }
        b'b' => step_and_run(host, case),
        b'p' => cuts::tell_page(host, case),
        b'c' => cuts::tell_cut(host, v, typed),
        b's' => {
            host.say(b"step ");
            every_code(host, case, |c| try_step(c));
        }
        b'i' => {
            host.say(b"save ");
            images::tell_save(host, case);
        }
        b'o' => {
            host.say(b"load ");
            images::tell_load(host, case);
        }
        b'l' => {
            host.say(b"run ");
            every_code(host, case, |c| try_run(c));
        }
        _ => {
            host.say(b"run ");
            tell_tried(host, try_run(case));
        }
    }
}

fn one(host: &Host, line: &[u8]) {
    if let Some(letter) = line.first() {
        let (tried, typed) = halves(label(line), b'/');
        host.say(tried);
        host.say(b": ");
        call(host, *letter, numbers(line), typed);
        host.say(b"\n");
    }
}

fn main(rt: HostRuntime) {
    let host = Host::new(rt);
    let mut buf = io::large_buffer();
    let n = host.read_full(STDIN, &mut buf);
    for line in ended(&buf[..n], b'\n') {
        one(&host, line);
    }
}
