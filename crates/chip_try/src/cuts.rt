// Power lost in a write cycle (document 02, §5): the length of the page that is lent, and what runs with resets leave.
//
// A line of `p` is a step and a run as those of `b`; in place of inhibited and locked stand the loss (`loss_of`) and the bytes lent of the page.
// `c PART ENABLE LOSS PAGE FILL : what is tried/events` runs events, a digit for each code, on a chip in standby; the page is filled from FILL on.
use crate::{Case, Tried, step_and_run, tell_tried};
use cases::told::tell;
use cases::{Laid, Lent, Pattern, fill, first, loss_of, mixed};
use host::Host;
use parts::Loss;
use text::{narrow, wide};

// More than a line has.
const MOST: usize = 1024;

pub fn tell_page(host: &Host, case: Case) {
    let mut page = [0u8; 65];
    fill(&mut page, 200);
    step_and_run(
        host,
        Case {
            inhibited: 0,
            locked: 0,
            loss: loss_of(wide(case.inhibited)),
            page: first(&page, wide(case.locked)),
            ..case
        },
    );
}

// ---- a run on a chip in standby, and what it leaves

// What a run is given beside its events.
#[derive(Clone, Copy)]
struct Cut<'a> {
    part: u8,
    enable: u8,
    loss: Loss,
    page: &'a [u8],
}

// A chip as bytes, what it stores, and the levels that it answered.
#[derive(Clone, Copy, PartialEq, Eq)]
struct Left {
    held: [u8; 137],
    lent: Lent,
    levels: [u8; MOST],
}

fn fresh(part: u8) -> Left {
    let mut held = [0u8; 137];
    pack_chip::pack(chip::standby(part, false), &mut held);
    Left {
        held,
        lent: Lent::filled(),
        levels: [0; MOST],
    }
}

impl Left {
    fn run(&mut self, host: &Host, cut: Cut, events: &[u8]) {
        let (array, id) = self.lent.part(cut.part);
        let r = chip::run(
            cut.part,
            cut.enable,
            cut.loss,
            cut.page,
            pack_chip::unpack(&self.held),
            array,
            id,
            events,
            &mut self.levels,
        );
        pack_chip::pack(r.chip, &mut self.held);
        tell_tried(
            host,
            Tried {
                verdict: r.verdict,
                kept: self.lent.is_filled(),
            },
        );
        tell(host, b", cycles ", r.cycles);
    }

    fn step(&mut self, cut: Cut, event: u8) -> u8 {
        let (array, id) = self.lent.part(cut.part);
        let s = chip::step(
            cut.part,
            cut.enable,
            cut.loss,
            cut.page,
            pack_chip::unpack(&self.held),
            array,
            id,
            event,
        );
        pack_chip::pack(s.chip, &mut self.held);
        s.level
    }
}

// The events one by one.
fn walked(cut: Cut, events: &[u8]) -> Left {
    let mut left = fresh(cut.part);
    for (i, event) in events.iter().enumerate() {
        let level = left.step(cut, *event);
        cases::set(&mut left.levels, i, level);
    }
    left
}

// ---- what is printed

// Each of two bytes; the high byte of a latched one is 0.
fn latched(latches: &[u8]) -> usize {
    latches.iter().step_by(2).filter(|high| **high == 0).count()
}

// A state's bytes, as pack_chip lays them.
fn tell_state(host: &Host, held: &[u8; 137]) {
    let counter = u16::from_be_bytes([held[0], held[1]]);
    tell(host, b", counter ", usize::from(counter));
    tell(host, b", pin ", wide(held[2]));
    tell(host, b", locked ", wide(held[4]));
    tell(host, b", phase ", wide(held[5]));
    tell(host, b", latches ", latched(&held[9..]));
}

fn tell_byte(host: &Host, at: usize, x: u8) {
    host.say(b" ");
    host.say_address(at);
    host.say(b" ");
    host.say_byte(x);
}

// Each byte that is not as it was lent.
fn tell_changed(host: &Host, s: &[u8], from: u8) {
    for (i, (x, lent)) in s.iter().zip(Pattern(from)).enumerate() {
        if *x != lent {
            tell_byte(host, i, *x);
        }
    }
}

fn tell_run(host: &Host, cut: Cut, events: &[u8]) {
    let mut left = fresh(cut.part);
    left.run(host, cut, events);
    tell_state(host, &left.held);
    tell(host, b", levels ", mixed(&left.levels));
    host.say(b"; array");
    tell_changed(host, &left.lent.array, 0);
    host.say(b"; id");
    tell_changed(host, &left.lent.id, 100);
    if walked(cut, events) == left {
        host.say(b"; one by one the same");
    } else {
        host.say(b"; one by one OTHERWISE");
    }
}

pub fn tell_cut(host: &Host, v: [usize; 16], typed: &[u8]) {
    let [part, enable, loss, lent, from, ..] = v;
    let mut page = [0u8; 65];
    let mut room = [0u8; MOST];
    let mut events = Laid::new(&mut room);
    for x in typed {
        if let b'0'..=b'9' = x {
            events.push(*x - b'0');
        }
    }
    fill(&mut page, narrow(from));
    let cut = Cut {
        part: narrow(part),
        enable: narrow(enable),
        loss: loss_of(loss),
        page: first(&page, lent),
    };
    tell_run(host, cut, events.bytes());
}
