// Runs of events on a part as delivered, and what they leave: one after another, with a bar between, on the one chip or each from delivery. The counts
// go on in either case.
use crate::{MOST, counts, counts_of, events};
use cases::told::{tell, tell_fine};
use cases::{Lent, fill, first, loss_of, mix, mixed};
use chip::Ran;
use host::Host;
use parts::{Loss, Verdict};
use text::{narrow, wide};
use wear::{Most, Worn};

// The stored worst: what the walk finds, the group and the count of the line, or what the walk finds, and it is not given but compared.
#[derive(Clone, Copy)]
enum Stored {
    Found,
    Given(Most),
    Compared,
}

// The numbers of a line.
#[derive(Clone, Copy)]
struct Case {
    part: u8,
    enable: u8,
    // The part whose chip is taken, as delivered, and whether it is locked: of another part than the first it may be out of range.
    of: u8,
    locked: bool,
    // Bytes lent of the array and the identification buffer, counts lent, room for levels.
    array: usize,
    id: usize,
    counts: usize,
    room: usize,
    // What is given for a loss of power (`loss_of`), the bytes lent of the page, and the byte that it is filled from.
    loss: Loss,
    page: usize,
    fill: u8,
    // The list of events is repeated up to so many; 0 for once.
    last: usize,
    stored: Stored,
}

fn stored_of(how: usize, group: usize, count: usize) -> Stored {
    match how {
        1 => Stored::Given(counts::most(group, count)),
        2 => Stored::Compared,
        _ => Stored::Found,
    }
}

fn case_of(v: [usize; 16]) -> Case {
    let [part, enable, of, locked, array, id, counts, room, ..] = v;
    let [.., loss, page, fill, last, how, group, count, _] = v;
    Case {
        part: narrow(part),
        enable: narrow(enable),
        of: narrow(of),
        locked: locked == 1,
        array,
        id,
        counts,
        room,
        loss: loss_of(loss),
        page,
        fill: narrow(fill),
        last,
        stored: stored_of(how, group, count),
    }
}

// Levels of longer lists are told by a number.
const SHORT: usize = 64;

// No level.
const BLANK: u8 = 77;

// Room for events and for levels.
const ROOM: usize = 32769;

// ---- what is printed

fn level_letter(x: u8) -> u8 {
    match x {
        0 => b'0',
        1 => b'1',
        2 => b'-',
        _ => b'?',
    }
}

// As the trace program prints them.
fn tell_levels(host: &Host, levels: &[u8]) {
    if SHORT < levels.len() {
        return tell(host, b"", mixed(levels));
    }
    for level in levels {
        host.say(&[level_letter(*level)]);
    }
}

// Whether no level was written there.
fn is_blank(levels: &[u8]) -> bool {
    levels.iter().all(|x| *x == BLANK)
}

// A state's bytes, as pack_chip lays them.
fn tell_state(host: &Host, held: &[u8; 137]) {
    let counter = u16::from_be_bytes([held[0], held[1]]);
    tell(host, b", counter ", usize::from(counter));
    tell(host, b", locked ", wide(held[4]));
    tell(host, b", phase ", wide(held[5]));
}

// Whether a refused call left all as it was.
fn tell_kept(host: &Host, kept: bool) {
    if kept {
        host.say(b", unchanged");
    } else {
        host.say(b", CHANGED");
    }
}

// The levels of n events; none is written behind them.
fn tell_answers(host: &Host, levels: &[u8], n: usize) {
    let (answers, behind) = levels.split_at(levels.len().min(n));
    host.say(b", levels ");
    tell_levels(host, answers);
    if !is_blank(behind) {
        host.say(b", more levels WRITTEN");
    }
}

// ---- one run

// A part: its chip as bytes, what it stores, the counts of its groups, and the stored worst of them.
#[derive(Clone, Copy)]
struct Part {
    held: [u8; 137],
    lent: Lent,
    counts: [u32; MOST],
    worst: Most,
}

// As delivered, with the counts that are typed.
fn part_of(case: Case, counted: &[u8]) -> Part {
    let counts = counts_of(counted);
    let worst = match case.stored {
        Stored::Given(worst) => worst,
        Stored::Found | Stored::Compared => wear::worst::most_of(first(&counts, case.counts)),
    };
    let mut part = Part {
        held: [0; 137],
        lent: Lent::blank(),
        counts,
        worst,
    };
    part.deliver(case);
    part
}

impl Part {
    fn deliver(&mut self, case: Case) {
        let (array, id) = self.lent.part(case.of);
        chip::deliver(case.of, array, id);
        pack_chip::pack(chip::standby(case.of, case.locked), &mut self.held);
    }

    // Numbers that tell apart what is stored, and all that a call may change, but for the levels.
    fn stored(&self) -> usize {
        mix(mixed(&self.lent.array), mixed(&self.lent.id))
    }

    fn left(&self) -> usize {
        mix(mixed(&self.counts), mix(mixed(&self.held), self.stored()))
    }

    // The worst goes in and comes back; or its holder compares it with what was raised.
    fn call(&mut self, case: Case, page: &[u8], events: &[u8], levels: &mut [u8]) -> Worn {
        let Part {
            held,
            lent,
            counts,
            worst,
        } = self;
        let Case {
            part,
            enable,
            loss,
            ..
        } = case;
        let chip = pack_chip::unpack(held);
        let (array, id) = lent.first(case.array, case.id);
        let counts = cases::counts::first(counts, case.counts);
        if let Stored::Compared = case.stored {
            let gone = wear::go_on(
                part, enable, loss, page, chip, array, id, counts, events, levels,
            );
            return Worn {
                most: wear::worst::worse(*worst, gone.most),
                ..gone
            };
        }
        wear::run(
            part, enable, loss, page, chip, array, id, counts, *worst, events, levels,
        )
    }

    fn run(&mut self, case: Case, page: &[u8], events: &[u8], levels: &mut [u8]) -> Ran {
        let worn = self.call(case, page, events, fitted::first(levels, case.room));
        self.worst = worn.most;
        pack_chip::pack(worn.ran.chip, &mut self.held);
        worn.ran
    }

    fn tell_run(&mut self, host: &Host, case: Case, page: &[u8], events: &[u8]) {
        let mut levels = [BLANK; ROOM];
        let before = self.left();
        let ran = self.run(case, page, events, &mut levels);
        tell_fine(host, ran.verdict);
        tell(host, b", cycles ", ran.cycles);
        match ran.verdict {
            Ok(()) => {
                tell_answers(host, &levels, events.len());
                tell_state(host, &self.held);
                tell(host, b", stored ", self.stored());
            }
            Err(_) => {
                tell_kept(host, self.left() == before && is_blank(&levels));
            }
        }
    }

    fn one(&mut self, host: &Host, case: Case, typed: &[u8]) {
        let mut room = [0u8; ROOM];
        let mut page = [0u8; 65];
        let events = events::read(typed, case.last, &mut room);
        fill(&mut page, case.fill);
        self.tell_run(host, case, first(&page, case.page), events.bytes());
    }
}

// ---- some runs

// All counts that were lent are told, those behind the part's too.
pub fn tell_runs(host: &Host, v: [usize; 16], fresh: bool, counted: &[u8], typed: &[u8]) {
    let case = case_of(v);
    let mut part = part_of(case, counted);
    for (i, run) in typed.split(|x| *x == b'|').enumerate() {
        if 0 < i {
            host.say(b" | ");
        }
        if fresh {
            part.deliver(case);
        }
        part.one(host, case, run);
    }
    host.say(b"; worn");
    counts::tell_worn(host, &part.counts);
    host.say(b"; report ");
    counts::tell_report(host, case.part, first(&part.counts, case.counts));
    host.say(b"; worst ");
    counts::tell_most(host, part.worst);
}

// ---- what an end or a cut, now, would count

impl Part {
    // The chip alone runs, so that nothing is counted before.
    fn run_alone(&mut self, host: &Host, case: Case, events: &[u8]) {
        let mut levels = [BLANK; ROOM];
        let (array, id) = self.lent.first(case.array, case.id);
        let r = chip::run(
            case.part,
            case.enable,
            Loss::Old,
            b"",
            pack_chip::unpack(&self.held),
            array,
            id,
            events,
            &mut levels,
        );
        pack_chip::pack(r.chip, &mut self.held);
        tell_fine(host, r.verdict);
    }

    fn mark(&mut self, case: Case) -> Most {
        let Part { held, counts, .. } = self;
        wear::mark(
            case.part,
            pack_chip::unpack(held),
            cases::counts::first(counts, case.counts),
        )
    }
}

pub fn tell_mark(host: &Host, v: [usize; 16], counted: &[u8], typed: &[u8]) {
    let case = case_of(v);
    let mut part = part_of(case, counted);
    let mut room = [0u8; ROOM];
    let events = events::read(typed, case.last, &mut room);
    part.run_alone(host, case, events.bytes());
    tell_state(host, &part.held);
    let raised = part.mark(case);
    host.say(b"; worn");
    counts::tell_worn(host, &part.counts);
    host.say(b"; raised ");
    counts::tell_most(host, raised);
}
