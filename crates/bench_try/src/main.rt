// Runs the driver against the model, as the lines of the input say, and prints what each run reports: the refusal's number (0: done),
// its page or index, polls, bytes, cycles, clocks. A line is a letter with its numbers: d a part as delivered, s a part in standby, locked or not, e an
// event for a part, b what the buffer is filled with, p how many bytes of it are printed, r a run (`run`), o a run of one byte on the
// part as delivered, k a run with counts of wear and the worst of them (`run_worn`).
#![tactic(auto)]

use bench::Report;
use cases::told::tell_each;
use cases::{counts, ended, first, halves, label, mixed, numbers};
use driver::{Place, Request};
use host::{Host, STDIN};
use parts::{ArrayAddress, IdLocation, Loss};
use text::{narrow, wide};
use wear::Most;

// More than any part has groups.
const MOST: usize = 8200;

// The numbers of a run.
#[derive(Clone, Copy)]
struct Case {
    request: Request,
    // Before which poll a cycle ends.
    ends: usize,
    // Bytes lent of array, identification page and buffer, and counts lent.
    array: usize,
    id: usize,
    buffer: usize,
    counts: usize,
    // Whether the chip is kept.
    kept: bool,
    // A stored worst; where there is none, it is what the walk finds.
    worst: Option<Most>,
}

fn place_of(ident: bool, at: usize) -> Place {
    if ident {
        return Place::Ident(IdLocation(at));
    }
    Place::Array(ArrayAddress(at))
}

fn worst_of(found: bool, group: usize, count: usize) -> Option<Most> {
    if found {
        return None;
    }
    Some(Most {
        group,
        count: counts::narrow(count),
    })
}

fn case_of(v: [usize; 16]) -> Case {
    let [part, enable, ident, at, reads, length, budget, ends, ..] = v;
    let [.., array, id, buffer, kept, counts, group, count, found] = v;
    Case {
        request: Request {
            part: narrow(part),
            enable: narrow(enable),
            place: place_of(ident == 1, at),
            reads: reads == 1,
            length,
            budget,
        },
        ends,
        array,
        id,
        buffer,
        counts,
        kept: kept == 1,
        worst: worst_of(found == 1, group, count),
    }
}

// ---- what is printed

fn tell_bytes(host: &Host, label: &[u8], s: &[u8]) {
    host.say(label);
    tell_each(host, s);
    host.say(b"\n");
}

fn tell_report(host: &Host, label: &[u8], r: Report) {
    host.say(label);
    tell_each(
        host,
        &[
            wide(parts::verdict_number(r.verdict)),
            parts::verdict_place(r.verdict),
            r.polls,
            r.bytes,
            r.cycles,
            r.clocks,
        ],
    );
    host.say(b"\n");
}

// The worst that is answered, and a number for all counts.
fn tell_worst(host: &Host, worst: Most, counts: &[u32]) {
    host.say(b"worst");
    tell_each(host, &[worst.group, worst.count as usize, mixed(counts)]);
    host.say(b"\n");
}

// ---- a chip, held as bytes, what it stores, and the buffer of the driver

#[derive(Clone, Copy)]
struct Bench {
    held: [u8; 137],
    array: [u8; 32768],
    id: [u8; 64],
    buffer: [u8; 2048],
}

// One byte everywhere, or 1, 2, 3 and on.
fn fill(s: &mut [u8], first: u8, counts: bool) {
    let mut x = first;
    for place in s.iter_mut() {
        *place = x;
        if counts {
            x = if x < 250 { x + 1 } else { 1 };
        }
    }
}

impl Bench {
    fn deliver(&mut self, part: u8) {
        let Bench {
            held,
            array,
            id,
            ..
        } = self;
        let d = chip::deliver(part, fitted::array(part, array), fitted::id(part, id));
        pack_chip::pack(d.chip, held);
    }

    fn step(&mut self, part: u8, code: u8) {
        let Bench {
            held,
            array,
            id,
            ..
        } = self;
        let s = chip::step(
            part,
            0,
            Loss::Old,
            b"",
            pack_chip::unpack(held),
            fitted::array(part, array),
            fitted::id(part, id),
            code,
        );
        pack_chip::pack(s.chip, held);
    }

    fn run(&mut self, host: &Host, label: &[u8], case: Case) {
        let Bench {
            held,
            array,
            id,
            buffer,
        } = self;
        let r = bench::run(
            case.request,
            0,
            case.ends,
            pack_chip::unpack(held),
            fitted::first(array, case.array),
            fitted::first(id, case.id),
            fitted::first(buffer, case.buffer),
        );
        tell_report(host, label, r);
        if case.kept {
            pack_chip::pack(r.chip, held);
        }
    }

    // The counts stand behind a slash.
    fn run_worn(&mut self, host: &Host, label: &[u8], case: Case) {
        let Bench {
            held,
            array,
            id,
            buffer,
        } = self;
        let (label, typed) = halves(label, b'/');
        let mut own = [0u32; MOST];
        counts::read(&mut own, typed);
        let found = wear::worst::most_of(first(&own, case.counts));
        let k = bench::run_worn(
            case.request,
            0,
            case.ends,
            pack_chip::unpack(held),
            fitted::first(array, case.array),
            fitted::first(id, case.id),
            fitted::first(buffer, case.buffer),
            counts::first(&mut own, case.counts),
            case.worst.unwrap_or(found),
        );
        tell_report(host, label, k.report);
        tell_worst(host, k.worst, &own);
        if case.kept {
            pack_chip::pack(k.report.chip, held);
        }
    }

    // ---- the lines

    fn one(&mut self, host: &Host, letter: u8, v: [usize; 16], label: &[u8]) {
        let part = narrow(v[0]);
        match letter {
            b'd' => self.deliver(part),
            b's' => {
                pack_chip::pack(chip::standby(part, v[1] == 1), &mut self.held);
            }
            b'e' => self.step(part, narrow(v[1])),
            b'b' => fill(&mut self.buffer, narrow(v[0]), v[1] == 1),
            b'p' => tell_bytes(host, label, first(&self.buffer, v[0])),
            b'r' => self.run(host, label, case_of(v)),
            b'o' => {
                self.deliver(part);
                fill(&mut self.buffer, 7, false);
                self.run(host, label, case_of(v));
            }
            b'k' => self.run_worn(host, label, case_of(v)),
            _ => {}
        }
    }
}

fn main(rt: HostRuntime) {
    let host = Host::new(rt);
    let mut input = [0u8; 16384];
    let n = host.read_full(STDIN, &mut input);
    let mut bench = Bench {
        held: [0; 137],
        array: [0; 32768],
        id: [0; 64],
        buffer: [0; 2048],
    };
    for line in ended(&input[..n], b'\n') {
        if let Some(letter) = line.first() {
            bench.one(&host, *letter, numbers(line), label(line));
        }
    }
}
