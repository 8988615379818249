// Captures, by lines of standard input: a letter for what is done, numbers and, behind a colon, samples as digits or events as letters. Every
// buffer is filled first, so that each answer also tells what was left alone.
//
// `r PART ENABLE ARRAY ID BAD BUS : LETTERS/SAMPLES` a run on a chip on which the letters were run before; lengths of 70000 and more are
// the part's own, and BAD puts the counter out of range. `d PART ENABLE BUS TURN : LETTERS` draws the wires of a run over the letters, turns
// data at one sample, and runs what is drawn. `e BUS ROOM : SAMPLES` lists events. `t BUS STARTS STOPS BYTES MISSES : SAMPLES` counts: from
// 60000 on a count is that much below the top as the number is below 65535.
#![tactic(auto)]

use capture::{Mark, Seen, Wires};
use cases::told::{tell, tell_done};
use cases::{Laid, Lent, ended, fill, first, label, mixed, numbers, split_once};
use host::{Host, STDIN};
use line::{Core, Line};
use parts::Loss;
use state::Chip;
use text::{narrow, wide};

// ---- what is told

fn tell_mark(host: &Host, mark: Mark) {
    match mark {
        Mark::Same => {
            host.say(b", same");
        }
        Mark::At(s, n, v) => {
            tell(host, b", sample ", s);
            tell(host, b" clock ", n);
            tell(host, b" line ", wide(v));
        }
    }
}

fn tell_chip(host: &Host, chip: Chip) {
    let core = chip.line.core;
    tell(host, b", counter ", usize::from(core.counter));
    tell(host, b" left ", wide(chip.line.left));
    tell(host, b" locked ", usize::from(core.locked));
}

fn tell_seen(host: &Host, s: Seen, array: &[u8], id: &[u8]) {
    tell_done(host, s.verdict);
    tell(host, b", events ", s.events);
    tell(host, b" clocks ", s.clocks);
    tell(host, b" ends ", s.ends);
    tell(host, b" cycles ", s.cycles);
    tell_mark(host, s.mark);
    tell_chip(host, s.chip);
    tell(host, b", array ", mixed(array));
    tell(host, b" id ", mixed(id));
    host.say(b"\n");
}

// ---- letters and samples

const EVENTS: usize = 4096;

const SAMPLES: usize = 16384;

fn spell<'a, F: Fn(u8) -> u8>(typed: &[u8], meant: F, room: &'a mut [u8]) -> Laid<'a>
    requires { F.IsAlwaysCallable meant }
{
    let mut laid = Laid::new(room);
    for x in typed {
        laid.push(meant(*x));
    }
    laid
}

fn codes<'a>(typed: &[u8], room: &'a mut [u8]) -> Laid<'a> {
    spell(typed, |x| trace::code_of(x), room)
}

fn samples<'a>(typed: &[u8], room: &'a mut [u8]) -> Laid<'a> {
    spell(typed, |x| x.saturating_sub(b'0'), room)
}

// ---- a chip on which letters were run

// What a capture is run on, beside the chip.
#[derive(Clone, Copy)]
struct Case {
    part: u8,
    enable: u8,
    bus: bool,
}

fn spoilt(chip: Chip) -> Chip {
    Chip {
        line: Line {
            core: Core {
                counter: 65535,
                ..chip.line.core
            },
            ..chip.line
        },
        ..chip
    }
}

fn before(case: Case, typed: &[u8], lent: &mut Lent) -> Chip {
    let mut room = [0u8; EVENTS];
    let mut levels = [0u8; EVENTS];
    let codes = codes(typed, &mut room);
    let (array, id) = lent.part(case.part);
    let chip = chip::standby(case.part, false);
    let r = chip::run(
        case.part,
        case.enable,
        Loss::Old,
        b"",
        chip,
        array,
        id,
        codes.bytes(),
        &mut levels,
    );
    r.chip
}

fn see(host: &Host, case: Case, chip: Chip, samples: &[u8], array: &mut [u8], id: &mut [u8]) {
    let s = capture::run(case.part, case.enable, chip, array, id, case.bus, samples);
    tell_seen(host, s, array, id);
}

fn own(n: usize, length: usize) -> usize {
    if n < 70000 { n } else { length }
}

fn ran(host: &Host, line: &[u8]) {
    let [part, enable, array, id, bad, bus, ..] = numbers(line);
    let typed = label(line);
    let (letters, digits) = split_once(typed, b'/').unwrap_or((typed, typed));
    let case = Case {
        part: narrow(part),
        enable: narrow(enable),
        bus: bus == 1,
    };
    let f = parts::facts_of(case.part);
    let mut room = [0u8; SAMPLES];
    let mut lent = Lent::filled();
    let left = before(case, letters, &mut lent);
    let chip = if bad == 1 { spoilt(left) } else { left };
    let samples = samples(digits, &mut room);
    let (array, id) = lent.first(own(array, f.size), own(id, parts::id_size(f)));
    see(host, case, chip, samples.bytes(), array, id);
}

// ---- wires, drawn

fn draw_all<'a>(codes: &[u8], levels: &[u8], room: &'a mut [u8]) -> Laid<'a> {
    let mut laid = Laid::new(room);
    let mut wires = Wires::Rest;
    laid.push(3);
    for (i, code) in codes.iter().enumerate() {
        let stroke = capture::draw(wires, capture::lined(*code, parts::byte_at(levels, i)));
        laid.extend(first(&stroke.samples, stroke.count));
        wires = stroke.wires;
    }
    laid
}

fn run_drawn(host: &Host, case: Case, codes: &[u8], levels: &mut [u8]) {
    let mut lent = Lent::filled();
    let (array, id) = lent.part(case.part);
    let chip = chip::standby(case.part, false);
    let r = chip::run(
        case.part,
        case.enable,
        Loss::Old,
        b"",
        chip,
        array,
        id,
        codes,
        levels,
    );
    tell(host, b"cycles ", r.cycles);
    tell(host, b" array ", mixed(array));
}

fn see_drawn(host: &Host, case: Case, samples: &[u8]) {
    let mut lent = Lent::filled();
    let (array, id) = lent.part(case.part);
    tell(host, b", samples ", samples.len());
    tell(host, b" ", mixed(samples));
    host.say(b": ");
    see(
        host,
        case,
        chip::standby(case.part, false),
        samples,
        array,
        id,
    );
}

fn drawn(host: &Host, line: &[u8]) {
    let [part, enable, bus, turn, ..] = numbers(line);
    let case = Case {
        part: narrow(part),
        enable: narrow(enable),
        bus: bus == 1,
    };
    let mut letters = [0u8; EVENTS];
    let mut levels = [0u8; EVENTS];
    let mut room = [0u8; SAMPLES];
    let codes = codes(label(line), &mut letters);
    run_drawn(host, case, codes.bytes(), &mut levels);
    let samples = draw_all(codes.bytes(), &levels, &mut room).into_bytes();
    if let Some(sample) = samples.get_mut(turn) {
        *sample ^= 2;
    }
    see_drawn(host, case, samples);
}

// ---- events and counts

fn list_in(host: &Host, bus: bool, samples: &[u8], out: &mut [u8]) {
    let l = capture::events(bus, samples, out);
    tell_done(host, l.verdict);
    tell(host, b", events ", l.length);
    tell(host, b", out ", mixed(out));
    host.say(b"\n");
}

fn listed(host: &Host, line: &[u8]) {
    let [bus, lent, ..] = numbers(line);
    let mut room = [0u8; SAMPLES];
    let mut out = [0u8; EVENTS];
    fill(&mut out, 50);
    let samples = samples(label(line), &mut room);
    list_in(
        host,
        bus == 1,
        samples.bytes(),
        fitted::first(&mut out, lent),
    );
}

fn below_top(n: usize) -> u32 {
    match u32::try_from(n) {
        Ok(n) if n < 60000 => n,
        Ok(n) if n < 65536 => u32::MAX - (65535 - n),
        _ => 0,
    }
}

fn counted(host: &Host, line: &[u8]) {
    let [bus, starts, stops, bytes, misses, ..] = numbers(line);
    let mut room = [0u8; SAMPLES];
    let laid = samples(label(line), &mut room);
    let t = capture::tallied_by(
        below_top(starts),
        below_top(stops),
        below_top(bytes),
        below_top(misses),
        bus == 1,
        laid.bytes(),
    );
    tell_done(host, capture::judge(laid.bytes()));
    tell(host, b", starts ", t.starts as usize);
    tell(host, b" stops ", t.stops as usize);
    tell(host, b" bytes ", t.bytes as usize);
    tell(host, b" unacknowledged ", t.unacknowledged as usize);
    host.say(b"\n");
}

// ---- lines

fn one(host: &Host, line: &[u8]) {
    let Some(letter) = line.first() else {
        return;
    };
    host.say(line);
    host.say(b"\n  ");
    match letter {
        b'r' => ran(host, line),
        b'd' => drawn(host, line),
        b'e' => listed(host, line),
        _ => counted(host, line),
    }
}

fn main(rt: HostRuntime) {
    let host = Host::new(rt);
    let mut input = [0u8; 262144];
    let n = host.read_full(STDIN, &mut input);
    for line in ended(&input[..n], b'\n') {
        one(&host, line);
    }
}
