// A trace told for people: one line a byte, and one for each cycle begun or ended. It drives the proved chip, event by event, and gathers the
// answer of `trace` as it goes: that is proved. What it prints on the way is promised nowhere.
#![tactic(auto)]

ghost use Rattle.std.specs.Prelude.{◌≡◌, ◌<◌, ◌≤◌, false, length, Ok};
ghost use Rattle.parts.specs.Table.{facts_of, id_size_of};
ghost use Rattle.chip.specs.Model.{old, ours};
ghost use Rattle.chip.specs.Memory.{mem};
ghost use Rattle.chip.specs.Delivery.{standby_of, delivered_of};
ghost use Rattle.chip.specs.Runs.{levels_of, cycles_of};
ghost use Rattle.chip.specs.Calls.{step_of};
ghost use Rattle.chip_laws.specs.Runs.{steps_of};
ghost use Rattle.trace.specs.Trace.{codes_of, refusal_text_of, traced_verdict_of, traced_of, trace_of, laying_of};

use chip::Stepped;
use host::Host;
use line::{Line, Phase, Recv, Target};
use parts::{Loss, Refusal, Verdict};
use state::Chip;
use trace::Traced;

// The clocks since the last Start, Stop or whole byte: at least one, and at most the eight that its bits have.
#[derive(Clone, Copy)]
struct Note {
    // Where the first of them stands.
    first: usize,
    clocks: u8,
    // The master's levels and the chip's, highest bit first.
    sent: u8,
    seen: u8,
}

impl Note {
    fn begun(place: usize, one: bool, released: bool) -> Note {
        Note {
            first: place,
            clocks: 1,
            sent: pushed(0, one),
            seen: pushed(0, released),
        }
    }

    // One clock more.
    fn and(self, one: bool, released: bool) -> Note
        requires { self.clocks < 8 }
    {
        Note {
            clocks: self.clocks + 1,
            sent: pushed(self.sent, one),
            seen: pushed(self.seen, released),
            ..self
        }
    }
}

fn pushed(bits: u8, one: bool) -> u8 {
    let kept = bits % 128;
    if one { kept * 2 + 1 } else { kept * 2 }
}

// Who tells a trace: to whom, the bytes of the part's page, and the byte under way.
#[derive(Drop)]
struct Teller<'a> {
    host: &'a Host,
    page: u16,
    note: Option<Note>,
    ghost some: { 0 < page },
    ghost few: { page ≤ 64 },
}

fn page_of(part: u8) -> u16
    ensures { (0 < result) × (result ≤ 64) }
{
    parts::facts_of(part).page as u16
}

impl<'a> Teller<'a> {
    fn new(host: &'a Host, part: u8) -> Teller<'a> {
        Teller {
            host,
            page: page_of(part),
            note: None,
        }
    }
}

// ---- words

impl Teller<'_> {
    fn places(&self, first: usize, last: usize) {
        self.host.say_number(first);
        if first < last {
            self.host.say(b"-");
            self.host.say_number(last);
        }
        self.host.say(b": ");
    }

    fn target(&self, target: Target) {
        match target {
            Target::Array => self.host.say(b"array"),
            Target::Ident => self.host.say(b"identification page"),
        };
    }

    fn answered(&self, released: bool) {
        if released {
            self.host.say(b", not acknowledged\n");
        } else {
            self.host.say(b", acknowledged\n");
        }
    }
}

// ---- a byte

impl Teller<'_> {
    // The byte that turned back to the page start: the counter stands there already (rule 3; `rolled` of the crate line).
    fn rolled(&self, counter: u16) {
        if counter % self.page == 0 && counter < 32768 {
            self.host.say(
                b"  warning: turned back to the page start: this and later bytes land from ",
            );
            self.host.say_address(counter as usize);
            self.host.say(b" on, not from ");
            self.host.say_address((counter + self.page) as usize);
            self.host.say(b"\n");
        }
    }

    fn fill(&self, target: Target, more: bool, counter: u16, released: bool) {
        self.host.say(b" data for ");
        self.target(target);
        self.host.say(b" at ");
        self.host.say_address(counter as usize);
        self.answered(released);
        if !released && more {
            self.rolled(counter);
        }
    }

    fn named(&self, name: &[u8], released: bool) {
        self.host.say(name);
        self.answered(released);
    }

    fn received(&self, recv: Recv, counter: u16, released: bool) {
        match recv {
            Recv::Select => self.named(b" select", released),
            Recv::AddressHigh(_) => self.named(b" address, high byte", released),
            Recv::AddressLow(_, _) => self.named(b" address", released),
            Recv::Fill(t, more) => self.fill(t, more, counter, released),
            Recv::LockByte => self.named(b" lock data", released),
            Recv::LockTaken(_) => self.named(b" second lock data", released),
        }
    }

    // The line of a whole byte, told at its ninth clock; `before` is the chip there.
    fn byte(&self, note: Note, place: usize, before: Line, one: bool, released: bool) {
        self.places(note.first, place);
        let byte = if matches!(before.phase, Phase::Send(_)) {
            note.seen
        } else {
            note.sent
        };
        self.host.say_byte(byte);
        match before.phase {
            Phase::Idle => {
                self.host.say(b", not addressed\n");
            }
            Phase::Receive(r) => self.received(r, before.core.counter, released),
            Phase::Send(t) => {
                self.host.say(b" read from ");
                self.target(t);
                self.answered(one);
            }
            Phase::Busy(_) => {
                self.host.say(b", not acknowledged: a cycle is running\n");
            }
        }
    }
}

// ---- other events

impl Teller<'_> {
    fn end(&self, place: usize, code: u8) {
        self.places(place, place);
        if code == 4 {
            self.host.say(b"cycle ended\n");
        } else {
            self.host.say(b"cycle given up by the reset\n");
        }
    }

    fn cycle(&self, place: usize, code: u8, before: Line, after: Line, cycles: u8) {
        if 0 < cycles {
            self.places(place, place);
            self.host.say(b"cycle begun\n");
        } else if matches!(before.phase, Phase::Busy(_)) && !matches!(after.phase, Phase::Busy(_)) {
            self.end(place, code);
        }
    }

    // No byte is under way any more.
    fn cut(&mut self, place: usize) {
        if let Some(note) = self.note {
            self.places(note.first, place);
            self.host.say_number(text::wide(note.clocks));
            self.host.say(b" clocks of a byte, given up\n");
        }
        self.note = None;
    }
}

// ---- the walk

impl Teller<'_> {
    // Nine clocks make a byte.
    fn clock(&mut self, place: usize, before: Line, one: bool, released: bool) {
        match self.note {
            None => {
                self.note = Some(Note::begun(place, one, released));
            }
            Some(note) if note.clocks < 8 => {
                self.note = Some(note.and(one, released));
            }
            Some(note) => {
                self.note = None;
                self.byte(note, place, before, one, released);
            }
        }
    }

    // A Start, a Stop or a reset leaves no byte under way; the end of a cycle and the pin leave it as it is.
    fn tell(&mut self, place: usize, before: Line, code: u8, stepped: Stepped) {
        self.cycle(place, code, before, stepped.chip.line, stepped.cycles);
        match code {
            0 | 1 => self.clock(place, before, code == 1, stepped.level == 1),
            2 | 3 | 8 => self.cut(place),
            _ => {}
        }
    }
}

fn turn(
    teller: &mut Teller<'_>,
    part: u8,
    enable: u8,
    held: Chip,
    place: usize,
    code: u8,
    array: &mut [u8],
    id: &mut [u8],
) -> Stepped
    ensures answer { result ≡ (step_of part enable old held (mem array.old id.old) code).answer }
    ensures cells { array.new ≡ (step_of part enable old held (mem array.old id.old) code).mem.cells }
    ensures ident { id.new ≡ (step_of part enable old held (mem array.old id.old) code).mem.ident }
{
    let stepped = chip::step(part, enable, Loss::Old, b"", held, array, id, code);
    teller.tell(place, held.line, code, stepped);
    stepped
}

// Every letter's step, one after the other: the levels into the lent buffer, and the sum of the cycles.
fn follow(
    teller: &mut Teller<'_>,
    part: u8,
    enable: u8,
    first: Chip,
    letters: &[u8],
    array: &mut [u8],
    id: &mut [u8],
    levels: &mut [u8],
) -> usize
    requires { (length letters.now ≤ 32768) × (length levels.old ≡ length letters.now) }
    ensures count { result ≡ (steps_of part enable old first (mem array.old id.old) (codes_of letters.now)).cycles }
    ensures levels { levels.new
        ≡ (steps_of part enable old first (mem array.old id.old) (codes_of letters.now)).levels }
{
    let mut held = first;
    let mut cycles: usize = 0;
    for (i, letter) in letters.iter().enumerate() {
        let s = turn(
            teller,
            part,
            enable,
            held,
            i,
            trace::code_of(*letter),
            array,
            id,
        );
        levels[i] = s.level;
        cycles += s.cycles as usize;
        held = s.chip;
    }
    cycles
}

// From delivery. A text that is judged fine: its steps are its run.
fn walk(
    host: &Host,
    part: u8,
    enable: u8,
    letters: &[u8],
    array: &mut [u8],
    id: &mut [u8],
    levels: &mut [u8],
) -> usize
    requires { (traced_verdict_of part enable (codes_of letters.now) ≡ Ok tt) × (length levels.old ≡ length letters.now)
        × (length array.old ≡ (facts_of part).size) × (length id.old ≡ id_size_of (facts_of part)) }
    ensures count { result ≡ cycles_of (ours (facts_of part) enable) (standby_of (facts_of part) false) (codes_of letters.now) }
    ensures levels { levels.new
        ≡ levels_of (ours (facts_of part) enable) (standby_of (facts_of part) false) (delivered_of part) (codes_of letters.now) }
{
    let delivered = chip::deliver(part, array, id);
    let mut teller = Teller::new(host, part);
    follow(
        &mut teller,
        part,
        enable,
        delivered.chip,
        letters,
        array,
        id,
        levels,
    )
}

fn tell_fitted(
    host: &Host,
    part: u8,
    enable: u8,
    letters: &[u8],
    array: &mut [u8],
    id: &mut [u8],
    levels: &mut [u8],
    out: &mut [u8],
) -> Traced
    requires { (traced_verdict_of part enable (codes_of letters.now) ≡ Ok tt) × (length levels.old ≡ length letters.now)
        × (length array.old ≡ (facts_of part).size) × (length id.old ≡ id_size_of (facts_of part)) }
    ensures answer { result ≡ (laying_of out.old (traced_of part enable (codes_of letters.now))).answer }
    ensures text { out.new ≡ (laying_of out.old (traced_of part enable (codes_of letters.now))).out }
{
    let cycles = walk(host, part, enable, letters, array, id, levels);
    trace::print(part, Ok(()), levels, cycles, out)
}

fn tell_letters(host: &Host, part: u8, enable: u8, letters: &[u8], out: &mut [u8]) -> Traced
    requires { traced_verdict_of part enable (codes_of letters.now) ≡ Ok tt }
    ensures answer { result ≡ (laying_of out.old (traced_of part enable (codes_of letters.now))).answer }
    ensures text { out.new ≡ (laying_of out.old (traced_of part enable (codes_of letters.now))).out }
{
    let mut array = [0u8; 32768];
    let mut id = [0u8; 64];
    let mut levels = [0u8; 32768];
    tell_fitted(
        host,
        part,
        enable,
        letters,
        fitted::array(part, &mut array),
        fitted::id(part, &mut id),
        &mut levels[..letters.len()],
        out,
    )
}

fn refused(r: Refusal, out: &mut [u8]) -> Traced
    ensures answer { result ≡ (laying_of out.old (refusal_text_of r)).answer }
    ensures text { out.new ≡ (laying_of out.old (refusal_text_of r)).out }
{
    trace::print(0, Err(r), &[], 0, out)
}

// The answer of `trace`, from one reading and one run of the text; the run is told on the way. Of a refused text nothing is told.
pub fn explain(host: &Host, text: &[u8], out: &mut [u8]) -> Traced
    ensures answer { result ≡ (laying_of out.old (trace_of text.now)).answer }
    ensures text { out.new ≡ (laying_of out.old (trace_of text.now)).out }
{
    let judged = trace::judge(text);
    match judged.verdict {
        Ok(()) => tell_letters(host, judged.part, judged.enable, trace::letters(text), out),
        Err(r) => refused(r, out),
    }
}
