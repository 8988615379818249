// The model over a capture, event by event: judged once, the latches lent.
ghost use Rattle.std.specs.Prelude.{◌≡◌, ℕ, ◌+◌, ◌-◌, ◌*◌, ◌%◌, ◌≤◌, ◌<◌, length, true, not, cond, ◌&&◌, List, eqb, ltb, Ok};
ghost use Rattle.parts.specs.Bytes.{AllBelow};
ghost use Rattle.parts.specs.Table.{facts_of};
ghost use Rattle.line.specs.Rules.{sent_of, send_level_of};
ghost use Rattle.chip.specs.Model.{ours};
ghost use Rattle.chip.specs.Memory.{mem, chip, seen_of};
ghost use Rattle.capture.specs.Marks.{compared_of, clock_of, sooner_mark};
ghost use Rattle.capture.specs.Ends.{busy_in, end_due_of};
ghost use Rattle.capture.specs.Calls.{seen_by, seen_mem, seen_left_of};
ghost use Rattle.capture.specs.Steps.{left_of, quiet_of};
ghost use Rattle.capture.specs.Course.{Moves, Ended, noted_of, Taken, Turned, standing};

use crate::samples::Next;
use crate::{Mark, Seen};
use line::{Line, Phase, Target};
use parts::Verdict;
use state::Chip;

// Where the run stands: the line, the clocks since the last Start, Stop or whole byte, and what was counted and marked.
#[derive(Clone, Copy)]
struct Going {
    line: Line,
    place: u8,
    events: usize,
    clocks: usize,
    ends: usize,
    cycles: usize,
    mark: Mark,
}

fn busy(phase: Phase) -> bool
    ensures { result ≡ busy_in phase }
{
    matches!(phase, Phase::Busy(_))
}

// Whether the level is one of those that are compared.
fn compared(line: Line, place: u8) -> bool
    ensures { result ≡ compared_of line place }
{
    match line.phase {
        Phase::Idle => place == 8,
        Phase::Receive(_) => place == 8,
        Phase::Send(_) => 0 < line.left,
        Phase::Busy(_) => place == 8,
    }
}

// Whether an event leaves latches and buffers alone: a clock, but for the ninth of a byte that comes in.
fn quiet(line: Line, code: u8) -> bool
    ensures { result ≡ quiet_of line code }
{
    if 1 < code {
        return false;
    }
    match line.phase {
        Phase::Idle => true,
        Phase::Receive(_) => 0 < line.left,
        Phase::Send(_) => true,
        Phase::Busy(_) => true,
    }
}

// What an event does to the line, the level and the cycles begun.
#[derive(Clone, Copy)]
struct Step {
    line: Line,
    level: u8,
    cycles: u8,
}

fn released(line: Line) -> Step
    ensures { result ≡ record { line = line; level = 1; cycles = 0 } }
{
    Step {
        line,
        level: 1,
        cycles: 0,
    }
}

// A bit that comes in, before the acknowledge.
fn bit_in(line: Line, code: u8) -> Step
    requires { (0 < line.left) × (code < 2) }
    ensures { result
        ≡ record {
          line = record { core = line.core; phase = line.phase; left = line.left - 1; shift = line.shift % 128 * 2 + code };
          level = 1;
          cycles = 0;
        } }
{
    Step {
        line: Line {
            left: line.left - 1,
            shift: line.shift % 128 * 2 + code,
            ..line
        },
        level: 1,
        cycles: 0,
    }
}

// A bit that goes out, or the master's answer to it.
fn bit_out(part: u8, line: Line, target: Target, array: &[u8], id: &[u8], code: u8) -> Step
    ensures { result
        ≡ record {
          line = sent_of (facts_of part) line (eqb code 1) target line.left;
          level = send_level_of (seen_of (facts_of part) line (mem array.now id.now) line.phase) line.left;
          cycles = 0;
        } }
{
    let byte = chip::seen(part, line, array, id);
    let m = line::send(part, line, target, byte, code == 1);
    Step {
        line: m.line,
        level: m.level,
        cycles: 0,
    }
}

// A clock that leaves the latches alone.
fn clocked(part: u8, line: Line, array: &[u8], id: &[u8], code: u8) -> Step
    requires { quiet_of line code ≡ true }
    ensures { (en : ℕ) (k : List ℕ) → Moves (ours (facts_of part) en) (chip line k) (mem array.now id.now) code result
        (chip result.line k) (mem array.now id.now) }
{
    match line.phase {
        Phase::Idle => released(line),
        Phase::Receive(_) => bit_in(line, code),
        Phase::Send(t) => bit_out(part, line, t, array, id, code),
        Phase::Busy(_) => released(line),
    }
}

fn stirred(
    part: u8,
    enable: u8,
    line: Line,
    latch: &mut [u16; 64],
    array: &mut [u8],
    id: &mut [u8],
    code: u8,
) -> Step
    requires { length latch.old ≡ 64 }
    ensures step { Moves (ours (facts_of part) enable) (chip line latch.old) (mem array.old id.old) code result
        (chip result.line latch.new) (mem array.new id.new) }
    ensures room { length latch.new ≡ 64 }
{
    let held = Chip {
        line,
        latch: *latch,
    };
    let s = chip::take(part, enable, held, array, id, code);
    let kept = s.chip.latch;
    *latch = kept;
    Step {
        line: s.chip.line,
        level: s.level,
        cycles: s.cycles,
    }
}

fn moved(
    part: u8,
    enable: u8,
    line: Line,
    latch: &mut [u16; 64],
    array: &mut [u8],
    id: &mut [u8],
    code: u8,
) -> Step
    requires { length latch.old ≡ 64 }
    ensures step { Moves (ours (facts_of part) enable) (chip line latch.old) (mem array.old id.old) code result
        (chip result.line latch.new) (mem array.new id.new) }
    ensures room { length latch.new ≡ 64 }
{
    if quiet(line, code) {
        clocked(part, line, array, id, code)
    } else {
        stirred(part, enable, line, latch, array, id, code)
    }
}

// At the Start of an acknowledged byte, in a cycle.
fn end_due(bus: bool, line: Line, samples: &[u8], next: Next) -> bool
    requires { (0 < next.next) × (next.next ≤ length samples.now) × AllBelow 4 samples.now }
    ensures { (k : List ℕ) → result ≡ end_due_of (chip line k) next.code (left_of bus samples.now next.next) }
{
    if next.code != 2 {
        return false;
    }
    if !busy(line.phase) {
        return false;
    }
    crate::samples::acked(bus, samples, next.next)
}

// The cycle ends where it is due.
fn ended(
    due: bool,
    part: u8,
    enable: u8,
    g: Going,
    latch: &mut [u16; 64],
    array: &mut [u8],
    id: &mut [u8],
) -> Going
    requires { (length latch.old ≡ 64) × (g.ends < 18446744073709551615) }
    ensures step { Ended (ours (facts_of part) enable) (chip g.line latch.old) (mem array.old id.old) due g result
        (chip result.line latch.new) (mem array.new id.new) }
    ensures room { length latch.new ≡ 64 }
{
    if !due {
        return g;
    }
    let m = stirred(part, enable, g.line, latch, array, id, 4);
    Going {
        line: m.line,
        ends: g.ends + 1,
        ..g
    }
}

// The first difference stays.
fn marked(mark: Mark, differs: bool, at: usize, clock: usize, code: u8) -> Mark
    ensures { result ≡ sooner_mark mark (cond differs (Mark.At at clock code) Mark.Same) }
{
    match mark {
        Mark::Same => {
            if differs {
                return Mark::At(at, clock, code);
            }
            Mark::Same
        }
        Mark::At(_, _, _) => mark,
    }
}

// A clock that is compared, and differs.
fn differs(looked: bool, level: u8, code: u8) -> bool
    ensures { result ≡ (ltb code 2 && (looked && not (eqb level code))) }
{
    (code < 2) & (looked & (level != code))
}

fn clock(code: u8) -> usize
    ensures { result ≡ clock_of code }
{
    if code < 2 { 1 } else { 0 }
}

// What is counted and marked at an event, which takes the line so.
fn noted(g: Going, m: Step, differs: bool, at: usize, code: u8) -> Going
    requires { (g.events < at) × (g.clocks < at) × (g.cycles < at) × (m.cycles ≤ 1) }
    ensures { result ≡ noted_of g m differs at code }
{
    Going {
        line: m.line,
        place: crate::place_after(g.place, code),
        events: g.events + 1,
        clocks: g.clocks + clock(code),
        ends: g.ends,
        cycles: g.cycles + m.cycles as usize,
        mark: marked(g.mark, differs, at, g.clocks, code),
    }
}

// One event of the capture.
fn taken(
    part: u8,
    enable: u8,
    g: Going,
    latch: &mut [u16; 64],
    array: &mut [u8],
    id: &mut [u8],
    at: usize,
    code: u8,
) -> Going
    requires { (length latch.old ≡ 64) × (g.events < at) × (g.clocks < at) × (g.cycles < at) }
    ensures step { Taken (ours (facts_of part) enable) (chip g.line latch.old) (mem array.old id.old) at code g result
        (chip result.line latch.new) (mem array.new id.new) }
    ensures room { length latch.new ≡ 64 }
{
    let looked = compared(g.line, g.place);
    let m = moved(part, enable, g.line, latch, array, id, code);
    let differs = differs(looked, m.level, code);
    noted(g, m, differs, at, code)
}

// What is found of the capture next.
fn turn(
    part: u8,
    enable: u8,
    bus: bool,
    g: Going,
    latch: &mut [u16; 64],
    array: &mut [u8],
    id: &mut [u8],
    samples: &[u8],
    next: Next,
) -> Going
    requires { (length latch.old ≡ 64)
        × (g.events < next.at)
        × (g.clocks < next.at)
        × (g.ends < next.at)
        × (g.cycles < next.at)
        × (next.code < 4)
        × (0 < next.next)
        × (next.next ≤ length samples.now)
        × AllBelow 4 samples.now }
    ensures step { Turned (ours (facts_of part) enable) (chip g.line latch.old) (mem array.old id.old)
        next.at next.code (left_of bus samples.now next.next) g result
        (chip result.line latch.new) (mem array.new id.new) }
    ensures room { length latch.new ≡ 64 }
{
    let due = end_due(bus, g.line, samples, next);
    let ready = ended(due, part, enable, g, latch, array, id);
    taken(part, enable, ready, latch, array, id, next.at, next.code)
}

fn go_all(
    part: u8,
    enable: u8,
    line: Line,
    latch: &mut [u16; 64],
    array: &mut [u8],
    id: &mut [u8],
    bus: bool,
    samples: &[u8],
) -> Going
    requires { (length latch.old ≡ 64) × AllBelow 4 samples.now }
    ensures { standing (chip result.line latch.new) (mem array.new id.new) result
        ≡ seen_left_of (ours (facts_of part) enable) (chip line latch.old) (mem array.old id.old) bus samples.now (Ok tt) }
{
    let mut g = Going {
        line,
        place: 0,
        events: 0,
        clocks: 0,
        ends: 0,
        cycles: 0,
        mark: Mark::Same,
    };
    let mut i = 1;
    while let Some(next) = crate::samples::next_event(bus, samples, i) {
        g = turn(part, enable, bus, g, latch, array, id, samples, next);
        i = next.next;
    }
    g
}

pub(crate) fn go(
    part: u8,
    enable: u8,
    chip: Chip,
    array: &mut [u8],
    id: &mut [u8],
    bus: bool,
    samples: &[u8],
) -> Seen
    requires { AllBelow 4 samples.now }
    ensures answer { result ≡ seen_by (ours (facts_of part) enable) chip (mem array.old id.old) bus samples.now (Ok tt) }
    ensures stored { mem array.new id.new
        ≡ seen_mem (ours (facts_of part) enable) chip (mem array.old id.old) bus samples.now (Ok tt) }
{
    let mut latch = chip.latch;
    let g = go_all(part, enable, chip.line, &mut latch, array, id, bus, samples);
    Seen {
        verdict: Ok(()),
        events: g.events,
        clocks: g.clocks,
        ends: g.ends,
        cycles: g.cycles,
        mark: g.mark,
        chip: Chip {
            line: g.line,
            latch,
        },
    }
}
