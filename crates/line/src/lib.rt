// One bus event on the state of a chip, without its latches and its memory: they stand in the layer above.
#![tactic(auto)]

ghost use Rattle.std.specs.Prelude.{◌≡◌, ◌+◌, ◌*◌, ◌<◌};
ghost use Rattle.parts.specs.Table.{facts_of};
ghost use Rattle.line.specs.Rules.{is_high, at, given_up, roll_of, before_of, onward_of, enabled_of, named_of, decode_of, address_start_of, selected_of, array_address_of, location_of, asks_lock_of, load_array_of, load_id_of, loaded_of, refuses_of, latched_of, taken_of, filled_of, locked_by_of, ended_by_of, marked_in, received_of, receive_act_of, receive_level_of, released_in, moved_of, sent_of, send_level_of, clocked_of, clock_act_of, clock_level_of, started_of, start_act_of, asks_of, placed_of, due_of, stopped_of, stop_act_of, stop_begun_of, ended_of, end_act_of, pinned_of, lock_left, lock_cut, lock_at_reset, reset_of, opened, marked, quietly, move_of};

use parts::{ArrayAddress, Event, IdLocation, Loss};

#[derive(Clone, Copy)]
pub enum Pin {
    // The part has no pin.
    Absent,
    Low,
    High,
    Floating,
}

#[derive(Clone, Copy)]
pub enum Target {
    Array,
    Ident,
}

// What the byte that is being received is.
#[derive(Clone, Copy)]
pub enum Recv {
    Select,
    AddressHigh(Target),
    // The last address byte, with the bits above it.
    AddressLow(Target, u8),
    // Data, and whether a byte was acknowledged before it.
    Fill(Target, bool),
    LockByte,
    // A lock byte was acknowledged; whether its bit 1 was set.
    LockTaken(bool),
}

// Either kind has what it is for: no value that may be missing.
#[derive(Clone, Copy)]
pub enum Cycle {
    Writing(Target),
    Locking,
}

#[derive(Clone, Copy)]
pub enum Phase {
    // Standby, or released until the next Start: nothing can tell them apart.
    Idle,
    Receive(Recv),
    Send(Target),
    Busy(Cycle),
}

// What outlives a byte, without the latches.
#[derive(Clone, Copy)]
pub struct Core {
    pub counter: u16,
    pub pin: Pin,
    pub inhibited: bool,
    pub locked: bool,
}

#[derive(Clone, Copy)]
pub struct Line {
    pub core: Core,
    pub phase: Phase,
    // Bits still to come before the acknowledge.
    pub left: u8,
    pub shift: u8,
}

// What becomes of the latches.
#[derive(Clone, Copy)]
pub enum Act {
    Keep,
    Drop,
    Put(usize, u8),
}

// What a whole received byte leaves.
#[derive(Clone, Copy)]
pub struct After {
    pub core: Core,
    pub phase: Phase,
    pub act: Act,
}

#[derive(Clone, Copy)]
pub struct LineMove {
    pub line: Line,
    pub act: Act,
    // 0 pulls low, 1 releases, 2 no level: numbers, as the C interface has them and `level_of` says.
    pub level: u8,
    // How many cycles begin: 0 or 1, as the C interface counts them.
    pub cycles: u8,
}

pub fn is_high(pin: Pin) -> bool
    ensures { result ≡ is_high pin }
{
    matches!(pin, Pin::High)
}

fn at_phase(core: Core, phase: Phase) -> Line
    ensures { result ≡ at core phase }
{
    Line {
        core,
        phase,
        left: 8,
        shift: 0,
    }
}

// A part goes from function to function as its number, and each looks its facts up: with the facts in its place, 16 functions here would have to
// require `Sound f`, which `facts_of` gives to each that asks.

// ---- the page rule

// Rule 3, where a page write turns back: the next place in the page, and behind the page's last place its first.
#[tactic(auto, unfolding(crate::specs::Rules::roll_of))]
fn rolled(part: u8, counter: u16) -> u16
    ensures { result ≡ roll_of (facts_of part).page counter }
{
    let p = parts::facts_of(part).page;
    let c = usize::from(counter);
    let base = c / p * p;
    (base + (c + 1) % p) as u16
}

// The place before the counter in its page, rolled over.
#[tactic(auto, unfolding(crate::specs::Rules::before_of))]
fn before(part: u8, counter: u16) -> usize
    ensures { result ≡ before_of (facts_of part).page counter }
{
    let p = parts::facts_of(part).page;
    let c = usize::from(counter);
    c / p * p + (c + (p - 1)) % p
}

#[tactic(auto, unfolding(crate::specs::Rules::onward_of))]
fn onward(part: u8, counter: u16) -> u16
    ensures { result ≡ onward_of (facts_of part) counter }
{
    let last = before(part, counter);
    ((last + 1) % parts::facts_of(part).size) as u16
}

// ---- rule 1

#[tactic(auto, unfolding(crate::specs::Rules::named_of))]
// What a select byte names, and whether it asks for a read.
fn named(part: u8, byte: u8) -> Option<(Target, bool)>
    ensures { result ≡ named_of (facts_of part) byte }
{
    let f = parts::facts_of(part);
    if byte / 16 == 10 {
        return Some((Target::Array, byte % 2 == 1));
    }
    if byte / 16 == 11 {
        if f.ident {
            return Some((Target::Ident, byte % 2 == 1));
        }
        return None;
    }
    None
}

#[tactic(auto, unfolding(crate::specs::Rules::decode_of))]
fn decode(part: u8, enable: u8, byte: u8) -> Option<(Target, bool)>
    ensures { result ≡ decode_of (facts_of part) enable byte }
{
    let on = enabled(part, enable, byte);
    if on {
        return named(part, byte);
    }
    None
}

#[tactic(auto, unfolding(crate::specs::Rules::enabled_of))]
fn enabled(part: u8, enable: u8, byte: u8) -> bool
    ensures { result ≡ enabled_of (facts_of part) enable byte }
{
    !parts::facts_of(part).wide || byte / 2 % 8 == enable
}

#[tactic(auto, unfolding(crate::specs::Rules::address_start_of))]
fn first(part: u8, target: Target, byte: u8) -> Recv
    ensures { result ≡ address_start_of (facts_of part) target byte }
{
    let wide = parts::facts_of(part).wide;
    match target {
        Target::Array if wide => Recv::AddressHigh(Target::Array),
        Target::Array => Recv::AddressLow(Target::Array, byte / 2 % 8),
        Target::Ident if wide => Recv::AddressHigh(Target::Ident),
        Target::Ident => Recv::AddressLow(Target::Ident, 0),
    }
}

#[tactic(auto, unfolding(crate::specs::Rules::selected_of))]
fn select(part: u8, core: Core, byte: u8, heard: Option<(Target, bool)>) -> After
    ensures { result ≡ selected_of (facts_of part) core byte heard }
{
    match heard {
        None => After {
            core,
            phase: Phase::Idle,
            act: Act::Keep,
        },
        Some((t, read)) => {
            if read {
                return After {
                    core,
                    phase: Phase::Send(t),
                    act: Act::Keep,
                };
            }
            let r = first(part, t, byte);
            After {
                core,
                phase: Phase::Receive(r),
                act: Act::Keep,
            }
        }
    }
}

// ---- rule 2: the two numbers are made here, whole; each load takes its own and only copies it

// The address that two bytes make.
fn address(high: u8, low: u8) -> usize
    ensures { result ≡ high * 256 + low }
{
    usize::from(u16::from_be_bytes([high, low]))
}

// Bits above the array size are ignored.
fn array_address(part: u8, a: usize) -> ArrayAddress
    ensures value { result ≡ array_address_of (facts_of part) a }
    ensures range { result.0 < 65536 }
{
    ArrayAddress(a % parts::facts_of(part).size)
}

fn location(part: u8, a: usize) -> IdLocation
    ensures value { result ≡ location_of (facts_of part) a }
    ensures range { result.0 < 65536 }
{
    IdLocation(a % parts::facts_of(part).page)
}

fn asks_lock(part: u8, a: usize) -> bool
    ensures { result ≡ asks_lock_of (facts_of part) a }
{
    a / parts::facts_of(part).lock % 2 == 1
}

#[tactic(auto, unfolding(crate::specs::Rules::load_array_of))]
fn load_array(core: Core, a: ArrayAddress) -> After
    requires { a.0 < 65536 }
    ensures { result ≡ load_array_of core a }
{
    After {
        core: Core {
            counter: a.0 as u16,
            ..core
        },
        phase: Phase::Receive(Recv::Fill(Target::Array, false)),
        act: Act::Drop,
    }
}

#[tactic(auto, unfolding(crate::specs::Rules::load_id_of))]
fn load_id(core: Core, at: IdLocation, lock: bool) -> After
    requires { at.0 < 65536 }
    ensures { result ≡ load_id_of core at lock }
{
    let core = Core {
        counter: at.0 as u16,
        ..core
    };
    let recv = if lock {
        Recv::LockByte
    } else {
        Recv::Fill(Target::Ident, false)
    };
    After {
        core,
        phase: Phase::Receive(recv),
        act: Act::Drop,
    }
}

#[tactic(auto, unfolding(crate::specs::Rules::loaded_of))]
fn load(part: u8, core: Core, target: Target, a: usize) -> After
    ensures { result ≡ loaded_of (facts_of part) core target a }
{
    match target {
        Target::Array => load_array(core, array_address(part, a)),
        Target::Ident => load_id(core, location(part, a), asks_lock(part, a)),
    }
}

// ---- rules 3, 4, 5

#[tactic(auto, unfolding(crate::specs::Rules::refuses_of))]
fn refuses(core: Core, target: Target) -> bool
    ensures { result ≡ refuses_of core target }
{
    match target {
        Target::Array => core.inhibited,
        Target::Ident => core.inhibited || core.locked,
    }
}

fn give_up(core: Core) -> After
    ensures { result ≡ given_up core }
{
    After {
        core,
        phase: Phase::Idle,
        act: Act::Drop,
    }
}

#[tactic(auto, unfolding(crate::specs::Rules::latched_of))]
fn latch(part: u8, core: Core, target: Target, byte: u8) -> After
    ensures { result ≡ latched_of (facts_of part) core target byte }
{
    let p = parts::facts_of(part).page;
    let c = core.counter;
    let n = rolled(part, c);
    After {
        core: Core { counter: n, ..core },
        phase: Phase::Receive(Recv::Fill(target, true)),
        act: Act::Put(usize::from(c) % p, byte),
    }
}

#[tactic(auto, unfolding(crate::specs::Rules::filled_of))]
fn fill(part: u8, core: Core, target: Target, byte: u8) -> After
    ensures { result ≡ filled_of (facts_of part) core target byte }
{
    if refuses(core, target) {
        give_up(core)
    } else {
        latch(part, core, target, byte)
    }
}

#[tactic(auto, unfolding(crate::specs::Rules::locked_by_of))]
fn lock(core: Core, byte: u8) -> After
    ensures { result ≡ locked_by_of core byte }
{
    if refuses(core, Target::Ident) {
        return give_up(core);
    }
    After {
        core,
        phase: Phase::Receive(Recv::LockTaken(byte / 2 % 2 == 1)),
        act: Act::Keep,
    }
}

// What a whole received byte does.
#[tactic(auto, unfolding(crate::specs::Rules::taken_of))]
fn take(part: u8, enable: u8, core: Core, recv: Recv, byte: u8) -> After
    ensures { result ≡ taken_of (facts_of part) enable core recv byte }
{
    match recv {
        Recv::Select => select(part, core, byte, decode(part, enable, byte)),
        Recv::AddressHigh(t) => After {
            core,
            phase: Phase::Receive(Recv::AddressLow(t, byte)),
            act: Act::Keep,
        },
        Recv::AddressLow(t, high) => load(part, core, t, address(high, byte)),
        Recv::Fill(t, _) => fill(part, core, t, byte),
        Recv::LockByte => lock(core, byte),
        Recv::LockTaken(_) => give_up(core),
    }
}

// ---- a clock

fn released(phase: Phase) -> u8
    ensures { result ≡ released_in phase }
{
    match phase {
        Phase::Idle => 1,
        Phase::Receive(_) | Phase::Send(_) | Phase::Busy(_) => 0,
    }
}

#[tactic(auto, unfolding(crate::specs::Rules::received_of, crate::specs::Rules::receive_act_of, crate::specs::Rules::receive_level_of))]
fn receive(part: u8, enable: u8, line: Line, recv: Recv, value: bool) -> LineMove
    ensures { result
        ≡ record {
          line = received_of (facts_of part) enable line value recv line.left;
          act = receive_act_of (facts_of part) enable line recv
              line.left;
          level = receive_level_of (facts_of part) enable line recv line.left;
          cycles = 0;
        } }
{
    if line.left == 0 {
        let after = take(part, enable, line.core, recv, line.shift);
        return LineMove {
            line: at_phase(after.core, after.phase),
            act: after.act,
            level: released(after.phase),
            cycles: 0,
        };
    }
    LineMove {
        line: Line {
            phase: Phase::Receive(recv),
            left: line.left - 1,
            shift: line.shift % 128 * 2 + parts::flag(value),
            ..line
        },
        act: Act::Keep,
        level: 1,
        cycles: 0,
    }
}

// The counter after a bit was sent: it moves at the eighth.
#[tactic(auto, unfolding(crate::specs::Rules::moved_of))]
fn count_on(part: u8, core: Core, target: Target, left: u8) -> Core
    ensures { result ≡ moved_of (facts_of part) core target left }
{
    if left != 0 {
        return core;
    }
    let f = parts::facts_of(part);
    let next = usize::from(core.counter) + 1;
    match target {
        Target::Array => Core {
            counter: (next % f.size) as u16,
            ..core
        },
        Target::Ident => Core {
            counter: (next % f.page) as u16,
            ..core
        },
    }
}

#[tactic(auto, unfolding(crate::specs::Rules::send_level_of))]
fn bit_at(byte: u8, left: u8) -> u8
    ensures { result ≡ send_level_of byte left }
{
    if left == 0 {
        1
    } else if left <= 8 {
        (byte >> (left - 1)) % 2
    } else {
        0
    }
}

// A clock of a byte that is sent.
#[tactic(auto, unfolding(crate::specs::Rules::sent_of))]
pub fn send(part: u8, line: Line, target: Target, byte: u8, value: bool) -> LineMove
    ensures { result
        ≡ record { line = sent_of (facts_of part) line value target line.left; act = Act.Keep; level = send_level_of byte line.left; cycles = 0 } }
{
    let level = bit_at(byte, line.left);
    if line.left == 0 {
        let next = if value {
            Phase::Idle
        } else {
            Phase::Send(target)
        };
        return LineMove {
            line: at_phase(line.core, next),
            act: Act::Keep,
            level,
            cycles: 0,
        };
    }
    LineMove {
        line: Line {
            core: count_on(part, line.core, target, line.left - 1),
            phase: Phase::Send(target),
            left: line.left - 1,
            ..line
        },
        act: Act::Keep,
        level,
        cycles: 0,
    }
}

fn release(line: Line) -> LineMove
    ensures { result ≡ record { line = line; act = Act.Keep; level = 1; cycles = 0 } }
{
    LineMove {
        line,
        act: Act::Keep,
        level: 1,
        cycles: 0,
    }
}

#[tactic(auto, unfolding(crate::specs::Rules::clocked_of, crate::specs::Rules::clock_act_of, crate::specs::Rules::clock_level_of))]
fn clock(part: u8, enable: u8, line: Line, byte: u8, value: bool) -> LineMove
    ensures { result
        ≡ record {
          line = clocked_of (facts_of part) enable line value line.phase;
          act = clock_act_of (facts_of part) enable line
              line.phase;
          level = clock_level_of (facts_of part) enable line byte line.phase;
          cycles = 0;
        } }
{
    match line.phase {
        Phase::Idle | Phase::Busy(_) => release(line),
        Phase::Receive(r) => receive(part, enable, line, r, value),
        Phase::Send(t) => send(part, line, t, byte, value),
    }
}

// ---- the other events

fn quiet(line: Line, act: Act) -> LineMove
    ensures { result ≡ quietly line act }
{
    LineMove {
        line,
        act,
        level: 2,
        cycles: 0,
    }
}

fn open(core: Core) -> LineMove
    ensures { result ≡ quietly (opened core) Act.Drop }
{
    let marked = Core {
        inhibited: is_high(core.pin),
        ..core
    };
    quiet(at_phase(marked, Phase::Receive(Recv::Select)), Act::Drop)
}

#[tactic(auto, unfolding(crate::specs::Rules::started_of, crate::specs::Rules::start_act_of))]
fn start(line: Line) -> LineMove
    ensures { result ≡ quietly (started_of line line.phase) (start_act_of line.phase) }
{
    match line.phase {
        Phase::Idle | Phase::Receive(_) | Phase::Send(_) => open(line.core),
        Phase::Busy(_) => quiet(line, Act::Keep),
    }
}

#[tactic(auto, unfolding(crate::specs::Rules::asks_of))]
fn asks(recv: Recv) -> Option<Cycle>
    ensures { result ≡ asks_of recv }
{
    match recv {
        Recv::Select => None,
        Recv::AddressHigh(_) => None,
        Recv::AddressLow(_, _) => None,
        Recv::Fill(t, acked) => {
            if acked {
                return Some(Cycle::Writing(t));
            }
            None
        }
        Recv::LockByte => None,
        Recv::LockTaken(on) => {
            if on {
                return Some(Cycle::Locking);
            }
            None
        }
    }
}

#[tactic(auto, unfolding(crate::specs::Rules::placed_of))]
fn placed(line: Line) -> bool
    ensures { result ≡ placed_of line }
{
    line.left == 8 && !line.core.inhibited
}

// The cycle that a Stop begins while a byte is received.
fn due(line: Line, recv: Recv) -> Option<Cycle>
    ensures { result ≡ due_of (placed_of line) (asks_of recv) }
{
    let well = placed(line);
    if well {
        return asks(recv);
    }
    None
}

#[tactic(auto, unfolding(crate::specs::Rules::stopped_of, crate::specs::Rules::stop_act_of, crate::specs::Rules::stop_begun_of))]
fn stop_receiving(line: Line, recv: Recv) -> LineMove
    ensures { result
        ≡ record {
          line = stopped_of line (Phase.Receive recv);
          act = stop_act_of line (Phase.Receive recv);
          level = 2;
          cycles = stop_begun_of line
              (Phase.Receive recv);
        } }
{
    let core = line.core;
    let asked = due(line, recv);
    match asked {
        None => {
            let next = at_phase(core, Phase::Idle);
            quiet(next, Act::Drop)
        }
        Some(cycle) => {
            let next = at_phase(core, Phase::Busy(cycle));
            LineMove {
                line: next,
                act: Act::Keep,
                level: 2,
                cycles: 1,
            }
        }
    }
}

fn rest(core: Core) -> LineMove
    ensures { result ≡ quietly (at core Phase.Idle) Act.Drop }
{
    quiet(at_phase(core, Phase::Idle), Act::Drop)
}

#[tactic(auto, unfolding(crate::specs::Rules::stopped_of, crate::specs::Rules::stop_act_of, crate::specs::Rules::stop_begun_of))]
fn stop(line: Line) -> LineMove
    ensures { result
        ≡ record { line = stopped_of line line.phase; act = stop_act_of line line.phase; level = 2; cycles = stop_begun_of line line.phase } }
{
    match line.phase {
        Phase::Idle | Phase::Send(_) => rest(line.core),
        Phase::Receive(r) => stop_receiving(line, r),
        Phase::Busy(_) => quiet(line, Act::Keep),
    }
}

#[tactic(auto, unfolding(crate::specs::Rules::ended_by_of))]
fn end_writing(part: u8, core: Core, target: Target) -> LineMove
    ensures { result ≡ quietly (ended_by_of (facts_of part) core (Cycle.Writing target)) Act.Drop }
{
    match target {
        Target::Array => rest(Core {
            counter: onward(part, core.counter),
            ..core
        }),
        Target::Ident => rest(core),
    }
}

#[tactic(auto, unfolding(crate::specs::Rules::ended_by_of))]
fn end_cycle(part: u8, core: Core, cycle: Cycle) -> LineMove
    ensures { result ≡ quietly (ended_by_of (facts_of part) core cycle) Act.Drop }
{
    match cycle {
        Cycle::Writing(t) => end_writing(part, core, t),
        Cycle::Locking => rest(Core {
            locked: true,
            ..core
        }),
    }
}

#[tactic(auto, unfolding(crate::specs::Rules::ended_of, crate::specs::Rules::end_act_of))]
fn end(part: u8, line: Line) -> LineMove
    ensures { result ≡ quietly (ended_of (facts_of part) line line.phase) (end_act_of line.phase) }
{
    match line.phase {
        Phase::Idle | Phase::Receive(_) | Phase::Send(_) => quiet(line, Act::Keep),
        Phase::Busy(y) => end_cycle(part, line.core, y),
    }
}

fn mark(line: Line, pin: Pin, inhibited: bool) -> Line
    ensures { result ≡ marked line pin inhibited }
{
    Line {
        core: Core {
            pin,
            inhibited,
            ..line.core
        },
        ..line
    }
}

fn mark_in_transfer(line: Line, pin: Pin) -> Line
    ensures { result ≡ marked_in line pin }
{
    mark(line, pin, line.core.inhibited || is_high(pin))
}

#[tactic(auto, unfolding(crate::specs::Rules::pinned_of))]
fn set_pin(line: Line, pin: Pin) -> Line
    ensures { result ≡ pinned_of line pin line.phase }
{
    match line.phase {
        Phase::Idle | Phase::Busy(_) => mark(line, pin, line.core.inhibited),
        Phase::Receive(_) | Phase::Send(_) => mark_in_transfer(line, pin),
    }
}

// Whether a cycle that was locking leaves the lock set.
fn lock_left(loss: Loss) -> bool
    ensures { result ≡ lock_left loss }
{
    match loss {
        Loss::Old => false,
        Loss::Lent(lock) => lock,
    }
}

fn lock_cut(loss: Loss, lock: bool, cycle: Cycle) -> bool
    ensures { result ≡ lock_cut loss lock cycle }
{
    match cycle {
        Cycle::Writing(_) => lock,
        Cycle::Locking => lock_left(loss),
    }
}

fn lock_at_reset(loss: Loss, lock: bool, phase: Phase) -> bool
    ensures { result ≡ lock_at_reset loss lock phase }
{
    match phase {
        Phase::Idle | Phase::Receive(_) | Phase::Send(_) => lock,
        Phase::Busy(y) => lock_cut(loss, lock, y),
    }
}

#[tactic(auto, unfolding(crate::specs::Rules::reset_of))]
fn reset(loss: Loss, core: Core, phase: Phase) -> Line
    ensures { result ≡ reset_of loss core phase }
{
    let cleared = Core {
        counter: 0,
        inhibited: false,
        locked: lock_at_reset(loss, core.locked, phase),
        ..core
    };
    at_phase(cleared, Phase::Idle)
}

// One event; `byte` is the byte at the counter.
#[tactic(auto, unfolding(crate::specs::Rules::move_of, crate::specs::Rules::next_of, crate::specs::Rules::act_of, crate::specs::Rules::level_of, crate::specs::Rules::begun_of))]
pub fn advance(part: u8, enable: u8, line: Line, byte: u8, event: Event) -> LineMove
    ensures { result ≡ move_of (facts_of part) enable line byte event }
{
    match event {
        Event::Clock(value) => clock(part, enable, line, byte, value),
        Event::Start => start(line),
        Event::Stop => stop(line),
        Event::Ends => end(part, line),
        Event::PinLow => quiet(set_pin(line, Pin::Low), Act::Keep),
        Event::PinHigh => quiet(set_pin(line, Pin::High), Act::Keep),
        Event::PinFloat => quiet(set_pin(line, Pin::Floating), Act::Keep),
        Event::Reset(loss) => quiet(reset(loss, line.core, line.phase), Act::Drop),
        Event::Unknown => quiet(line, Act::Keep),
    }
}
