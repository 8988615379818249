// The driver of document 01: a value that is asked for one event a step and told the level of the last clock.
#![tactic(auto)]

ghost use Rattle.std.specs.Prelude.{◌≡◌, true, false, ◌+◌, ◌*◌, ◌≤◌, ◌<◌, length, MatchOption};
ghost use Rattle.parts.specs.Table.{facts_of};
ghost use Rattle.driver.specs.Split.{to_page_end_of, pages_met_of};
ghost use Rattle.driver.specs.Request.{
  from_of,
  room_of,
  there_of,
  beyond_at,
  limit_of,
  judge_of,
  allowed_of,
  k_of,
  GoodRequest,
};
ghost use Rattle.parts.specs.Refusals.{is_fine};
ghost use Rattle.driver.specs.Step.{select_name_of, select_at, wire_of, slot_byte_of, bit_of, ninth_of, shift_of, told_counts_of, sent_counts_of, ready_of, bits_at, follow_of, lead_at, low_at, data_at, poll_move_of, answered_of, take_at, end_of, heard_at, heard_move_of, bits_move_of, page_at, index_at, last_address_of, refusal_of, move_at, driver_step_of, clocks_of, slot_right, phase_right, counts_right, range_of, GoodCounts, driver_next_of, whole_of, here_of, byte_kept_of, buffer_of, begin_of, bad_state_of};

use parts::{ArrayAddress, Facts, IdLocation, Refusal, Verdict};

// What a request is for: each of the two numberings with its own type.
#[derive(Clone, Copy)]
pub enum Place {
    Array(ArrayAddress),
    Ident(IdLocation),
}

// A write of `length` bytes, or a read. The budget is the polls allowed for a page, for writes only. Part and enable stay numbers: `judge` refuses
// those that no part has (`judge_of`).
#[derive(Clone, Copy)]
pub struct Request {
    pub part: u8,
    pub enable: u8,
    pub place: Place,
    pub reads: bool,
    pub length: usize,
    pub budget: usize,
}

// The bytes that are on the bus.
#[derive(Clone, Copy)]
pub enum Slot {
    Select,
    // The first of two address bytes.
    High,
    // The last address byte.
    Low,
    // A byte that is written.
    Data,
    // The select of a poll.
    Poll,
    // The select with read, after the second Start of a read.
    Turn,
    // A byte that is read.
    Take,
}

// At which byte a driver was refused.
#[derive(Clone, Copy)]
pub enum Failed {
    // The select of a part, or either select of a read.
    AtSelect,
    // The first of two address bytes.
    AtHigh,
    // The last address byte.
    AtLow,
    AtData,
    // The select of the last poll allowed.
    AtPolls,
}

#[derive(Clone, Copy)]
pub enum Phase {
    // Before the Start of a part or a read, or all done.
    Ready,
    // In a byte: how many of its clocks are sent, 0 to 8.
    Bits(Slot, u8),
    // A byte's ninth clock is sent.
    Heard(Slot),
    // The Stop of a part is sent.
    Rest,
    // Refused, and the Stop is sent.
    Over(Failed),
}

#[derive(Clone, Copy, Default)]
pub struct Counts {
    // Data bytes sent, or got.
    pub at: usize,
    // Leading bytes whose cycle was seen to end: the first byte of the part under way.
    pub seen: usize,
    // Polls for this page, and in all.
    pub tries: usize,
    pub polls: usize,
    // The bits told so far of a byte that is read.
    pub byte: u8,
}

#[derive(Clone, Copy)]
pub struct Driver {
    pub request: Request,
    pub phase: Phase,
    pub counts: Counts,
}

#[derive(Clone, Copy)]
pub enum Answer {
    // An event to send: 0 and 1 a clock with that level, 2 Start, 3 Stop. A code, as the C interface hands it out (`sapwoodle_driver_next`).
    Send(u8),
    // Finished: the polls spent, and the bytes written or got.
    Done(usize, usize),
    // Finished, or bad input: the refusal, the polls spent, and the leading bytes whose cycle was seen to end.
    Refused(Refusal, usize, usize),
}

#[derive(Clone, Copy)]
pub struct Asked {
    pub answer: Answer,
    pub driver: Driver,
}

#[derive(Clone, Copy)]
pub struct Begun {
    pub verdict: Verdict,
    pub driver: Driver,
}

// A step of the driver, without its request.
#[derive(Clone, Copy)]
pub struct Move {
    pub answer: Answer,
    pub phase: Phase,
    pub counts: Counts,
}

// The bytes that a part can send.
#[derive(Clone, Copy)]
pub struct Wire {
    pub select: u8,
    pub high: u8,
    pub low: u8,
    pub value: u8,
}

const START: u8 = 2;

const STOP: u8 = 3;

// The splitter: how many of `length` bytes stand before the page's end.
#[tactic(auto, unfolding(crate::specs::Split::to_page_end_of))]
fn first(address: usize, length: usize, page: usize) -> usize
    requires { 0 < page }
    ensures { result ≡ to_page_end_of page address length }
{
    length.min(page - address % page)
}

// How many pages the bytes meet.
#[tactic(auto, unfolding(crate::specs::Split::pages_met_of))]
fn pages(address: usize, length: usize, page: usize) -> usize
    requires { (0 < page) × (address + length ≤ 65536) }
    ensures { result ≡ pages_met_of page address length }
{
    if length == 0 {
        0
    } else {
        (address % page + (length - 1)) / page + 1
    }
}

// Where the bytes of a request begin.
pub fn from(place: Place) -> usize
    ensures { result ≡ from_of place }
{
    match place {
        Place::Array(a) => a.0,
        Place::Ident(i) => i.0,
    }
}

fn room(f: Facts, place: Place) -> usize
    ensures { result ≡ room_of f place }
{
    match place {
        Place::Array(_) => f.size,
        Place::Ident(_) => parts::id_size(f),
    }
}

fn there(f: Facts, place: Place) -> bool
    ensures { result ≡ there_of f place }
{
    match place {
        Place::Array(_) => true,
        Place::Ident(_) => f.ident,
    }
}

// Refusal 7. The sum is not made, since it may not fit.
#[tactic(auto, unfolding(crate::specs::Request::beyond_at))]
fn beyond(from: usize, length: usize, room: usize, there: bool) -> bool
    ensures { result ≡ beyond_at from length room there }
{
    !there || room < from || room - from < length
}

// Refusal 8.
#[tactic(auto, unfolding(crate::specs::Request::limit_of))]
fn limit(reads: bool, budget: usize) -> bool
    ensures { result ≡ limit_of reads budget }
{
    !reads && (budget < 1 || 1000 < budget)
}

// What refuses a request: 1, 2, 7 or 8.
#[tactic(auto, unfolding(crate::specs::Request::judge_of))]
pub fn judge(request: Request) -> Verdict
    ensures { result ≡ judge_of request }
{
    let place = request.place;
    let f = parts::facts_of(request.part);
    let known = f.known;
    let right = parts::enable_right(f, request.enable);
    let b = beyond(from(place), request.length, room(f, place), there(f, place));
    let l = limit(request.reads, request.budget);
    let part = parts::claim(!known, Refusal::NoPart);
    let enable = parts::claim(!right, Refusal::WrongEnable);
    let far = parts::claim(b, Refusal::Beyond);
    let polls = parts::claim(l, Refusal::BadLimit);
    parts::sooner(part, parts::sooner(enable, parts::sooner(far, polls)))
}

// A driver before its first step.
fn fresh(request: Request) -> Driver
    ensures { result ≡ Rattle.driver.specs.Step.fresh request }
{
    Driver {
        request,
        phase: Phase::Ready,
        counts: Counts::default(),
    }
}

// A driver for a request. Where the request is refused, its driver answers refusal 4 at each step.
pub fn begin(request: Request) -> Begun
    ensures { result ≡ begin_of request }
{
    Begun {
        verdict: judge(request),
        driver: fresh(request),
    }
}

// The polls allowed for a page: none for a read.
#[tactic(auto, unfolding(crate::specs::Request::allowed_of))]
pub fn allowed(request: Request) -> usize
    ensures { result ≡ allowed_of request }
{
    if request.reads { 0 } else { request.budget }
}

fn name(place: Place) -> u8
    ensures { result ≡ select_name_of place }
{
    match place {
        Place::Array(_) => 160,
        Place::Ident(_) => 176,
    }
}

// The select code with write, for bytes from `x` on.
#[tactic(auto, unfolding(crate::specs::Step::select_at))]
fn select(name: u8, wide: bool, enable: u8, x: usize) -> u8
    requires { (name ≤ 176) × (enable ≤ 7) }
    ensures { result ≡ select_at name wide enable x }
{
    let bits = if wide { enable } else { (x / 256 % 8) as u8 };
    name + 2 * bits
}

fn byte(w: Wire, slot: Slot) -> u8
    requires { w.select < 255 }
    ensures { result ≡ slot_byte_of w slot }
{
    match slot {
        Slot::Select | Slot::Poll => w.select,
        Slot::High => w.high,
        Slot::Low => w.low,
        Slot::Data => w.value,
        Slot::Turn => w.select + 1,
        Slot::Take => 255,
    }
}

#[tactic(auto, unfolding(crate::specs::Step::bit_of))]
fn bit(byte: u8, i: u8) -> u8
    ensures { result ≡ bit_of byte i }
{
    if i < 8 { (byte >> (7 - i)) % 2 } else { 1 }
}

// The level of a ninth clock: the last byte that is read is not acknowledged.
fn ninth(slot: Slot, last: bool) -> u8
    ensures { result ≡ ninth_of slot last }
{
    match slot {
        Slot::Take => u8::from(last),
        _ => 1,
    }
}

#[tactic(auto, unfolding(crate::specs::Step::shift_of))]
fn shift(byte: u8, level: u8) -> u8
    ensures { result ≡ shift_of byte level }
{
    byte % 128 * 2 + u8::from(level != 0)
}

fn with_byte(c: Counts, byte: u8) -> Counts
    ensures { result ≡ Rattle.driver.specs.Step.with_byte c byte }
{
    Counts { byte, ..c }
}

fn with_next(c: Counts) -> Counts
    requires { c.at ≤ 65536 }
    ensures { result ≡ Rattle.driver.specs.Step.with_next c }
{
    Counts { at: c.at + 1, ..c }
}

// The counts after a level told inside a byte.
fn taken(slot: Slot, c: Counts, level: u8) -> Counts
    ensures { result ≡ told_counts_of slot c level }
{
    match slot {
        Slot::Take => with_byte(c, shift(c.byte, level)),
        _ => c,
    }
}

// The counts after a byte's ninth clock.
fn sent(slot: Slot, c: Counts) -> Counts
    requires { c.at ≤ 65536 }
    ensures { result ≡ sent_counts_of slot c }
{
    match slot {
        Slot::Data | Slot::Take => with_next(c),
        _ => c,
    }
}

// An event is sent.
fn send(event: u8, phase: Phase, counts: Counts) -> Move
    ensures { result ≡ Rattle.driver.specs.Step.send_then event phase counts }
{
    Move {
        answer: Answer::Send(event),
        phase,
        counts,
    }
}

#[tactic(auto, unfolding(crate::specs::Step::ready_of))]
fn ready(c: Counts, length: usize) -> Move
    ensures { result ≡ ready_of c length }
{
    if c.at == length {
        Move {
            answer: Answer::Done(c.polls, c.seen),
            phase: Phase::Ready,
            counts: c,
        }
    } else {
        send(START, Phase::Bits(Slot::Select, 0), c)
    }
}

#[tactic(auto, unfolding(crate::specs::Step::bits_at))]
fn bits_at(slot: Slot, b: u8, clock: u8, ninth: u8, taken: Counts, sent: Counts) -> Move
    ensures { result ≡ bits_at slot b clock ninth taken sent }
{
    if b < 8 {
        send(clock, Phase::Bits(slot, b + 1), taken)
    } else {
        send(ninth, Phase::Heard(slot), sent)
    }
}

// The byte that comes after a byte, where no Start or Stop comes first.
fn follow(slot: Slot, wide: bool) -> Slot
    ensures { result ≡ follow_of slot wide }
{
    match slot {
        Slot::Select => { if wide { Slot::High } else { Slot::Low } }
        Slot::High => Slot::Low,
        Slot::Low | Slot::Data => Slot::Data,
        Slot::Poll => Slot::Poll,
        Slot::Turn | Slot::Take => Slot::Take,
    }
}

// The first clock of a byte.
fn opened(slot: Slot, clock: u8, c: Counts) -> Move
    ensures { result ≡ Rattle.driver.specs.Step.opens slot clock c }
{
    send(clock, Phase::Bits(slot, 1), with_byte(c, 0))
}

// Stop, and refused; `refusal` has the numbers.
fn refused(why: Failed, c: Counts) -> Move
    ensures { result ≡ Rattle.driver.specs.Step.send_then 3 (Phase.Over why) c }
{
    send(STOP, Phase::Over(why), c)
}

// Stop, and all bytes so far are done.
fn closed(c: Counts) -> Move
    ensures { result ≡ Rattle.driver.specs.Step.send_then 3 Phase.Ready (Rattle.driver.specs.Step.with_seen c) }
{
    let seen = Counts {
        seen: c.at,
        tries: 0,
        ..c
    };
    send(STOP, Phase::Ready, seen)
}

// After a select, or the first of two address bytes.
#[tactic(auto, unfolding(crate::specs::Step::lead_at))]
fn after_head(c: Counts, why: Failed, next: Slot, clock: u8, level: u8) -> Move
    ensures { result ≡ lead_at c why next clock level }
{
    if level == 0 {
        opened(next, clock, c)
    } else {
        refused(why, c)
    }
}

// After the last address byte: a read starts again.
#[tactic(auto, unfolding(crate::specs::Step::low_at))]
fn after_low(c: Counts, reads: bool, clock: u8, level: u8) -> Move
    ensures { result ≡ low_at c reads clock level }
{
    if level != 0 {
        refused(Failed::AtLow, c)
    } else if reads {
        send(START, Phase::Bits(Slot::Turn, 0), c)
    } else {
        opened(Slot::Data, clock, c)
    }
}

// After a data byte; `end` is where the part ends.
#[tactic(auto, unfolding(crate::specs::Step::data_at))]
fn after_data(c: Counts, end: usize, clock: u8, level: u8) -> Move
    ensures { result ≡ data_at c end clock level }
{
    if level != 0 {
        refused(Failed::AtData, c)
    } else if c.at == end {
        send(STOP, Phase::Rest, c)
    } else {
        opened(Slot::Data, clock, c)
    }
}

// A poll starts, and is counted.
#[tactic(auto, unfolding(crate::specs::Step::poll_move_of))]
fn poll(c: Counts) -> Move
    requires { (c.tries ≤ 1000) × (c.polls ≤ 65536000) }
    ensures { result ≡ poll_move_of c }
{
    let counted = Counts {
        tries: c.tries + 1,
        polls: c.polls + 1,
        ..c
    };
    send(START, Phase::Bits(Slot::Poll, 0), counted)
}

// After a poll.
#[tactic(auto, unfolding(crate::specs::Step::answered_of))]
fn after_poll(c: Counts, allowed: usize, level: u8) -> Move
    requires { (c.tries ≤ 1000) × (c.polls ≤ 65536000) }
    ensures { result ≡ answered_of c allowed level }
{
    if level == 0 {
        closed(c)
    } else if c.tries < allowed {
        poll(c)
    } else {
        refused(Failed::AtPolls, c)
    }
}

// After a byte that was read.
#[tactic(auto, unfolding(crate::specs::Step::take_at))]
fn after_take(c: Counts, all: usize, clock: u8) -> Move
    ensures { result ≡ take_at c all clock }
{
    if c.at == all {
        closed(c)
    } else {
        opened(Slot::Take, clock, c)
    }
}

// The index in the request of the data byte sent last; it is counted when its ninth clock is sent.
fn index_at(c: Counts) -> usize
    ensures { result ≡ index_at c }
{
    c.at.saturating_sub(1)
}

// The last address byte is the second of two, and the first where there is one.
fn last_address(wide: bool, page: usize) -> Refusal
    ensures { result ≡ last_address_of wide page }
{
    if wide {
        Refusal::NoSecond(page)
    } else {
        Refusal::NoFirst(page)
    }
}

fn clocks(p: Phase) -> u8
    ensures { result ≡ clocks_of p }
{
    match p {
        Phase::Bits(_, b) => b,
        _ => 0,
    }
}

fn slot_right(slot: Slot, reads: bool) -> bool
    ensures { result ≡ slot_right slot reads }
{
    match slot {
        Slot::Select | Slot::High | Slot::Low => true,
        Slot::Data | Slot::Poll => !reads,
        Slot::Turn | Slot::Take => reads,
    }
}

fn phase_right(p: Phase, reads: bool) -> bool
    ensures { result ≡ phase_right p reads }
{
    match p {
        Phase::Ready | Phase::Over(_) => true,
        Phase::Bits(slot, _) | Phase::Heard(slot) => slot_right(slot, reads),
        Phase::Rest => !reads,
    }
}

// Document 01's list for the driver; `bits` is clocks sent of a byte, `most` the polls allowed in all.
#[tactic(auto, unfolding(crate::specs::Step::counts_right))]
fn counts_right(c: Counts, n: usize, length: usize, bits: u8, allowed: usize, most: usize) -> bool
    ensures { result ≡ counts_right c n length bits allowed most }
{
    n == length && c.at <= n && c.seen <= c.at && bits <= 8 && c.tries <= allowed && c.polls <= most
}

// The pages of a request, times the polls allowed for one.
#[tactic(auto, using(crate::proofs::Facts::reach, crate::proofs::Facts::most_fits), unfolding(crate::specs::Request::k_of))]
fn most(request: Request) -> usize
    requires { GoodRequest request }
    ensures { result ≡ k_of request * allowed_of request }
{
    let f = parts::facts_of(request.part);
    pages(from(request.place), request.length, f.page) * allowed(request)
}

fn is_fine(v: Verdict) -> bool
    ensures { result ≡ is_fine v }
{
    match v {
        Ok(()) => true,
        Err(_) => false,
    }
}

// A driver in range, with a buffer as long as its request asks: only of such a one a step is asked.
#[derive(Clone, Copy)]
struct Running {
    driver: Driver,
    ghost request: { GoodRequest driver.request },
    ghost counts: { GoodCounts driver driver.request.length },
}

impl Running {
    // `None` where the driver is out of range for a buffer of `n` bytes.
    #[tactic(auto, unfolding(crate::specs::Step::range_of))]
    fn of(driver: Driver, n: usize) -> Option<Running>
        ensures { MatchOption result (range_of driver n ≡ false) (λ r. (r.driver ≡ driver) × (range_of driver n ≡ true)) }
    {
        let request = driver.request;
        if is_fine(judge(request))
            && phase_right(driver.phase, request.reads)
            && counts_right(
                driver.counts,
                n,
                request.length,
                clocks(driver.phase),
                allowed(request),
                most(request),
            )
        {
            Some(Running { driver })
        } else {
            None
        }
    }

    // The first address of the part under way, or of the read.
    #[tactic(auto, using(crate::proofs::Facts::reach, crate::proofs::Facts::most_fits))]
    fn here(self) -> usize
        ensures value { result ≡ here_of self.driver }
        ensures range { result ≤ 32768 }
    {
        from(self.driver.request.place) + self.driver.counts.seen
    }

    fn facts(self) -> Facts
        ensures value { result ≡ facts_of self.driver.request.part }
        ensures range { 0 < result.page }
    {
        parts::facts_of(self.driver.request.part)
    }

    #[tactic(auto, using(crate::proofs::Facts::select_most, crate::proofs::Facts::name_most, crate::proofs::Facts::enable_most), unfolding(crate::specs::Step::wire_of))]
    fn bytes_of(self, value: u8) -> Wire
        ensures value { result ≡ wire_of self.driver value }
        ensures small { result.select < 255 }
    {
        let request = self.driver.request;
        let x = self.here();
        Wire {
            select: select(name(request.place), self.facts().wide, request.enable, x),
            high: (x / 256 % 256) as u8,
            low: (x % 256) as u8,
            value,
        }
    }

    // Inside a byte: its next clock, or the ninth.
    #[tactic(auto, using(crate::proofs::Facts::reach), unfolding(crate::specs::Step::bits_move_of))]
    fn bits(self, slot: Slot, b: u8, level: u8, value: u8) -> Move
        ensures { result ≡ bits_move_of self.driver slot b level value }
    {
        let c = self.driver.counts;
        let last = c.at + 1 == self.driver.request.length;
        bits_at(
            slot,
            b,
            bit(byte(self.bytes_of(value), slot), b),
            ninth(slot, last),
            taken(slot, c, level),
            sent(slot, c),
        )
    }

    // Where the part under way ends.
    #[tactic(auto, using(crate::proofs::Facts::reach, crate::proofs::Facts::first_most))]
    fn part_end(self) -> usize
        ensures { result ≡ end_of self.driver }
    {
        let seen = self.driver.counts.seen;
        seen + first(
            self.here(),
            self.driver.request.length - seen,
            self.facts().page,
        )
    }

    // The level of a byte's ninth clock is told; `clock` is the first clock of the byte that follows.
    #[tactic(auto, using(crate::proofs::Facts::reach, crate::proofs::Facts::most_fits))]
    fn heard_at(self, slot: Slot, level: u8, clock: u8) -> Move
        ensures { result ≡ heard_at self.driver slot level clock }
    {
        let request = self.driver.request;
        let c = self.driver.counts;
        match slot {
            Slot::Select => after_head(
                c,
                Failed::AtSelect,
                follow(slot, self.facts().wide),
                clock,
                level,
            ),
            Slot::High => after_head(c, Failed::AtHigh, Slot::Low, clock, level),
            Slot::Low => after_low(c, request.reads, clock, level),
            Slot::Data => after_data(c, self.part_end(), clock, level),
            Slot::Poll => after_poll(c, allowed(request), level),
            Slot::Turn => after_head(c, Failed::AtSelect, Slot::Take, clock, level),
            Slot::Take => after_take(c, request.length, clock),
        }
    }

    #[tactic(auto, unfolding(crate::specs::Step::heard_move_of))]
    fn heard(self, slot: Slot, level: u8, value: u8) -> Move
        ensures { result ≡ heard_move_of self.driver slot level value }
    {
        let next = follow(slot, self.facts().wide);
        self.heard_at(slot, level, bit(byte(self.bytes_of(value), next), 0))
    }

    // The page of the part under way, or of the read: its first address div P.
    fn page_at(self) -> usize
        ensures { result ≡ page_at self.driver.request self.driver.counts.seen }
    {
        self.here() / self.facts().page
    }

    // The refusal that a byte without its acknowledge ends in.
    fn refusal(self, why: Failed) -> Refusal
        ensures { result ≡ refusal_of self.driver.request self.driver.counts why }
    {
        match why {
            Failed::AtSelect => Refusal::NoSelect(self.page_at()),
            Failed::AtHigh => Refusal::NoFirst(self.page_at()),
            Failed::AtLow => last_address(self.facts().wide, self.page_at()),
            Failed::AtData => Refusal::NoData(index_at(self.driver.counts)),
            Failed::AtPolls => Refusal::PollsUsed,
        }
    }

    fn over(self, why: Failed) -> Move
        ensures { result ≡ Rattle.driver.specs.Step.over_of self.driver.request self.driver.counts why }
    {
        let c = self.driver.counts;
        Move {
            answer: Answer::Refused(self.refusal(why), c.polls, c.seen),
            phase: Phase::Over(why),
            counts: c,
        }
    }

    #[tactic(auto, using(crate::proofs::Facts::reach, crate::proofs::Facts::most_fits))]
    fn moved(self, level: u8, value: u8) -> Move
        ensures { result ≡ move_at self.driver.phase self.driver level value }
    {
        let c = self.driver.counts;
        match self.driver.phase {
            Phase::Ready => ready(c, self.driver.request.length),
            Phase::Bits(slot, b) => self.bits(slot, b, level, value),
            Phase::Heard(slot) => self.heard(slot, level, value),
            Phase::Rest => poll(c),
            Phase::Over(why) => self.over(why),
        }
    }

    #[tactic(auto, unfolding(crate::specs::Step::driver_step_of))]
    fn step(self, level: u8, value: u8) -> Asked
        ensures { result ≡ driver_step_of self.driver level value }
    {
        let m = self.moved(level, value);
        Asked {
            answer: m.answer,
            driver: Driver {
                phase: m.phase,
                counts: m.counts,
                ..self.driver
            },
        }
    }
}

// Whether the eighth bit of a byte that is read was told.
fn whole(p: Phase) -> bool
    ensures { result ≡ whole_of p }
{
    matches!(p, Phase::Bits(Slot::Take, 8..))
}

// The one store: a byte that was read. Nothing can refuse the read any more.
#[tactic(auto, unfolding(crate::specs::Step::byte_kept_of))]
fn keep(d: Driver, level: u8, buffer: &mut [u8])
    ensures { buffer.new ≡ byte_kept_of d level buffer.old }
{
    let at = d.counts.at;
    if whole(d.phase) && at < buffer.len() {
        buffer[at] = shift(d.counts.byte, level);
    }
}

// A driver out of range: refusal 4, and nothing changes.
fn unfit(driver: Driver) -> Asked
    ensures { result ≡ bad_state_of driver }
{
    Asked {
        answer: Answer::Refused(Refusal::BadState, 0, 0),
        driver,
    }
}

// The next event, or finished. The buffer holds the bytes to write, or takes the bytes read.
#[tactic(auto, unfolding(crate::specs::Step::driver_next_of, crate::specs::Step::buffer_of))]
pub fn next(driver: Driver, level: u8, buffer: &mut [u8]) -> Asked
    ensures value { result ≡ driver_next_of driver level buffer.old }
    ensures buffer_after { buffer.new ≡ buffer_of driver level buffer.old }
{
    let Some(running) = Running::of(driver, buffer.len()) else {
        return unfit(driver);
    };
    let asked = running.step(level, parts::byte_at(buffer, driver.counts.at));
    keep(driver, level, buffer);
    asked
}
