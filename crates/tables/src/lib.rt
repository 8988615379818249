// What could not be tried on boards, run on the model and printed: a Stop at each clock of a page write, Write Control rising at
// each place of it, the lock command, a chip that stays busy, a line that loses an acknowledge, power lost in a cycle, the most worn group
// behind some writes, for any part of the table.
#![tactic(auto)]

ghost use Rattle.std.specs.Prelude.{◌<◌};

use bench::Report;
use chip::Stepped;
use driver::{Answer, Driver, Place, Request};
use host::Host;
use parts::{ArrayAddress, Facts, Loss, Refusal, Verdict};
use state::Chip;
use wear::Most;
use words::{answer, report};

// A part at an enable, and what the part table says of it.
#[derive(Clone, Copy)]
struct Device {
    part: u8,
    enable: u8,
    facts: Facts,
}

// A device with its memory, which is lent.
#[derive(Drop)]
struct Board<'a> {
    device: Device,
    array: &'a mut [u8],
    id: &'a mut [u8],
}

// A transfer: Start, some clocks of these bytes, Stop, and the cycle's end. Past the bytes the line is released.
#[derive(Clone, Copy)]
struct Script {
    bytes: [u8; 8],
    clocks: usize,
    // The place in the list where Write Control rises, if it does.
    high: Option<usize>,
}

// What events did to a part as delivered.
#[derive(Clone, Copy)]
struct Played {
    cycles: usize,
    locked: bool,
}

// A write, and which of its two data bytes were acknowledged.
#[derive(Clone, Copy)]
struct Written {
    begun: bool,
    first: bool,
    second: bool,
}

// Driver and chip between two askings, on a line that loses an acknowledge: what the driver is told next, and the clocks sent.
#[derive(Clone, Copy)]
struct Lossy {
    driver: Driver,
    chip: Chip,
    level: u8,
    clocks: usize,
}

// A chip behind some writes, and the worst of its counts.
#[derive(Clone, Copy)]
struct Worn {
    chip: Chip,
    worst: Most,
}

// What a row of the table of lost power sends: the array's, then the identification page's; a lock command with the flag that says whether the
// lock is left.
#[derive(Clone, Copy)]
enum Sent {
    One,
    PageEnd,
    Rolled,
    Ident,
    Lock(bool),
}

// Codes of document 01, of which the lists are made that `chip::run` takes.
const START: u8 = 2;

const STOP: u8 = 3;

const ENDS: u8 = 4;

const HIGH: u8 = 6;

const RESET: u8 = 8;

// Room for the events of two transfers.
const EVENTS: usize = 128;

// The polls that the driver is allowed for a page.
const BUDGET: usize = 4;

// The two bytes that are written over a page's end.
const FIRST: u8 = 0x11;

const SECOND: u8 = 0x22;

// What the identification page is given after a lock command.
const LATER: u8 = 0x55;

// The kinds of lock byte: bit 1 clear and set, other bits clear and set.
const LOCK_BYTES: [u8; 5] = [0, 1, 2, 3, 0xFF];

// The two groups that are written to, and how often.
const LOW: usize = 1;

const TALL: usize = 3;

const WRITES: usize = 6;

// ---- a part, and its memory

impl Device {
    fn new(part: u8, enable: u8) -> Device {
        Device {
            part,
            enable,
            facts: parts::facts_of(part),
        }
    }

    fn addresses(self) -> usize {
        parts::address_bytes(self.facts)
    }

    // The last place of a page.
    fn last(self) -> usize {
        self.facts.page.saturating_sub(1)
    }

    // The clocks of a transfer with so many data bytes.
    fn clocks(self, data: u8) -> usize {
        let bytes = self.addresses().saturating_add(usize::from(data));
        bytes.saturating_add(1).saturating_mul(9)
    }

    fn write_at(self, at: usize, length: usize) -> Request {
        Request {
            part: self.part,
            enable: self.enable,
            place: Place::Array(ArrayAddress(at)),
            reads: false,
            length,
            budget: BUDGET,
        }
    }

    // The write meets two pages.
    fn over_pages(self) -> Request {
        self.write_at(self.last(), 2)
    }

    // The first address of the group that write number i goes to.
    fn place_of(self, i: usize) -> usize {
        report::first_of(written_to(i), self.facts.group)
    }
}

impl Board<'_> {
    fn deliver(&mut self) -> Chip {
        chip::deliver(self.device.part, self.array, self.id).chip
    }

    fn step(&mut self, chip: Chip, code: u8) -> Stepped {
        let d = self.device;
        chip::step(
            d.part,
            d.enable,
            Loss::Old,
            b"",
            chip,
            self.array,
            self.id,
            code,
        )
    }

    // Events on the part as delivered; the page is lent for a loss of power.
    fn play(&mut self, loss: Loss, page: &[u8], events: &[u8], levels: &mut [u8]) -> Played {
        let chip = self.deliver();
        let d = self.device;
        let r = chip::run(
            d.part, d.enable, loss, page, chip, self.array, self.id, events, levels,
        );
        Played {
            cycles: r.cycles,
            locked: r.chip.line.core.locked,
        }
    }

    // A write of two bytes.
    fn written(&mut self, s: Script) -> Written {
        let mut levels = [2u8; EVENTS];
        let p = self.play(Loss::Old, b"", s.listed(&s.events()), &mut levels);
        let data = self.device.addresses().saturating_add(1);
        Written {
            begun: 0 < p.cycles,
            first: s.acknowledged(&levels, data),
            second: s.acknowledged(&levels, data.saturating_add(1)),
        }
    }

    // The driver's write on a part as delivered; each cycle ends just before poll `d` of its page.
    fn play_busy(&mut self, d: usize) -> Report {
        let chip = self.deliver();
        let mut data = [FIRST, SECOND];
        let device = self.device;
        bench::run(
            device.over_pages(),
            device.enable,
            d,
            chip,
            self.array,
            self.id,
            &mut data,
        )
    }

    // A cycle that runs ends before the next Start.
    fn rested(&mut self, chip: Chip, code: u8) -> Chip {
        if code == START {
            return self.step(chip, ENDS).chip;
        }
        chip
    }

    // What the driver answers once it has finished; a cycle that still runs then ends. The write ends well before so many askings.
    fn play_lost(&mut self, lost: usize) -> Answer {
        let mut data = [FIRST, SECOND];
        let mut l = Lossy {
            driver: driver::begin(self.device.over_pages()).driver,
            chip: self.deliver(),
            level: 1,
            clocks: 0,
        };
        for _ in 0..1000 {
            let Some(next) = l.turn(self, lost, &mut data) else {
                break;
            };
            l = next;
        }
        let answer = driver::next(l.driver, l.level, &mut data).answer;
        self.rested(l.chip, START);
        answer
    }

    // Write number i.
    fn wear_on(&mut self, i: usize, w: Worn, counts: &mut [u32]) -> Worn {
        let mut data = [FIRST];
        let d = self.device;
        let kept = bench::run_worn(
            d.write_at(d.place_of(i), 1),
            d.enable,
            1,
            w.chip,
            self.array,
            self.id,
            &mut data,
            counts,
            w.worst,
        );
        Worn {
            chip: kept.report.chip,
            worst: kept.worst,
        }
    }

    // The first n writes on a part as delivered: the worst of the counts.
    fn wear_all(&mut self, n: usize, counts: &mut [u32]) -> Most {
        let mut w = Worn {
            chip: self.deliver(),
            worst: Most { group: 0, count: 0 },
        };
        for i in 0..n {
            w = self.wear_on(i, w, counts);
        }
        w.worst
    }

    fn byte(&self, at: usize) -> u8 {
        parts::byte_at(self.array, at)
    }
}

// ---- the events of a transfer

// "eight bits, highest first, then the acknowledge", for which the master releases.
fn clock(bytes: [u8; 8], t: usize) -> u8 {
    let place = t % 9;
    match bytes.get(t / 9) {
        Some(b) if place < 8 => (*b >> (7 - place)) % 2,
        _ => 1,
    }
}

impl Script {
    // The event at a place of the transfer, without the pin.
    fn plain(self, i: usize) -> u8 {
        if i == 0 {
            return START;
        }
        if i <= self.clocks {
            return clock(self.bytes, i - 1);
        }
        if i - 1 == self.clocks { STOP } else { ENDS }
    }

    fn event(self, i: usize) -> u8 {
        match self.high {
            Some(high) if high == i => HIGH,
            Some(high) if high < i => self.plain(i - 1),
            _ => self.plain(i),
        }
    }

    fn fill(self, events: &mut [u8]) {
        for (i, e) in events.iter_mut().enumerate() {
            *e = self.event(i);
        }
    }

    // Start, clocks, Stop and end, and the rise of the pin.
    fn count(self) -> usize {
        let rises = usize::from(self.high.is_some());
        self.clocks.saturating_add(3).saturating_add(rises)
    }

    fn events(self) -> [u8; EVENTS] {
        let mut events = [0u8; EVENTS];
        self.fill(&mut events);
        events
    }

    // The events of the transfer alone.
    fn listed(self, events: &[u8]) -> &[u8] {
        first_of(events, self.count())
    }

    // Whether byte j was acknowledged, counted from 0, the select.
    fn acknowledged(self, levels: &[u8], j: usize) -> bool {
        let place = j.saturating_add(1).saturating_mul(9);
        let risen = self.high.is_some_and(|high| high <= place);
        parts::byte_at(levels, place.saturating_add(usize::from(risen))) == 0
    }
}

// The first n bytes; all where there are fewer.
fn first_of(s: &[u8], n: usize) -> &[u8] {
    &s[..n.min(s.len())]
}

// What stands behind the first n bytes.
fn behind(s: &[u8], n: usize) -> &[u8] {
    &s[n.min(s.len())..]
}

// ---- a line that loses an acknowledge

// What the driver is told: the acknowledge of byte `lost` on the bus does not reach it.
fn heard(level: u8, code: u8, clocks: usize, lost: usize) -> u8 {
    if code < START && clocks % 9 == 8 && clocks / 9 == lost {
        return 1;
    }
    level
}

impl Lossy {
    fn sent(self, board: &mut Board, code: u8, lost: usize) -> Lossy {
        let rested = board.rested(self.chip, code);
        let s = board.step(rested, code);
        Lossy {
            driver: self.driver,
            chip: s.chip,
            level: heard(s.level, code, self.clocks, lost),
            clocks: self.clocks.saturating_add(usize::from(code < START)),
        }
    }

    // Nothing where the driver has finished.
    fn turn(self, board: &mut Board, lost: usize, data: &mut [u8]) -> Option<Lossy> {
        let asked = driver::next(self.driver, self.level, data);
        match asked.answer {
            Answer::Send(code) => {
                let driver = asked.driver;
                Some(Lossy { driver, ..self }.sent(board, code, lost))
            }
            Answer::Done(_, _) => None,
            Answer::Refused(_, _, _) => None,
        }
    }
}

// ---- the transfers

impl Device {
    // Select for a write, so many address bytes, and two data bytes.
    fn bytes(self, ident: bool, at: usize, first: u8, second: u8) -> [u8; 8] {
        let kind = if ident { 0xB0u8 } else { 0xA0u8 };
        let high = (at / 256 % 256) as u8;
        let low = (at % 256) as u8;
        if self.facts.wide {
            let select = kind | self.enable % 8 * 2;
            return [select, high, low, first, second, 255, 255, 255];
        }
        [kind, low, first, second, 255, 255, 255, 255]
    }

    // Two bytes, or the first of them, at an address; so many clocks.
    fn array_write(self, at: usize, clocks: usize) -> Script {
        Script {
            bytes: self.bytes(false, at, FIRST, SECOND),
            clocks,
            high: None,
        }
    }

    // At a page's last place: the second byte rolls over to the page's first.
    fn page_write(self, clocks: usize) -> Script {
        self.array_write(self.last(), clocks)
    }

    // The address bit that chooses the lock, at location 0. Where it is asked for, a second byte follows.
    fn lock_command(self, byte: u8, second: bool) -> Script {
        Script {
            bytes: self.bytes(true, self.facts.lock, byte, 0),
            clocks: self.clocks(if second { 2 } else { 1 }),
            high: None,
        }
    }

    // One byte, at a location.
    fn id_write(self, at: usize, byte: u8) -> Script {
        Script {
            bytes: self.bytes(true, at, byte, 255),
            clocks: self.clocks(1),
            high: None,
        }
    }
}

// ---- what is printed of a transfer

fn tell_yes(host: &Host, yes: bool) {
    host.say(if yes { b"yes" } else { b"no " });
}

// The name of an address byte: it has a number where there are two.
fn tell_address_name(host: &Host, d: Device, j: usize) {
    host.say(b"address ");
    if d.facts.wide {
        host.say_number(j);
    } else {
        host.say(b" ");
    }
}

// The name of byte j of a transfer.
fn tell_byte_name(host: &Host, d: Device, j: usize) {
    if j == 0 {
        host.say(b"select   ");
        return;
    }
    let a = d.addresses();
    if j <= a {
        return tell_address_name(host, d, j);
    }
    host.say(b"data ");
    host.say_number(j - a);
    host.say(b"   ");
}

fn tell_bit(host: &Host, t: usize) {
    if t == 8 {
        host.say(b" acknowledge");
    } else {
        host.say(b" bit ");
        host.say_number(t.saturating_add(1));
        host.say(b"      ");
    }
}

// How many clocks, and what the last of them was.
fn tell_place(host: &Host, d: Device, k: usize) {
    host.say_right(k, 2);
    if k == 0 {
        host.say(b"  Start                ");
        return;
    }
    host.say(b"  ");
    let t = k - 1;
    tell_byte_name(host, d, t / 9);
    tell_bit(host, t % 9);
}

fn tell_cycle(host: &Host, begun: bool) {
    host.say(if begun { b"   begins" } else { b"   -     " });
}

fn tell_stored(host: &Host, a: u8, b: u8) -> bool {
    host.say(b"   ");
    host.say_byte(a);
    host.say(b"    ");
    host.say_byte(b);
    host.say(b"\n")
}

// ---- 1: a Stop after each clock

// A write in a page: whether it began a cycle, and what is then stored in the page's last place and its first.
fn tell_written(host: &Host, board: &Board, w: Written) -> bool {
    tell_cycle(host, w.begun);
    tell_stored(host, board.byte(board.device.last()), board.byte(0))
}

// So many clocks before the Stop.
fn stop_row(host: &Host, board: &mut Board, k: usize) -> bool {
    let d = board.device;
    let w = board.written(d.page_write(k));
    tell_place(host, d, k);
    tell_written(host, board, w)
}

// ---- 2: Write Control rises

// Place 0 is before the Start, place k + 1 after clock k, the last one after the Stop.
fn tell_rise(host: &Host, d: Device, place: usize) {
    if place == 0 {
        host.say(b"    before the Start     ");
        return;
    }
    let k = place - 1;
    if d.clocks(2) < k {
        host.say(b"    after the Stop       ");
        return;
    }
    tell_place(host, d, k);
}

// Where the pin rises, and which data bytes were acknowledged.
fn rise_row(host: &Host, board: &mut Board, place: usize) -> bool {
    let d = board.device;
    let high = Some(place);
    let whole = d.page_write(d.clocks(2));
    let w = board.written(Script { high, ..whole });
    tell_rise(host, d, place);
    host.say(b"   ");
    tell_yes(host, w.first);
    host.say(b"     ");
    tell_yes(host, w.second);
    host.say(b"  ");
    tell_written(host, board, w)
}

// ---- 3: the lock command

// Whether the lock command's two bytes are acknowledged, the second where there is one.
fn tell_lock(host: &Host, byte: u8, first: bool, second: Option<bool>) {
    host.say_byte(byte);
    host.say(b" ");
    tell_yes(host, first);
    host.say(b"  ");
    match second {
        None => {
            host.say(b" -       ");
        }
        Some(yes) => {
            host.say(b" 00h ");
            tell_yes(host, yes);
            host.say(b" ");
        }
    }
}

// An identification write after the lock command: whether its byte is acknowledged, and what is then stored.
fn later_line(host: &Host, first: bool, begun: bool, ident: u8) -> bool {
    host.say(b"      ");
    tell_yes(host, first);
    tell_cycle(host, begun);
    host.say(b"   ");
    host.say_byte(ident);
    host.say(b"\n")
}

// The lock command alone, and again with a write behind it: whether each began a cycle, and whether the page is locked.
fn lock_row(host: &Host, board: &mut Board, byte: u8, is_second: bool) -> bool {
    let d = board.device;
    let s = d.lock_command(byte, is_second);
    let later = d.id_write(0, LATER);
    let n = s.count().min(EVENTS);
    let mut events = s.events();
    later.fill(&mut events[n..]);
    let all = first_of(&events, n.saturating_add(later.count()));
    let mut levels = [2u8; EVENTS];
    let alone = board.play(Loss::Old, b"", first_of(&events, n), &mut levels);
    let both = board.play(Loss::Old, b"", all, &mut levels);
    let data = d.addresses().saturating_add(1);
    let second = is_second.then_some(s.acknowledged(&levels, data.saturating_add(1)));
    tell_lock(host, byte, s.acknowledged(&levels, data), second);
    tell_cycle(host, 0 < alone.cycles);
    host.say(b"   ");
    tell_yes(host, alone.locked);
    let written = later.acknowledged(behind(&levels, n), data);
    let stored = parts::byte_at(board.id, 0);
    later_line(host, written, alone.cycles < both.cycles, stored)
}

// ---- 4: a chip that stays busy

fn tell_number(host: &Host, r: Refusal) {
    host.say(b"refused ");
    host.say_right(usize::from(parts::number(r)), 2);
}

fn tell_verdict(host: &Host, verdict: Verdict) {
    match verdict {
        Ok(()) => {
            host.say(b"done      ");
        }
        Err(r) => tell_number(host, r),
    }
}

// What is stored at the end of one page and the start of the next.
fn tell_over(host: &Host, board: &Board) -> bool {
    let d = board.device;
    tell_stored(host, board.byte(d.last()), board.byte(d.facts.page))
}

fn busy_row(host: &Host, board: &mut Board, d: usize) -> bool {
    let told = board.play_busy(d);
    host.say_right(d, 2);
    host.say(b"     ");
    tell_verdict(host, told.verdict);
    host.say_right(told.polls, 7);
    host.say_right(told.bytes, 7);
    host.say_right(told.cycles, 7);
    tell_over(host, board)
}

// ---- 5: a line that loses one acknowledge

// Of each page the write meets: select, address, a byte, and the select of a poll.
fn page_bytes(d: Device) -> usize
    ensures { 0 < result }
{
    d.addresses().saturating_add(3)
}

fn tell_lost_name(host: &Host, d: Device, j: usize) {
    let a = d.addresses();
    if j == 0 {
        host.say(b"select       ");
    } else if j <= a {
        tell_address_name(host, d, j);
        host.say(b"    ");
    } else if j - a == 1 {
        host.say(b"data         ");
    } else {
        host.say(b"poll's select");
    }
}

fn tell_lost(host: &Host, d: Device, j: usize) {
    let n = page_bytes(d);
    host.say(b"page ");
    host.say_number(j / n);
    host.say(b"  ");
    tell_lost_name(host, d, j % n);
}

// Of 10 the data byte's index, of the others the page.
fn tell_spot(host: &Host, r: Refusal) {
    match parts::spot_of(r) {
        None => {
            host.say(b"   -     ");
        }
        Some(n) => {
            host.say(if matches!(r, Refusal::NoData(_)) {
                b"   byte "
            } else {
                b"   page "
            });
            host.say_number(n);
        }
    }
}

fn tell_counts(host: &Host, polls: usize, bytes: usize) {
    host.say_right(polls, 7);
    host.say_right(bytes, 7);
}

fn tell_answer(host: &Host, answer: Answer) {
    match answer {
        Answer::Send(_) => {
            host.say(b"   no end                            ");
        }
        Answer::Done(polls, bytes) => {
            host.say(b"   done         -     ");
            tell_counts(host, polls, bytes);
        }
        Answer::Refused(r, polls, bytes) => {
            host.say(b"   ");
            tell_number(host, r);
            tell_spot(host, r);
            tell_counts(host, polls, bytes);
        }
    }
}

fn lost_row(host: &Host, board: &mut Board, j: usize) -> bool {
    let answer = board.play_lost(j);
    tell_lost(host, board.device, j);
    tell_answer(host, answer);
    tell_over(host, board)
}

// ---- 6: power lost in the cycle

impl Sent {
    fn script(self, d: Device) -> Script {
        match self {
            Sent::One => d.array_write(5, d.clocks(1)),
            Sent::PageEnd => d.array_write(d.last().saturating_sub(1), d.clocks(2)),
            Sent::Rolled => d.page_write(d.clocks(2)),
            Sent::Ident => d.id_write(5, FIRST),
            Sent::Lock(_) => d.lock_command(2, false),
        }
    }

    fn in_array(self) -> bool {
        matches!(self, Sent::One | Sent::PageEnd | Sent::Rolled)
    }

    fn leaves_lock(self) -> bool {
        matches!(self, Sent::Lock(true))
    }
}

// Two bytes at a page's end.
fn tell_two(host: &Host, at: usize, how: &[u8]) {
    host.say(b"11h and 22h at ");
    host.say_address(at);
    host.say(how);
}

fn tell_sent(host: &Host, d: Device, sent: Sent) {
    match sent {
        Sent::One => {
            host.say(b"11h at 0005h                     ");
        }
        Sent::PageEnd => tell_two(host, d.last().saturating_sub(1), b", page end   "),
        Sent::Rolled => tell_two(host, d.last(), b", roll-over  "),
        Sent::Ident => {
            host.say(b"11h at location 05h              ");
        }
        Sent::Lock(false) => {
            host.say(b"lock command, flag 0             ");
        }
        Sent::Lock(true) => {
            host.say(b"lock command, flag 1             ");
        }
    }
}

// Start, clocks, Stop, and a reset in the place of the cycle's end.
fn cut_of(s: Script) -> [u8; EVENTS] {
    let mut events = s.events();
    if let Some(end) = events.get_mut(s.clocks.saturating_add(2)) {
        *end = RESET;
    }
    events
}

// Which bytes are not as delivered: those of one memory, whichever the row is of.
fn tell_risen(host: &Host, board: &Board, in_array: bool) -> bool {
    let part = board.device.part;
    let mut new = [0u8; 32768];
    let mut new_id = [0u8; 64];
    chip::deliver(
        part,
        fitted::array(part, &mut new),
        fitted::id(part, &mut new_id),
    );
    if in_array {
        answer::spans(host, true, &new, board.array);
    } else {
        answer::spans(host, true, &new_id, board.id);
    }
    host.say(b"\n")
}

fn power_row(host: &Host, board: &mut Board, sent: Sent) -> bool {
    let d = board.device;
    let s = sent.script(d);
    let events = cut_of(s);
    let zeros = [0u8; 64];
    let page = first_of(&zeros, d.facts.page);
    let mut levels = [2u8; EVENTS];
    let p = board.play(
        Loss::Lent(sent.leaves_lock()),
        page,
        s.listed(&events),
        &mut levels,
    );
    tell_sent(host, d, sent);
    tell_cycle(host, 0 < p.cycles);
    host.say(b"   ");
    tell_yes(host, p.locked);
    host.say(b"      ");
    tell_risen(host, board, sent.in_array())
}

// ---- 7: the most worn group

// Write by write: one group, the other up to a tie and past it, and the first up to a tie again.
fn written_to(i: usize) -> usize {
    match i {
        2..=4 => LOW,
        _ => TALL,
    }
}

fn count_at(counts: &[u32], group: usize) -> usize {
    counts.get(group).map_or(0, |n| *n as usize)
}

fn worst_row(host: &Host, board: &mut Board, k: usize) -> bool {
    let mut room = [0u32; 8192];
    let counts = fitted::counts(board.device.part, &mut room);
    let worst = board.wear_all(k.saturating_add(1), counts);
    host.say_address(board.device.place_of(k));
    host.say_right(count_at(counts, LOW), 15);
    host.say_right(count_at(counts, TALL), 9);
    host.say(b"  most group ");
    host.say_number(worst.group);
    host.say(b": ");
    host.say_number(worst.count as usize);
    host.say(b"\n")
}

// ---- tables

// A row starts from delivery. The buffers hold the largest part.
fn row<F: FnOnce(&mut Board) -> bool>(d: Device, told: F) -> bool
    requires { F.IsAlwaysCallable told }
{
    let mut array = [0u8; 32768];
    let mut id = [0u8; 64];
    told(&mut Board {
        device: d,
        array: fitted::array(d.part, &mut array),
        id: fitted::id(d.part, &mut id),
    })
}

fn tell_places(host: &Host, a: usize, b: usize) {
    host.say(b"  ");
    host.say_address(a);
    host.say(b"  ");
    host.say_address(b);
    host.say(b"\n");
}

// The last row's Stop comes one clock after the last acknowledge.
fn stops(host: &Host, d: Device) -> bool {
    host.say(b"\nA Stop after each clock of a page write, 11h and 22h at ");
    host.say_address(d.last());
    host.say(b"; stored is what E leaves\nclocks, the last            cycle  ");
    tell_places(host, d.last(), 0);
    let n = d.clocks(2).saturating_add(2);
    (0..n).all(|k| row(d, |board| stop_row(host, board, k)))
}

fn rises(host: &Host, d: Device) -> bool {
    host.say(b"\nWrite Control rises in that write\n");
    if d.facts.pin {
        host.say(b"rises after                 data 1  data 2  cycle  ");
        tell_places(host, d.last(), 0);
        let n = d.clocks(2).saturating_add(3);
        return (0..n).all(|place| row(d, |board| rise_row(host, board, place)));
    }
    host.say(b"This part has no Write Control pin.\n")
}

fn lock_rows(host: &Host, d: Device, is_second: bool) -> bool {
    LOCK_BYTES.iter().all(|&byte| row(d, |board| lock_row(host, board, byte, is_second)))
}

fn locks(host: &Host, d: Device) -> bool {
    host.say(b"\nThe lock command, and an identification write of 55h at 00h after it\n");
    if d.facts.ident {
        host.say(b"byte ack  2nd ack    cycle    locked   ack   cycle    at 00h\n");
        return lock_rows(host, d, false) && lock_rows(host, d, true);
    }
    host.say(b"This part has no identification page to lock.\n")
}

fn busy(host: &Host, d: Device) -> bool {
    host.say(
        b"\nA cycle that ends just before poll number d, budget 4: the driver writes 11h and 22h at ",
    );
    host.say_address(d.last());
    host.say(b"\n d     answer      polls  bytes cycles ");
    tell_places(host, d.last(), d.facts.page);
    (1..=BUDGET + 1).all(|poll| row(d, |board| busy_row(host, board, poll)))
}

fn advice(host: &Host, r: Refusal) {
    tell_number(host, r);
    host.say(b": ");
    words::say_advice(host, r);
    host.say(b"\n");
}

// What each number says at a bench.
fn advices(host: &Host, d: Device) {
    advice(host, Refusal::NoSelect(0));
    advice(host, Refusal::NoFirst(0));
    if d.facts.wide {
        advice(host, Refusal::NoSecond(0));
    }
    advice(host, Refusal::NoData(0));
}

fn losses(host: &Host, d: Device) -> bool {
    host.say(b"\nA line that loses one acknowledge, budget 4: the driver writes 11h and 22h at ");
    host.say_address(d.last());
    host.say(b"\nlost of                 answer       place   polls  bytes ");
    tell_places(host, d.last(), d.facts.page);
    let n = page_bytes(d).saturating_mul(2);
    if !(0..n).all(|lost| row(d, |board| lost_row(host, board, lost))) {
        return false;
    }
    advices(host, d);
    host.say(b"A data byte whose acknowledge is lost is stored all the same, and not reported.\n")
}

fn power_rows(host: &Host, d: Device, all: &[Sent]) -> bool {
    all.iter()
        .all(|&sent| row(d, |board| power_row(host, board, sent)))
}

// Delivered bytes are never 00h, so each byte that comes up as lent shows.
fn powers(host: &Host, d: Device) -> bool {
    host.say(b"\nPower lost in the cycle, a page of 00h lent for it: which bytes then hold 00h\n");
    host.say(b"sent                                cycle    locked   spoiled\n");
    let array = [Sent::One, Sent::PageEnd, Sent::Rolled];
    let ident = [Sent::Ident, Sent::Lock(false), Sent::Lock(true)];
    power_rows(host, d, &array) && (!d.facts.ident || power_rows(host, d, &ident))
}

fn worsts(host: &Host, d: Device) -> bool {
    host.say(
        b"\nThe most worn group, kept beside the counts while the driver writes 11h: the lowest on a tie\n",
    );
    host.say(b"written at   group 1  group 3  worst\n");
    (0..WRITES).all(|k| row(d, |board| worst_row(host, board, k)))
}

fn heading(host: &Host, d: Device) {
    host.say(b"Part ");
    host.say_number(usize::from(d.part));
    host.say(b", ");
    words::say_name(host, d.part);
    host.say(b", enable ");
    host.say_number(usize::from(d.enable));
    host.say(b"\n");
}

fn known_part(host: &Host, d: Device) -> bool {
    heading(host, d);
    stops(host, d)
        && rises(host, d)
        && locks(host, d)
        && busy(host, d)
        && losses(host, d)
        && powers(host, d)
        && worsts(host, d)
}

// The trials on one part, or refusals 1 and 2 of document 01. False where it could not be written.
fn one_part(host: &Host, d: Device) -> bool {
    if !d.facts.known {
        return answer::no_part(host, answer::refused(host, Refusal::NoPart));
    }
    if !parts::enable_right(d.facts, d.enable) {
        return answer::wrong_enable(host, answer::refused(host, Refusal::WrongEnable));
    }
    answer::written(host, known_part(host, d))
}

// A blank line stands between two parts.
fn next_part(host: &Host, d: Device) -> bool {
    if 0 < d.part {
        host.say(b"\n");
    }
    known_part(host, d)
}

// The trials on every part of the part table, at enable 0.
fn every_part(host: &Host) -> bool {
    (0..255)
        .map(|part| Device::new(part, 0))
        .take_while(|d| d.facts.known)
        .all(|d| next_part(host, d))
}

// The command `bench PART [--enable N]`, or `bench` for every part: `next` is the first word behind the command's, and the words end
// before `end`. False where not all could be answered: standard error has the reason.
pub fn bench_command(host: &Host, next: usize, end: usize) -> bool {
    if end <= next {
        return answer::written(host, every_part(host));
    }
    match words::bench_asked(host, next, end) {
        Some(job) => one_part(host, Device::new(job.part, job.enable)),
        None => false,
    }
}
