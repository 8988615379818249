// The six parts, the two numberings, the bus events and the refusals of document 01.
#![tactic(auto)]

ghost use Rattle.std.specs.Prelude.{◌≡◌, ◌≤◌, ◌<◌, length, get_or, true, cond, ltb};
ghost use Rattle.parts.specs.Table.{row_of, no_part, table_of, facts_of, name_of, id_size_of, buffers_right_of, address_bytes_of, enable_right_of};
ghost use Rattle.parts.specs.Sound.{Sound};
ghost use Rattle.parts.specs.Events.{event_with, event_right_of, loss_size_of};
ghost use Rattle.parts.specs.Refusals.{entry_of, number_of, rank_of, spot_of, place_told, verdict_number_of, verdict_place_of, claim_of, sooner_of, lent_verdict_of, loss_verdict_of};
ghost use Rattle.parts.specs.Bytes.{flag_of, all_below_of, up_of, copied_of, word_end, word_of, word_joined_of};

// The address of a byte of the array.
#[derive(Clone, Copy)]
pub struct ArrayAddress(pub usize);
// The place of a byte in the identification page.
#[derive(Clone, Copy)]
pub struct IdLocation(pub usize);

// A part's name: its letters, and zeros behind them. The array stands beside its length since `name_of` hands back both (its clause `range`), and a
// library without a heap owns no text of another length.
#[derive(Clone, Copy)]
pub struct Name {
    pub bytes: [u8; 11],
    pub length: usize,
}

// What the part table says of a part, beside its name.
#[derive(Clone, Copy)]
pub struct Facts {
    // Whether there is such a part. A flag and no Option, since `facts_of` answers for every number and refusal 1 is claimed from it: `lent_verdict_of`.
    pub known: bool,
    // Bytes of the array.
    pub size: usize,
    // Bytes of a page, and of the identification page.
    pub page: usize,
    // Two address bytes, and the enable in the select code; else one, and A10..A8 in the select code.
    pub wide: bool,
    pub ident: bool,
    pub pin: bool,
    // How many enables the part allows, from 0.
    pub enables: u8,
    // The weight of the address bit that chooses: 0 write identification page, 1 lock.
    pub lock: usize,
    // Bytes of an error-correction group.
    pub group: usize,
    // Delivered with a device identification code.
    pub coded: bool,
}

// A row of the part table.
#[derive(Clone, Copy)]
struct Part {
    name: Name,
    facts: Facts,
}

fn named(bytes: [u8; 11], length: usize) -> Name
    ensures { result ≡ record { bytes = bytes; length = length } }
{
    Name { bytes, length }
}

fn row(
    size: usize,
    page: usize,
    wide: bool,
    ident: bool,
    pin: bool,
    enables: u8,
    lock: usize,
    group: usize,
    coded: bool,
) -> Facts
    ensures { result ≡ row_of size page wide ident pin enables lock group coded }
{
    Facts {
        known: true,
        size,
        page,
        wide,
        ident,
        pin,
        enables,
        lock,
        group,
        coded,
    }
}

fn no_part() -> Facts
    ensures { result ≡ no_part }
{
    Facts {
        known: false,
        size: 1,
        page: 1,
        wide: false,
        ident: false,
        pin: false,
        enables: 0,
        lock: 1,
        group: 1,
        coded: false,
    }
}

// The part table. A row's columns are the fields of `Facts`, in their order.
fn table(part: u8) -> Part
    ensures { result ≡ table_of part }
{
    match part {
        0 => Part {
            name: named(*b"M24C16-DFCU", 11),
            facts: row(2048, 16, false, true, false, 1, 128, 1, false),
        },
        1 => Part {
            name: named(*b"M24C16-DRE\0", 10),
            facts: row(2048, 16, false, true, true, 1, 128, 1, true),
        },
        2 => Part {
            name: named(*b"M24C64\0\0\0\0\0", 6),
            facts: row(8192, 32, true, false, true, 8, 1024, 4, false),
        },
        3 => Part {
            name: named(*b"M24C64-D\0\0\0", 8),
            facts: row(8192, 32, true, true, true, 8, 1024, 4, false),
        },
        4 => Part {
            name: named(*b"M24256-B\0\0\0", 8),
            facts: row(32768, 64, true, false, true, 8, 1024, 4, false),
        },
        5 => Part {
            name: named(*b"M24256-D\0\0\0", 8),
            facts: row(32768, 64, true, true, true, 8, 1024, 4, false),
        },
        _ => Part {
            name: named([0; 11], 0),
            facts: no_part(),
        },
    }
}

// A part is a number, and so is an enable: the C interface hands on any, and refusals 1 and 2 are for those that are none (`lent_verdict_of`,
// `enable_right_of`).
#[tactic(auto, unfolding(crate::specs::Table::facts_of))]
pub fn facts_of(part: u8) -> Facts
    ensures value { result ≡ facts_of part }
    ensures range { Sound result }
{
    table(part).facts
}

#[tactic(auto, unfolding(crate::specs::Table::name_of))]
pub fn name_of(part: u8) -> Name
    ensures value { result ≡ name_of part }
    ensures range { (result.length ≤ 11) × (length result.bytes ≡ 11) }
{
    table(part).name
}

// The bytes of a part's identification page: 0 where there is no such page.
#[tactic(auto, unfolding(crate::specs::Table::id_size_of))]
pub fn id_size(f: Facts) -> usize
    ensures { result ≡ id_size_of f }
{
    if f.ident { f.page } else { 0 }
}

// Refusal 3 does not apply: the lengths of the lent array and identification buffer are the part's.
#[tactic(auto, unfolding(crate::specs::Table::buffers_right_of))]
pub fn buffers_right(f: Facts, array: usize, id: usize) -> bool
    ensures { result ≡ buffers_right_of f array id }
{
    array == f.size && id == id_size(f)
}

#[tactic(auto, unfolding(crate::specs::Table::address_bytes_of))]
pub fn address_bytes(f: Facts) -> usize
    ensures { result ≡ address_bytes_of f }
{
    if f.wide { 2 } else { 1 }
}

#[tactic(auto, unfolding(crate::specs::Table::enable_right_of))]
pub fn enable_right(f: Facts, enable: u8) -> bool
    ensures { result ≡ enable_right_of f enable }
{
    enable < f.enables
}

// What a reset finds where it cuts a cycle (document 02, §5). An enum and no `Option<bool>`: `Some(true)` would say neither that a page is lent nor
// what the flag is.
#[derive(Clone, Copy)]
pub enum Loss {
    // The old contents, and no lock: no page is lent.
    Old,
    // The bytes of a lent page, and the lock as the flag says.
    Lent(bool),
}

#[derive(Clone, Copy)]
pub enum Event {
    Clock(bool),
    Start,
    Stop,
    Ends,
    PinLow,
    PinHigh,
    PinFloat,
    Reset(Loss),
    // A code above 8: refused before it is taken.
    Unknown,
}

// The event of a code; a reset comes with the loss that the call was given. The C interface's runs take codes, and a code that is none is an event
// too, which leaves a chip as it was: `event_with` of specs/Events.
#[tactic(auto, unfolding(crate::specs::Events::event_with))]
pub fn event_with(loss: Loss, code: u8) -> Event
    ensures { result ≡ event_with loss code }
{
    match code {
        0 => Event::Clock(false),
        1 => Event::Clock(true),
        2 => Event::Start,
        3 => Event::Stop,
        4 => Event::Ends,
        5 => Event::PinLow,
        6 => Event::PinHigh,
        7 => Event::PinFloat,
        8 => Event::Reset(loss),
        _ => Event::Unknown,
    }
}

// Whether a part takes an event of this code.
#[tactic(auto, unfolding(crate::specs::Events::event_right_of))]
pub fn event_right(pin: bool, code: u8) -> bool
    ensures { result ≡ event_right_of pin code }
{
    code <= 8 && (pin || code < 5 || code == 8)
}

// The bytes of the page that is lent for a loss of power: 0 for the old contents.
pub fn loss_size(f: Facts, loss: Loss) -> usize
    ensures { result ≡ loss_size_of f loss }
{
    match loss {
        Loss::Old => 0,
        Loss::Lent(_) => f.page,
    }
}

// Whether each byte is below a limit. A fold and no `all`: one test a byte and no way out, the usual case of a longer look.
pub fn all_below(limit: u8, bytes: &[u8]) -> bool
    ensures { result ≡ all_below_of limit true bytes.now }
{
    bytes.iter().fold(true, |low, b| low & (*b < limit))
}

// The byte of a buffer, and 0 beyond its end.
pub fn byte_at(s: &[u8], at: usize) -> u8
    ensures { result ≡ get_or s.now at 0 }
{
    if at < s.len() { s[at] } else { 0 }
}

// As many of the bytes as there is room for, from a place on.
pub fn copy(out: &mut [u8], at: usize, bytes: &[u8])
    ensures { out.new ≡ copied_of out.old at bytes.now }
{
    if at <= out.len() {
        let n = bytes.len().min(out.len() - at);
        // By the index, not by `copy_from_slice`: between buffers of the caller that is a call of `memmove`, a name that the archive for C would need, and
        // most copies are of a few bytes.
        for i in 0..n {
            out[at + i] = bytes[i];
        }
    }
}

// The four bytes of a number, high byte first; of a larger one the last four.
pub fn word(x: usize) -> [u8; 4]
    ensures { result ≡ word_of x }
{
    ((x % 4294967296) as u32).to_be_bytes()
}

// Four bytes as a number, the high one first.
pub fn joined(a: u8, b: u8, c: u8, d: u8) -> usize
    ensures value { result ≡ word_joined_of a b c d }
    ensures range { result < word_end }
{
    u32::from_be_bytes([a, b, c, d]) as usize
}

// One more, where `on`; a count stays at the top of its 32 bits.
#[tactic(auto, unfolding(crate::specs::Bytes::up_of))]
pub fn up(n: u32, on: bool) -> u32
    ensures { result ≡ up_of n on }
{
    if on { n.saturating_add(1) } else { n }
}

// A flag, or the level of a clock, as a number.
pub fn flag(on: bool) -> u8
    ensures { result ≡ flag_of on }
{
    u8::from(on)
}

#[derive(Clone, Copy)]
pub enum Refusal {
    NoPart,
    WrongEnable,
    WrongBuffer,
    BadState,
    // With the first place.
    BadEvent(usize),
    ShortBuffer,
    Beyond,
    BadLimit,
    // With the page of the transfer's address.
    NoSelect(usize),
    // With the data byte's index in the request.
    NoData(usize),
    PollsUsed,
    BadImage,
    TooMany,
    // The first address byte, and the second, each with the page.
    NoFirst(usize),
    NoSecond(usize),
    // Of an Intel HEX file, each with the line, counted from 1: a malformed record, a wrong sum, overlap or beyond the array, no end record or
    // text after it.
    BadRecord(usize),
    BadSum(usize),
    Misplaced(usize),
    NoEnd(usize),
    // Of a capture of the two wires, with the first such sample, counted from 0: above 3.
    BadSample(usize),
    // An image of version 1 has no room for counts that are not 0.
    CountsLost,
}

// What document 01 says of a refusal: the number that is answered; its rank: of two refusals that apply to a call, the one of lower
// rank is given; and the place that it tells: of 5 the event's, of 9, 14 and 15 the page, of 10 the data byte's, of 16 to 19 the line, of 20 the
// sample's.
#[derive(Clone, Copy)]
struct Entry(pub u8, pub u16, pub Option<usize>);

fn entry_of(r: Refusal) -> Entry
    ensures { result ≡ entry_of r }
{
    match r {
        Refusal::NoPart => Entry(1, 1001, None),
        Refusal::WrongEnable => Entry(2, 2002, None),
        Refusal::WrongBuffer => Entry(3, 3003, None),
        Refusal::BadState => Entry(4, 4004, None),
        Refusal::BadEvent(k) => Entry(5, 5005, Some(k)),
        Refusal::ShortBuffer => Entry(6, 6006, None),
        Refusal::Beyond => Entry(7, 7007, None),
        Refusal::BadLimit => Entry(8, 8008, None),
        Refusal::NoSelect(p) => Entry(9, 9009, Some(p)),
        Refusal::NoData(i) => Entry(10, 10010, Some(i)),
        Refusal::PollsUsed => Entry(11, 11011, None),
        Refusal::BadImage => Entry(12, 12012, None),
        Refusal::TooMany => Entry(13, 4513, None),
        Refusal::NoFirst(p) => Entry(14, 14014, Some(p)),
        Refusal::NoSecond(p) => Entry(15, 15015, Some(p)),
        Refusal::BadRecord(n) => Entry(16, 16016, Some(n)),
        Refusal::BadSum(n) => Entry(17, 17017, Some(n)),
        Refusal::Misplaced(n) => Entry(18, 18018, Some(n)),
        Refusal::NoEnd(n) => Entry(19, 19019, Some(n)),
        Refusal::BadSample(k) => Entry(20, 4020, Some(k)),
        Refusal::CountsLost => Entry(21, 21021, None),
    }
}

// Document 01's number of a refusal.
pub fn number(r: Refusal) -> u8
    ensures { result ≡ number_of r }
{
    entry_of(r).0
}

fn rank(r: Refusal) -> u16
    ensures { result ≡ rank_of r }
{
    entry_of(r).1
}

// Whether a call is refused, and why.
pub type Verdict = Result<(), Refusal>;

// 0 where nothing is refused, else the refusal's number.
pub fn verdict_number(verdict: Verdict) -> u8
    ensures { result ≡ verdict_number_of verdict }
{
    match verdict {
        Ok(()) => 0,
        Err(refusal) => number(refusal),
    }
}

// The place that a refusal carries: whoever tells it reads it here.
pub fn spot_of(r: Refusal) -> Option<usize>
    ensures { result ≡ spot_of r }
{
    entry_of(r).2
}

fn place_told(spot: Option<usize>) -> usize
    ensures { result ≡ place_told spot }
{
    spot.unwrap_or(0)
}

// The place that a verdict tells; 0 where it tells none.
pub fn verdict_place(verdict: Verdict) -> usize
    ensures { result ≡ verdict_place_of verdict }
{
    match verdict {
        Ok(()) => 0,
        Err(refusal) => place_told(spot_of(refusal)),
    }
}

// A refusal, where what it is given for applies.
pub fn claim(wrong: bool, r: Refusal) -> Verdict
    ensures { result ≡ claim_of wrong r }
{
    if wrong { Err(r) } else { Ok(()) }
}

// Of two verdicts the one that is given: the order of document 01.
#[tactic(auto, unfolding(crate::specs::Refusals::sooner_of))]
pub fn sooner(a: Verdict, b: Verdict) -> Verdict
    ensures { result ≡ sooner_of a b }
{
    let Err(r) = a else {
        return b;
    };
    let Err(s) = b else {
        return a;
    };
    if rank(s) < rank(r) { b } else { a }
}

// Refusals 1 and 3: no such part, or lent buffers that are not the part's.
#[tactic(auto, unfolding(crate::specs::Refusals::lent_verdict_of))]
pub fn lent_verdict(f: Facts, array: usize, id: usize) -> Verdict
    ensures { result ≡ lent_verdict_of f array id }
{
    sooner(
        claim(!f.known, Refusal::NoPart),
        claim(!buffers_right(f, array, id), Refusal::WrongBuffer),
    )
}

// Refusal 3, for the page that is lent for a loss of power.
#[tactic(auto, unfolding(crate::specs::Refusals::loss_verdict_of))]
pub fn loss_verdict(f: Facts, loss: Loss, page: usize) -> Verdict
    ensures { result ≡ loss_verdict_of f loss page }
{
    claim(page != loss_size(f, loss), Refusal::WrongBuffer)
}
