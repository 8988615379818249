// Runs the driver on requests, limits and values out of range, and prints what it answers.
#![tactic(auto)]

use cases::told::{tell, tell_each};
use driver::{Answer, Counts, Driver, Failed, Phase, Place, Request, Slot};
use host::Host;
use parts::{ArrayAddress, IdLocation, Verdict};
use text::wide;

// The line is never released.
const ALWAYS: usize = 60000;

// How a run ended, which is not said of one without an end.
#[derive(Clone, Copy)]
struct Tally {
    answer: Option<Answer>,
    events: usize,
    clocks: usize,
}

// ---- requests

fn array(part: u8, reads: bool, address: usize, length: usize, budget: usize) -> Request {
    Request {
        part,
        enable: 0,
        place: Place::Array(ArrayAddress(address)),
        reads,
        length,
        budget,
    }
}

fn ident(part: u8, reads: bool, location: usize, length: usize, budget: usize) -> Request {
    Request {
        place: Place::Ident(IdLocation(location)),
        ..array(part, reads, 0, length, budget)
    }
}

fn enabled(part: u8, enable: u8) -> Request {
    Request {
        enable,
        ..array(part, true, 0, 1, 1)
    }
}

// ---- runs

// The line is pulled low for the first `low` askings, and never after.
fn level_at(asking: usize, low: usize) -> u8 {
    u8::from(low <= asking)
}

fn drive(request: Request, low: usize, buffer: &mut [u8]) -> Tally {
    let mut d = driver::begin(request).driver;
    let mut clocks = 0;
    for events in 0..ALWAYS {
        let asked = driver::next(d, level_at(events, low), buffer);
        let Answer::Send(code) = asked.answer else {
            return Tally {
                answer: Some(asked.answer),
                events,
                clocks,
            };
        };
        if code < 2 {
            clocks += 1;
        }
        d = asked.driver;
    }
    Tally {
        answer: None,
        events: ALWAYS,
        clocks,
    }
}

// 0 done, the refusal's number and its page or index, or 255 for no end; polls and bytes.
fn ending(answer: Option<Answer>) -> [usize; 4] {
    match answer {
        None | Some(Answer::Send(_)) => [255, 0, 0, 0],
        Some(Answer::Done(polls, bytes)) => [0, 0, polls, bytes],
        Some(Answer::Refused(r, polls, bytes)) => [
            wide(parts::number(r)),
            parts::verdict_place(Err(r)),
            polls,
            bytes,
        ],
    }
}

fn say_first(host: &Host, buffer: &[u8; 128]) {
    tell(host, b" ", wide(buffer[0]));
    host.say(b"\n");
}

// Writes number, page or index, polls, bytes, events, clocks, and the first byte of the buffer.
fn run(host: &Host, label: &[u8], request: Request, low: usize) {
    let mut buffer = [90u8; 128];
    host.say(label);
    if let Some(lent) = buffer.get_mut(..request.length) {
        let t = drive(request, low, lent);
        tell_each(host, &ending(t.answer));
        tell_each(host, &[t.events, t.clocks]);
    }
    say_first(host, &buffer);
}

fn judged(host: &Host, label: &[u8], request: Request) {
    host.say(label);
    tell(
        host,
        b" ",
        wide(parts::verdict_number(driver::judge(request))),
    );
    host.say(b"\n");
}

// One step of a driver made by hand, on a buffer of n bytes: number, page or index, position, and the first byte of the buffer.
fn step(host: &Host, label: &[u8], d: Driver, n: usize) {
    let mut buffer = [90u8; 128];
    host.say(label);
    if let Some(lent) = buffer.get_mut(..n) {
        let asked = driver::next(d, 0, lent);
        let [number, place, _, _] = ending(Some(asked.answer));
        tell_each(host, &[number, place, asked.driver.counts.at]);
    }
    say_first(host, &buffer);
}

fn made(phase: Phase, at: usize, seen: usize, tries: usize, polls: usize) -> Driver {
    made_for(array(2, false, 30, 5, 10), phase, at, seen, tries, polls)
}

fn made_for(
    request: Request,
    phase: Phase,
    at: usize,
    seen: usize,
    tries: usize,
    polls: usize,
) -> Driver {
    Driver {
        request,
        phase,
        counts: Counts {
            at,
            seen,
            tries,
            polls,
            byte: 0,
        },
    }
}

// ---- what is tried

fn requests(host: &Host) {
    judged(host, b"part 6", array(6, false, 0, 1, 1));
    judged(host, b"part 0, enable 1", enabled(0, 1));
    judged(host, b"part 2, enable 7", enabled(2, 7));
    judged(host, b"part 2, enable 8", enabled(2, 8));
    judged(
        host,
        b"part 2 at 8192, 0 bytes",
        array(2, false, 8192, 0, 1),
    );
    judged(host, b"part 2 at 8192, 1 byte", array(2, false, 8192, 1, 1));
    judged(host, b"part 2 at 8191, 1 byte", array(2, false, 8191, 1, 1));
    judged(
        host,
        b"address and length too large",
        array(2, true, 18446744073709551615, 2, 1),
    );
    judged(host, b"budget 0", array(2, false, 0, 1, 0));
    judged(host, b"budget 0, no bytes", array(2, false, 0, 0, 0));
    judged(host, b"budget 1", array(2, false, 0, 1, 1));
    judged(host, b"budget 1000", array(2, false, 0, 1, 1000));
    judged(host, b"budget 1001", array(2, false, 0, 1, 1001));
    judged(host, b"budget 1001, read", array(2, true, 0, 1, 1001));
    judged(
        host,
        b"identification page to its end",
        ident(3, false, 30, 2, 1),
    );
    judged(
        host,
        b"identification page over its end",
        ident(3, false, 30, 3, 1),
    );
    judged(
        host,
        b"no identification page, 0 bytes",
        ident(2, true, 0, 0, 1),
    );
}

fn write_runs(host: &Host) {
    run(
        host,
        b"part 2 at 8192, 0 bytes",
        array(2, false, 8192, 0, 1),
        ALWAYS,
    );
    run(
        host,
        b"part 2 at 8191, 1 byte",
        array(2, false, 8191, 1, 1),
        ALWAYS,
    );
    run(
        host,
        b"part 2 at 30, 5 bytes",
        array(2, false, 30, 5, 10),
        ALWAYS,
    );
    run(host, b"always released", array(2, false, 30, 5, 10), 0);
    run(host, b"address released", array(2, false, 30, 5, 10), 28);
    run(host, b"data released", array(2, false, 30, 5, 10), 37);
    run(host, b"polls released", array(2, false, 30, 5, 10), 49);
    run(
        host,
        b"part 0 at 250, 40 bytes",
        array(0, false, 250, 40, 1),
        ALWAYS,
    );
    run(
        host,
        b"identification write",
        ident(1, false, 3, 13, 2),
        ALWAYS,
    );
}

fn read_runs(host: &Host) {
    run(
        host,
        b"read, always low",
        array(4, true, 32700, 68, 0),
        ALWAYS,
    );
    run(
        host,
        b"read, low to the second select",
        array(4, true, 32700, 68, 0),
        39,
    );
    run(
        host,
        b"read, second select released",
        array(4, true, 32700, 68, 0),
        38,
    );
    run(host, b"read of 0 bytes", array(4, true, 32768, 0, 0), 0);
    run(
        host,
        b"identification read",
        ident(5, true, 63, 1, 0),
        ALWAYS,
    );
}

fn runs(host: &Host) {
    write_runs(host);
    read_runs(host);
    run(host, b"refused request", array(2, false, 30, 5, 0), ALWAYS);
}

fn values(host: &Host) {
    step(host, b"in range", made(Phase::Ready, 0, 0, 0, 0), 5);
    step(host, b"buffer of 4", made(Phase::Ready, 0, 0, 0, 0), 4);
    step(host, b"position 6", made(Phase::Ready, 6, 0, 0, 0), 5);
    step(
        host,
        b"seen past the position",
        made(Phase::Ready, 1, 2, 0, 0),
        5,
    );
    step(
        host,
        b"9 bits",
        made(Phase::Bits(Slot::Data, 9), 0, 0, 0, 0),
        5,
    );
    step(
        host,
        b"11 polls for a page",
        made(Phase::Rest, 2, 0, 11, 11),
        5,
    );
    step(host, b"21 polls in all", made(Phase::Rest, 2, 0, 1, 21), 5);
    step(
        host,
        b"a byte read in a write",
        made(Phase::Bits(Slot::Take, 8), 0, 0, 0, 0),
        5,
    );
}

// A refused driver made by hand: at the last address byte of parts with one and with two, at a data byte that was not sent, in the
// second part.
fn endings(host: &Host) {
    let last = Phase::Over(Failed::AtLow);
    let high = Phase::Over(Failed::AtHigh);
    let data = Phase::Over(Failed::AtData);
    let narrow = array(0, false, 30, 5, 10);
    step(host, b"last of two", made(last, 2, 2, 1, 1), 5);
    step(host, b"last of one", made_for(narrow, last, 2, 2, 1, 1), 5);
    step(
        host,
        b"first of two, of which there is one",
        made_for(narrow, high, 2, 2, 1, 1),
        5,
    );
    step(host, b"no data byte", made(data, 0, 0, 0, 0), 5);
    step(host, b"third data byte", made(data, 3, 2, 1, 1), 5);
}

fn fails(host: &Host, label: &[u8], request: Request, low: usize) {
    host.say(label);
    tell(host, b" ", low);
    run(host, b":", request, low);
}

// Which byte goes unanswered, on a line that fails after each number of askings.
fn sweep(host: &Host, label: &[u8], request: Request, most: usize) {
    for low in 0..most {
        fails(host, label, request, low);
    }
}

// Writes of five bytes over a page's end, and reads.
fn sweeps(host: &Host) {
    sweep(host, b"write 0", array(0, false, 14, 5, 2), 112);
    sweep(host, b"write 2", array(2, false, 30, 5, 2), 130);
    sweep(host, b"write 5", array(5, false, 62, 5, 2), 130);
    sweep(host, b"read 0", array(0, true, 300, 1, 0), 42);
    sweep(host, b"read 2", array(2, true, 70, 1, 0), 51);
    sweep(host, b"identification 5", ident(5, false, 3, 1, 1), 51);
}

fn main(rt: HostRuntime) {
    let host = Host::new(rt);
    requests(&host);
    runs(&host);
    values(&host);
    endings(&host);
    sweeps(&host);
}
