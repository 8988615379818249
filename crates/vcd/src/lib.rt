// A run of bus events as a value change dump, which GTKWave and PulseView open: the two wires, the Write Control pin of a part that has one,
// and whether a cycle runs. The wires are those of a capture, sample by sample, so what is drawn is read back (`DrawnBack`). That the file
// says so is tried, not proved.
//
// Time counts samples, one a microsecond, and is not that of a real bus, where a cycle lasts as long as a thousand clocks. An event that the wires do
// not show, the end of a cycle, the pin or a reset, takes as long as a clock, and the wires hold: a sample that repeats the one before it makes no
// event (`RepeatsMakeNone`). What an event does to the pin and to a cycle is seen from its last sample on: a cycle begins where a Stop does, and
// one that ends at once is seen for three microseconds.
#![tactic(auto)]

ghost use Rattle.std.specs.Prelude.{◌≤◌};

use capture::{Stroke, Wires};
use host::Host;
use line::{Line, Phase, Pin};
use parts::Loss;
use state::Chip;

// The dump was not written whole.
#[derive(Clone, Copy)]
struct Unwritten;

// What is seen at one time: a sample of the wires, and the other two as the dump writes them, where 0 stands for no pin.
#[derive(Clone, Copy, PartialEq, Eq)]
struct Shown {
    sample: u8,
    control: u8,
    busy: u8,
}

// The file under way: the bytes that wait to be written to it, and what was seen last, at which time.
#[derive(Drop)]
struct Pen<'a> {
    host: &'a Host,
    fd: i32,
    buffer: [u8; 4096],
    waiting: usize,
    time: u32,
    shown: Shown,
    ghost fits: { waiting ≤ 4096 },
}

// The chip that is run along, only for its pin and its cycle, and the wires that its events are drawn on.
#[derive(Drop)]
struct Scene<'a> {
    part: u8,
    enable: u8,
    chip: Chip,
    array: &'a mut [u8],
    id: &'a mut [u8],
    wires: Wires,
}

// ---- the file

impl<'a> Pen<'a> {
    // Nothing is written yet; what is seen before the first event is known.
    fn new(host: &'a Host, fd: i32, shown: Shown) -> Pen<'a> {
        Pen {
            host,
            fd,
            buffer: io::buffer(),
            waiting: 0,
            time: 0,
            shown,
        }
    }
}

impl Pen<'_> {
    fn flush(&mut self) -> Result<(), Unwritten> {
        let n = self.waiting;
        self.waiting = 0;
        if self.host.write_all(self.fd, &self.buffer[..n]) {
            Ok(())
        } else {
            Err(Unwritten)
        }
    }

    // A text of the dump: none is longer than the buffer.
    fn put(&mut self, text: &[u8]) -> Result<(), Unwritten> {
        if 4096 - self.waiting < text.len() {
            self.flush()?;
        }
        let at = self.waiting;
        if text.len() <= 4096 - at {
            let end = at + text.len();
            self.buffer[at..end].copy_from_slice(text);
            self.waiting = end;
        }
        Ok(())
    }
}

// ---- changes

impl Pen<'_> {
    // `#27`
    fn put_time(&mut self) -> Result<(), Unwritten> {
        let mut text = [0u8; 20];
        let k = io::decimal(self.time as u64, &mut text);
        self.put(b"#")?;
        self.put(&text[..k])?;
        self.put(b"\n")
    }

    // `1c`
    fn put_change(&mut self, was: u8, is: u8, name: u8) -> Result<(), Unwritten> {
        if was == is {
            return Ok(());
        }
        self.put(&[is, name, b'\n'])
    }

    // Only what changed.
    fn put_changes(&mut self, was: Shown, is: Shown) -> Result<(), Unwritten> {
        self.put_change(clock(was.sample), clock(is.sample), b'c')?;
        self.put_change(data(was.sample), data(is.sample), b'd')?;
        self.put_change(was.control, is.control, b'w')?;
        self.put_change(was.busy, is.busy, b'b')
    }

    // A microsecond later.
    fn tick(&mut self, is: Shown) -> Result<(), Unwritten> {
        let was = self.shown;
        self.time = parts::up(self.time, true);
        self.shown = is;
        if was == is {
            return Ok(());
        }
        self.put_time()?;
        self.put_changes(was, is)
    }
}

// A bit as the dump writes it.
fn bit(high: bool) -> u8 {
    if high { b'1' } else { b'0' }
}

fn clock(sample: u8) -> u8 {
    bit(sample % 2 == 1)
}

fn data(sample: u8) -> u8 {
    bit(sample / 2 % 2 == 1)
}

// ---- an event

fn control(pin: Pin) -> u8 {
    match pin {
        Pin::Absent => 0,
        Pin::Low => b'0',
        Pin::High => b'1',
        Pin::Floating => b'z',
    }
}

// What is seen of a chip beside a sample.
fn seen(sample: u8, line: Line) -> Shown {
    Shown {
        sample,
        control: control(line.core.pin),
        busy: bit(matches!(line.phase, Phase::Busy(_))),
    }
}

// The samples of an event: where it has none the wires hold, as long as a clock takes.
fn drawn(wires: Wires, sample: u8, code: u8) -> Stroke {
    let s = capture::draw(wires, code);
    if 0 < s.count {
        return s;
    }
    Stroke {
        samples: [sample; 4],
        count: 3,
        wires,
    }
}

impl Pen<'_> {
    // Up to the last sample of an event the chip is seen as it was.
    fn draw_samples(&mut self, stroke: Stroke, line: Line) -> Result<(), Unwritten> {
        for (i, sample) in stroke.samples.iter().take(stroke.count).enumerate() {
            let is = if i + 1 == stroke.count {
                seen(*sample, line)
            } else {
                Shown {
                    sample: *sample,
                    ..self.shown
                }
            };
            self.tick(is)?;
        }
        Ok(())
    }
}

impl Scene<'_> {
    // An event as the line shows it, with the level that was answered; behind it the chip stands as it left it.
    fn turn(&mut self, pen: &mut Pen<'_>, code: u8, level: u8) -> Result<(), Unwritten> {
        let s = chip::step(
            self.part,
            self.enable,
            Loss::Old,
            b"",
            self.chip,
            self.array,
            self.id,
            code,
        );
        let stroke = drawn(self.wires, pen.shown.sample, capture::lined(code, level));
        self.chip = s.chip;
        self.wires = stroke.wires;
        pen.draw_samples(stroke, s.chip.line)
    }
}

// ---- the dump

impl Pen<'_> {
    // No date: the same events make the same file.
    fn put_version(&mut self) -> Result<(), Unwritten> {
        self.put(b"$version sapwoodle $end\n")?;
        self.put(b"$comment one sample a microsecond: not the time of a real bus $end\n")?;
        self.put(b"$timescale 1 us $end\n")
    }

    fn put_names(&mut self) -> Result<(), Unwritten> {
        self.put(b"$scope module m24c $end\n$var wire 1 c scl $end\n$var wire 1 d sda $end\n")?;
        if 0 < self.shown.control {
            self.put(b"$var wire 1 w wc $end\n")?;
        }
        self.put(b"$var wire 1 b busy $end\n$upscope $end\n$enddefinitions $end\n")
    }

    // What is seen before the first event. At rest both wires are high, so all of it changes from nothing.
    fn put_first(&mut self) -> Result<(), Unwritten> {
        let nothing = Shown {
            sample: 0,
            control: 0,
            busy: 0,
        };
        self.put_time()?;
        self.put(b"$dumpvars\n")?;
        self.put_changes(nothing, self.shown)?;
        self.put(b"$end\n")
    }

    // The last sample has its width.
    fn put_end(&mut self) -> Result<(), Unwritten> {
        self.time = parts::up(self.time, true);
        self.put_time()?;
        self.flush()
    }
}

fn draw_all(
    pen: &mut Pen<'_>,
    scene: &mut Scene<'_>,
    events: &[u8],
    levels: &[u8],
) -> Result<(), Unwritten> {
    pen.put_version()?;
    pen.put_names()?;
    pen.put_first()?;
    for (i, code) in events.iter().enumerate() {
        scene.turn(pen, *code, parts::byte_at(levels, i))?;
    }
    pen.put_end()
}

// Draws events from a chip on, with the levels that were answered, to an open file. The chip is held as its bytes; the enable is its own; array
// and id are changed as the events change them, up to where the file could not be written. Whether all was written, as
// `files::store::finish` is told.
pub fn draw(
    host: &Host,
    fd: i32,
    part: u8,
    enable: u8,
    held: &[u8],
    array: &mut [u8],
    id: &mut [u8],
    events: &[u8],
    levels: &[u8],
) -> bool {
    let chip = pack_chip::unpack(held);
    let mut pen = Pen::new(host, fd, seen(3, chip.line));
    let mut scene = Scene {
        part,
        enable,
        chip,
        array,
        id,
        wires: Wires::Rest,
    };
    draw_all(&mut pen, &mut scene, events, levels).is_ok()
}

fn store_in(
    host: &Host,
    word: usize,
    part: u8,
    enable: u8,
    held: &[u8],
    array: &mut [u8],
    id: &mut [u8],
    events: &[u8],
    levels: &[u8],
    beside: &mut [u8],
) -> bool {
    let Some(b) = files::store::begin(host, word, beside) else {
        return false;
    };
    let whole = draw(host, b.fd, part, enable, held, array, id, events, levels);
    files::store::finish(host, b, whole, word, beside)
}

// Whether the file stands that a word names.
pub fn store(
    host: &Host,
    word: usize,
    part: u8,
    enable: u8,
    held: &[u8],
    array: &mut [u8],
    id: &mut [u8],
    events: &[u8],
    levels: &[u8],
) -> bool {
    let mut beside = io::buffer();
    store_in(
        host,
        word,
        part,
        enable,
        held,
        array,
        id,
        events,
        levels,
        &mut beside,
    )
}
