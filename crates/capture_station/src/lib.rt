// The command `capture`: what a logic analyser saw of the two wires, run on the model, one file after another on one chip. A capture of any
// length goes through, in pieces that end with a Stop: the pieces one after another are the whole (PiecesJoin and TallyJoins of the crate
// capture_promises).
#![tactic(auto)]

mod boards;
mod fill;
mod show;

use boards::{Board, Boards};
use capture::{Mark, Tally};
use fill::{Bits, Entries, Halt, Source};
use host::Host;
use parts::{Refusal, Verdict};
use show::{Figures, Marked, Spot, Sums};
use words::{Job, answer};

// Why the walk through a file stops before its end.
#[derive(Clone, Copy)]
enum Stop {
    // Standard error has the reason.
    Unread,
    Refused(Refusal),
}

// What files are run with, one after another: the word that names the one under way, and whether it is not all in the buffer.
#[derive(Drop)]
struct Desk<'a, 's> {
    host: &'a Host,
    job: Job,
    word: usize,
    pieces: bool,
    source: Source<'s>,
    boards: &'a mut Boards,
    out: &'a mut [u8],
}

// ---- where a clock stands in its byte

const AT_START: Spot = Spot {
    place: 0,
    byte: 1,
    value: 0,
};

// Behind one event.
fn passed(s: Spot, code: u8) -> Spot {
    if 1 < code {
        return AT_START;
    }
    if s.place < 8 {
        return Spot {
            place: s.place + 1,
            byte: s.byte,
            value: s.value % 128 * 2 + code,
        };
    }
    Spot {
        place: 0,
        byte: s.byte.wrapping_add(1),
        value: 0,
    }
}

// The clock of this number.
fn spot_in(events: &[u8], clock: usize) -> Spot {
    let mut s = AT_START;
    let mut left = clock;
    for code in events {
        if *code < 2 {
            if left == 0 {
                return s;
            }
            left -= 1;
        }
        s = passed(s, *code);
    }
    s
}

fn spot_of(bus: bool, samples: &[u8], clock: usize, out: &mut [u8]) -> Spot {
    let n = capture::events(bus, samples, out).length;
    spot_in(&out[..n.min(out.len())], clock)
}

// ---- a piece

fn list(host: &Host, ok: bool, bus: bool, samples: &[u8], out: &mut [u8]) -> bool {
    let n = capture::events(bus, samples, out).length;
    if n <= out.len() {
        return answer::letters(host, ok, false, &mut out[0..n]);
    }
    false
}

fn tallied_by(t: Tally, bus: bool, samples: &[u8]) -> Tally {
    capture::tallied_by(t.starts, t.stops, t.bytes, t.unacknowledged, bus, samples)
}

impl<'a, 's> Desk<'a, 's> {
    fn new(
        host: &'a Host,
        job: Job,
        source: Source<'s>,
        boards: &'a mut Boards,
        out: &'a mut [u8],
    ) -> Desk<'a, 's> {
        Desk {
            host,
            job,
            word: 0,
            pieces: false,
            source,
            boards,
            out,
        }
    }
}

impl Desk<'_, '_> {
    // How the reading asked for goes.
    fn bus(&self) -> bool {
        !self.job.letter
    }

    // The mark of a piece: its sample's number is the file's, its clock's the whole capture's, which had so many before.
    fn marked(&mut self, before: usize, mark: Mark, n: usize) -> Option<Marked> {
        let bus = self.bus();
        match mark {
            Mark::Same => None,
            Mark::At(sample, clock, level) => Some(Marked {
                sample: self.source.entries.place(sample),
                clock: before.wrapping_add(clock),
                level,
                spot: spot_of(bus, self.source.entries.up_to(n), clock, self.out),
            }),
        }
    }

    // The first n samples are run on both boards. No call is refused: chip and samples were judged.
    fn run_piece(&mut self, f: &mut Figures, n: usize) {
        let bus = self.bus();
        let samples = self.source.entries.up_to(n);
        let seen = self.boards.run_own(self.job, bus, samples);
        let other = self.boards.run_other(self.job, !bus, samples);
        f.tally = tallied_by(f.tally, bus, samples);
        if f.mark.is_none() {
            f.mark = self.marked(f.clocks, seen.mark, n);
        }
        f.events = f.events.wrapping_add(seen.events);
        f.clocks = f.clocks.wrapping_add(seen.clocks);
        f.ends = f.ends.wrapping_add(seen.ends);
        f.cycles = f.cycles.wrapping_add(seen.cycles);
        f.other = f.other || !matches!(other.mark, Mark::Same);
    }

    // Their events are listed, where those before them were told.
    fn list_piece(&mut self, told: &mut bool, n: usize) {
        let bus = self.bus();
        let samples = self.source.entries.up_to(n);
        *told = list(self.host, *told, bus, samples, self.out);
    }

    // ---- a file, piece by piece

    // Where the entries are cut: the next piece begins with the one that ends the last Stop.
    fn cut(&self) -> Result<usize, Stop> {
        match self.source.entries.last_stop() {
            Some(k) => Ok(k),
            None => {
                files::complain(
                    self.host,
                    self.word,
                    b": got more than 1048575 changes without a Stop, wanted no more: cut it\n",
                );
                Err(Stop::Unread)
            }
        }
    }

    // The sample's number is the file's. A refused capture changes nothing, whatever was run of it.
    fn judge(&mut self) -> Result<(), Stop> {
        let verdict = capture::judge(self.source.entries.all());
        match verdict {
            Ok(()) => Ok(()),
            Err(_) => {
                self.boards.restore();
                let at = self.source.entries.place(parts::verdict_place(verdict));
                Err(Stop::Refused(Refusal::BadSample(at)))
            }
        }
    }

    // How many samples the next piece has, and the entry that the one behind it begins with: none behind the last.
    fn next(&mut self) -> Result<(usize, Option<usize>), Stop> {
        let halt = self.source.fill(self.host);
        self.judge()?;
        match halt {
            Some(Halt::Full) => {
                let k = self.cut()?;
                Ok((k.saturating_add(1), Some(k)))
            }
            Some(Halt::Ended) => Ok((self.source.entries.len(), None)),
            Some(Halt::Failed) => {
                files::unread(self.host, self.word);
                Err(Stop::Unread)
            }
            None => Err(Stop::Unread),
        }
    }
}

// Each piece of a file, from the first on. The turns are counted as in `fill`.
fn walk<T, F: Fn(&mut Desk, &mut T, usize)>(
    desk: &mut Desk,
    told: &mut T,
    piece: F,
) -> Result<(), Stop>
    requires { F.IsAlwaysCallable piece }
{
    for _ in 0..u64::MAX {
        let (n, next) = desk.next()?;
        piece(desk, told, n);
        let Some(k) = next else {
            return Ok(());
        };
        desk.source.entries.keep_from(k);
        desk.pieces = true;
    }
    Err(Stop::Unread)
}

// ---- a file, told

const NO_TALLY: Tally = Tally {
    starts: 0,
    stops: 0,
    bytes: 0,
    unacknowledged: 0,
};

const NO_FIGURES: Figures = Figures {
    samples: 0,
    events: 0,
    clocks: 0,
    ends: 0,
    cycles: 0,
    tally: NO_TALLY,
    mark: None,
    other: false,
};

// Of a refused file, its place and what was found and wanted, on standard error.
fn tell_sample(host: &Host, word: usize, r: Refusal) {
    files::tell::name(host, word);
    files::tell::say(host, b": sample ");
    files::tell::number(host, parts::verdict_place(Err(r)));
    files::tell::say(host, b": found a value above 3, wanted 0 to 3\n");
}

impl Desk<'_, '_> {
    // The capture's events as one line: those of one piece still stand in the buffer, a capture of several is read again.
    fn tell_events(&mut self, ok: bool, from: Option<u64>) -> bool {
        let mut told = ok;
        if self.pieces {
            let fd = self.source.fd();
            if let Some(place) = from {
                self.host.seek(fd, place);
            }
            self.source.begin(fd);
            // What stops it was said, or what stood there before has changed since: then the line ends here.
            let _ = walk(self, &mut told, |desk, told, n| desk.list_piece(told, n));
        } else {
            let n = self.source.entries.len();
            self.list_piece(&mut told, n);
        }
        answer::say(self.host, told, b"\n")
    }

    // The name where there are several files.
    fn tell_name(&self) -> bool {
        if several(self.job) {
            return show::name(self.host, true, self.word);
        }
        true
    }

    // The name, the answer, and the events where they are asked for.
    fn tell(&mut self, found: Result<Figures, Refusal>, from: Option<u64>) -> bool {
        let letter = self.job.letter;
        match found {
            Ok(f) => {
                let told = show::lines(self.host, self.tell_name(), letter, f);
                if self.job.events {
                    return self.tell_events(told, from);
                }
                told
            }
            Err(r) => {
                tell_sample(self.host, self.word, r);
                show::refused_at(self.host, self.tell_name(), r)
            }
        }
    }

    // Whether the events can be listed, where they are asked for. `from` none: the file cannot be read a second time.
    fn listable(&self, from: Option<u64>) -> bool {
        if self.job.events && self.pieces && from.is_none() {
            files::complain(
                self.host,
                self.word,
                b": too long for its events to be kept, and it cannot be read again\n",
            );
            return false;
        }
        true
    }

    // Behind the last file, the chip of the reading asked for; where a file was refused none. It stands before the last answer is told.
    fn saved(&self, refused: usize) -> bool {
        if words::after(self.word) < self.job.behind || 0 < refused {
            return true;
        }
        self.boards.save(self.host, self.job)
    }

    // A line of text is seen as a sample above 3, but for bits that are picked.
    fn warn_text(&self) {
        if self.job.scl.is_some() && self.source.is_text() {
            files::tell::name(self.host, self.word);
            files::tell::say(
                self.host,
                b": line 1: found text, META .., and its letters are taken for samples: tail -n +2 leaves it out\n",
            );
        }
    }

    // What was found of a file; none where it could not be read, and standard error has the reason.
    fn found(&mut self) -> Option<Result<Figures, Refusal>> {
        let mut f = NO_FIGURES;
        match walk(self, &mut f, |desk, f, n| desk.run_piece(f, n)) {
            Ok(()) => {
                f.samples = self.source.all();
                Some(Ok(f))
            }
            Err(Stop::Refused(r)) => Some(Err(r)),
            Err(Stop::Unread) => None,
        }
    }

    // With one file more; none where nothing more is to be told.
    fn run_file(&mut self, sums: Sums) -> Option<Sums> {
        let from = self.host.position(self.source.fd());
        let found = self.found()?;
        self.warn_text();
        let all = counted(sums, found);
        if self.listable(from) && self.saved(all.refused) && self.tell(found, from) {
            return Some(all);
        }
        None
    }

    fn file(&mut self, word: usize, sums: Sums) -> Option<Sums> {
        let fd = files::open(self.host, word)?;
        self.boards.remember();
        self.word = word;
        self.pieces = false;
        self.source.begin(fd);
        let all = self.run_file(sums);
        files::close(self.host, word, fd);
        all
    }

    // One file after another. What cannot be read ends the command: the chip behind it is not known.
    fn files(&mut self) -> Option<Sums> {
        let mut sums = Sums {
            files: 0,
            differ: 0,
            refused: 0,
            cycles: 0,
            tally: NO_TALLY,
        };
        for word in self.job.files..self.job.behind {
            sums = self.file(word, sums)?;
        }
        Some(sums)
    }
}

// ---- all files

fn several(job: Job) -> bool {
    words::after(job.files) < job.behind
}

// Each stays at the top of its 32 bits, as in a tally.
fn tallied(a: Tally, b: Tally) -> Tally {
    Tally {
        starts: a.starts.saturating_add(b.starts),
        stops: a.stops.saturating_add(b.stops),
        bytes: a.bytes.saturating_add(b.bytes),
        unacknowledged: a.unacknowledged.saturating_add(b.unacknowledged),
    }
}

// With one more file.
fn counted(s: Sums, found: Result<Figures, Refusal>) -> Sums {
    let files = s.files.wrapping_add(1);
    match found {
        Ok(f) => Sums {
            files,
            differ: s.differ.wrapping_add(usize::from(f.mark.is_some())),
            refused: s.refused,
            cycles: s.cycles.wrapping_add(f.cycles),
            tally: tallied(s.tally, f.tally),
        },
        Err(_) => Sums {
            files,
            refused: s.refused.wrapping_add(1),
            ..s
        },
    }
}

// ---- the buffers

fn run(host: &Host, job: Job, boards: &mut Boards) -> bool {
    let mut chunk = io::large_buffer();
    let mut samples = [0u8; 1048576];
    let mut counts = [0u16; 1048576];
    let mut out = [0u8; 1048576];
    // Both are named, or neither.
    let bits = match (job.scl, job.sda) {
        (Some(scl), Some(sda)) => Some(Bits { scl, sda }),
        _ => None,
    };
    let entries = Entries::new(&mut samples, &mut counts);
    let source = Source::new(bits, &mut chunk, entries);
    let mut desk = Desk::new(host, job, source, boards, &mut out);
    match desk.files() {
        Some(sums) if several(job) => show::all(host, true, sums),
        Some(_) => true,
        None => false,
    }
}

// ---- the chip before the run

// The chip that is asked for, on both boards.
fn lend(host: &Host, job: Job) -> bool {
    let mut held = [0u8; pack_chip::LENGTH];
    let mut array = [0u8; 32768];
    let mut id = [0u8; 64];
    let mut counts = [0u32; 8192];
    let first = files::at_first(
        host,
        job,
        &mut held,
        fitted::array(job.part, &mut array),
        fitted::id(job.part, &mut id),
        fitted::counts(job.part, &mut counts),
    );
    let Some(first) = first else {
        return false;
    };
    let wear = job.wear || first.worn;
    let ready = files::prepared(
        first.verdict,
        job,
        &mut held,
        fitted::array(job.part, &mut array),
        fitted::id(job.part, &mut id),
    );
    match ready {
        Ok(()) => run(
            host,
            Job { wear, ..job },
            &mut Boards::new(Board::new(&held, array, id), counts),
        ),
        Err(r) => show::refused(host, r),
    }
}

// 1 and 2 are given before a file is looked at.
fn asked(host: &Host, job: Job) -> bool {
    match files::judged(job) {
        Ok(()) => lend(host, job),
        Err(r) => show::refused(host, r),
    }
}

// ---- the command: `next` is the first word behind `capture`, and the words end before `end`

// False where nothing, or not all, could be answered: standard error has the reason.
pub fn capture_command(host: &Host, next: usize, end: usize) -> bool {
    match words::capture_asked(host, next, end) {
        Some(job) => asked(host, job),
        None => false,
    }
}
