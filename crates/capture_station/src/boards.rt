// Two chips with their memory: that of the reading asked for and that of the other reading, both also as they were before the file that is run;
// and the counts of wear of the first.
use capture::Seen;
use host::Host;
use state::Chip;
use words::Job;

// With room for the largest part's array and identification page.
#[derive(Clone, Copy)]
pub struct Board {
    chip: Chip,
    array: [u8; 32768],
    id: [u8; 64],
}

#[derive(Clone, Copy)]
struct Pair {
    own: Board,
    other: Board,
}

#[derive(Clone, Copy)]
pub struct Boards {
    now: Pair,
    before: Pair,
    counts: [u32; 8192],
}

// ---- one board

impl Board {
    // The chip is held as its bytes.
    pub fn new(held: &[u8], array: [u8; 32768], id: [u8; 64]) -> Board {
        Board {
            chip: pack_chip::unpack(held),
            array,
            id,
        }
    }

    // A piece of a capture.
    fn run(&mut self, job: Job, bus: bool, samples: &[u8]) -> Seen {
        let seen = capture::run(
            job.part,
            job.own,
            self.chip,
            fitted::array(job.part, &mut self.array),
            fitted::id(job.part, &mut self.id),
            bus,
            samples,
        );
        self.chip = seen.chip;
        seen
    }

    // Up to a Stop: a cycle begins at one, so what ends here is the cycle that was under way before, and until then it stays as it is.
    fn count_piece(&mut self, job: Job, bus: bool, samples: &[u8], counts: &mut [u32]) {
        let before = self.chip;
        let seen = self.run(job, bus, samples);
        if 0 < seen.ends {
            wear::mark(job.part, before, counts);
        }
    }

    // The samples are counted where a Stop or the end comes; the next begin with that one.
    fn count(&mut self, job: Job, bus: bool, samples: &[u8], counts: &mut [u32]) {
        let mut from = 0;
        for i in 0..samples.len() {
            if crate::fill::ends_piece(samples, i) {
                self.count_piece(job, bus, &samples[from..i + 1], counts);
                from = i;
            }
        }
    }
}

// ---- both

impl Boards {
    pub fn new(board: Board, counts: [u32; 8192]) -> Boards {
        let both = Pair {
            own: board,
            other: board,
        };
        Boards {
            now: both,
            before: both,
            counts,
        }
    }

    // Where counts are kept they go on by the cycles that end in the piece, on a copy of the first chip. Of a file that is refused later they are
    // not taken back: nothing is saved then.
    fn count(&mut self, job: Job, bus: bool, samples: &[u8]) {
        if job.wear {
            let mut own = self.now.own;
            let counts = fitted::counts(job.part, &mut self.counts);
            own.count(job, bus, samples, counts);
        }
    }

    // On the first, and its counts go on.
    pub fn run_own(&mut self, job: Job, bus: bool, samples: &[u8]) -> Seen {
        self.count(job, bus, samples);
        self.now.own.run(job, bus, samples)
    }

    pub fn run_other(&mut self, job: Job, bus: bool, samples: &[u8]) -> Seen {
        self.now.other.run(job, bus, samples)
    }

    // Whether the file stands that is asked for, with the chip of the reading asked for.
    pub fn save(&self, host: &Host, job: Job) -> bool {
        let mut own = self.now.own;
        let mut counts = self.counts;
        let mut held = [0u8; pack_chip::LENGTH];
        pack_chip::pack(own.chip, &mut held);
        files::save_kept(
            host,
            job,
            &held,
            fitted::array(job.part, &mut own.array),
            fitted::id(job.part, &mut own.id),
            fitted::counts(job.part, &mut counts),
        )
    }

    // Before a file, and where it is refused after some of it was run.
    pub fn remember(&mut self) {
        self.before = self.now;
    }

    pub fn restore(&mut self) {
        self.now = self.before;
    }
}
