// A chip with its memory: it runs with a driver, takes events, and loses its power (document 02, §5).
use bench::{Kept, Recorded};
use chip::Stepped;
use line::{Cycle, Phase, Target};
use parts::Loss;
use state::Chip;
use wear::Most;
use words::{Job, report};

// The array and the identification page are lent.
#[derive(Drop)]
pub struct Board<'a> {
    pub part: u8,
    pub enable: u8,
    pub chip: Chip,
    pub array: &'a mut [u8],
    pub id: &'a mut [u8],
}

// The cycle that a chip is in: that of a page of the array, that of the identification page, or a locking one.
#[derive(Clone, Copy)]
pub enum Under {
    Page(usize),
    Ident,
    Lock,
}

// A code of document 01, which `chip::step` takes.
const RESET: u8 = 8;

fn page_of(counter: usize, size: usize) -> usize {
    counter.checked_div(size).unwrap_or(0)
}

// Each byte becomes the complement of a cell, from a place on.
fn turn(page: &mut [u8], cells: &[u8], from: usize) {
    for (i, b) in page.iter_mut().enumerate() {
        *b = !parts::byte_at(cells, report::onward(from, i));
    }
}

impl<'a> Board<'a> {
    // As delivered, in buffers that hold the largest part.
    pub fn new(part: u8, enable: u8, array: &'a mut [u8], id: &'a mut [u8]) -> Board<'a> {
        let array = fitted::array(part, array);
        let id = fitted::id(part, id);
        Board {
            part,
            enable,
            chip: chip::deliver(part, array, id).chip,
            array,
            id,
        }
    }

    // A copy, in such buffers.
    pub fn copied(other: &Board, array: &'a mut [u8], id: &'a mut [u8]) -> Board<'a> {
        let mut copy = Board::new(other.part, other.enable, array, id);
        copy.copy(other);
        copy
    }
}

impl Board<'_> {
    // The chip and its memory, copied from another board of the part.
    pub fn copy(&mut self, other: &Board) {
        self.chip = other.chip;
        parts::copy(self.array, 0, other.array);
        parts::copy(self.id, 0, other.id);
    }

    // As delivered.
    pub fn deliver(&mut self) {
        self.chip = chip::deliver(self.part, self.array, self.id).chip;
    }

    // Driver and chip together.
    pub fn record(
        &mut self,
        job: Job,
        data: &mut [u8],
        events: &mut [u8],
        levels: &mut [u8],
    ) -> Recorded {
        let run = bench::record(
            crate::request(job),
            self.enable,
            job.ends,
            self.chip,
            self.array,
            self.id,
            data,
            events,
            levels,
        );
        self.chip = run.report.chip;
        run
    }

    // The same, over counts of wear and the worst of them.
    pub fn wear(&mut self, job: Job, data: &mut [u8], counts: &mut [u32], worst: Most) -> Kept {
        let run = bench::run_worn(
            crate::request(job),
            self.enable,
            job.ends,
            self.chip,
            self.array,
            self.id,
            data,
            counts,
            worst,
        );
        self.chip = run.report.chip;
        run
    }

    // One event of a tape; its chip was judged when the tape was made.
    pub fn take(&mut self, code: u8) -> Stepped {
        let s = chip::take(self.part, self.enable, self.chip, self.array, self.id, code);
        self.chip = s.chip;
        s
    }

    // ---- the cycle

    // The counter rolls over inside the page that is written.
    fn written(&self, target: Target) -> Under {
        let f = parts::facts_of(self.part);
        match target {
            Target::Array => Under::Page(page_of(usize::from(self.chip.line.core.counter), f.page)),
            Target::Ident => Under::Ident,
        }
    }

    // The cycle that runs, if one does.
    pub fn cycle(&self) -> Option<Under> {
        match self.chip.line.phase {
            Phase::Busy(Cycle::Writing(target)) => Some(self.written(target)),
            Phase::Busy(Cycle::Locking) => Some(Under::Lock),
            Phase::Idle | Phase::Receive(_) | Phase::Send(_) => None,
        }
    }

    // ---- the loss of power

    // A page that differs everywhere from the one that is written, so that every byte that may be spoiled shows. Where none is written, any
    // will do.
    pub fn turned(&self, page: &mut [u8]) {
        let f = parts::facts_of(self.part);
        match self.cycle() {
            None => turn(page, self.array, 0),
            Some(Under::Page(p)) => turn(page, self.array, report::first_of(p, f.page)),
            Some(Under::Ident | Under::Lock) => turn(page, self.id, 0),
        }
    }

    // Power is lost and comes back; the page is lent for it, and the flag says whether a locking cycle leaves the lock.
    pub fn lose(&mut self, lock: bool, page: &[u8]) {
        let s = chip::step(
            self.part,
            self.enable,
            Loss::Lent(lock),
            page,
            self.chip,
            self.array,
            self.id,
            RESET,
        );
        self.chip = s.chip;
    }
}
