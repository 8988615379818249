// Buffers for what a chip stores, with room for one byte more than any part has.
use crate::{fill, filled};

#[derive(Clone, Copy, PartialEq, Eq)]
pub struct Lent {
    pub array: [u8; 32769],
    pub id: [u8; 65],
}

impl Lent {
    pub fn blank() -> Lent {
        Lent {
            array: [0; 32769],
            id: [0; 65],
        }
    }

    // Filled, so that what a call writes can be told.
    pub fn filled() -> Lent {
        let mut lent = Lent::blank();
        lent.fill();
        lent
    }

    pub fn fill(&mut self) {
        fill(&mut self.array, 0);
        fill(&mut self.id, 100);
    }

    // The first bytes of both.
    pub fn first(&mut self, array: usize, id: usize) -> (&mut [u8], &mut [u8]) {
        let Lent {
            array: cells,
            id: page,
        } = self;
        (fitted::first(cells, array), fitted::first(page, id))
    }

    // As much of both as the part has.
    pub fn part(&mut self, part: u8) -> (&mut [u8], &mut [u8]) {
        let Lent { array, id } = self;
        (fitted::array(part, array), fitted::id(part, id))
    }

    pub fn is_filled(&self) -> bool {
        filled(&self.array, 0) && filled(&self.id, 100)
    }
}
