// Bytes laid one behind another into a lent buffer; what there is no room for is left out.
use crate::first;

#[derive(Drop)]
pub struct Laid<'a> {
    room: &'a mut [u8],
    n: usize,
}

impl<'a> Laid<'a> {
    pub fn new(room: &'a mut [u8]) -> Laid<'a> {
        Laid { room, n: 0 }
    }

    pub fn push(&mut self, x: u8) {
        if let Some(place) = self.room.get_mut(self.n) {
            *place = x;
            self.n += 1;
        }
    }

    pub fn extend(&mut self, bytes: &[u8]) {
        for x in bytes {
            self.push(*x);
        }
    }

    pub fn bytes(&self) -> &[u8] {
        first(self.room, self.n)
    }

    pub fn into_bytes(self) -> &'a mut [u8] {
        fitted::first(self.room, self.n)
    }

    // Those that there are over and over, until there are so many.
    pub fn repeat(&mut self, many: usize) {
        let n = self.n;
        for from in 0..many.saturating_sub(n) {
            let Some(x) = self.room.get(from).copied() else {
                return;
            };
            self.push(x);
        }
    }
}
