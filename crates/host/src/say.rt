// Numbers, and what is said on standard output: each function answers false where not all could be written.
use crate::{Host, STDOUT};

impl Host {
    pub fn print_decimal(&self, fd: i32, n: u64) -> bool {
        let mut text = [0u8; 20];
        let k = io::decimal(n, &mut text);
        self.write_all(fd, &text[..k])
    }

    pub fn say(&self, text: &[u8]) -> bool {
        self.write_all(STDOUT, text)
    }

    pub fn say_number(&self, n: usize) -> bool {
        self.print_decimal(STDOUT, n as u64)
    }

    // At most 20 spaces.
    fn spaces(&self, n: usize) -> bool {
        let blank = [b' '; 20];
        self.say(&blank[..n.min(20)])
    }

    // A number at the right end of so many columns.
    pub fn say_right(&self, n: usize, columns: usize) -> bool {
        let mut text = [0u8; 20];
        let k = io::decimal(n as u64, &mut text);
        if k < columns {
            self.spaces(columns - k);
        }
        self.say(&text[..k])
    }

    // `5Ah`
    pub fn say_byte(&self, x: u8) -> bool {
        let [high, low] = text::hex(x);
        self.say(&[high, low, b'h'])
    }

    // `01FEh`
    pub fn say_address(&self, a: usize) -> bool {
        let [first, second, third, fourth] = text::word(a);
        self.say(&[first, second, third, fourth, b'h'])
    }
}
