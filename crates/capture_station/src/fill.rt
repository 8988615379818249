// The samples of a file, each kept once with how many there were: repeated samples make no event (RepeatsLeftOut of the crate
// capture_promises). A run of more than 65,535 takes several entries, which are repeated samples again.

use host::Host;

// Where reading stopped.
#[derive(Clone, Copy)]
pub enum Halt {
    Full,
    Ended,
    Failed,
}

// Which bits of a byte are clock and data, where not the two lowest.
#[derive(Clone, Copy)]
pub struct Bits {
    pub scl: u8,
    pub sda: u8,
}

// The entries that are filled, and the number of the first one's first sample.
#[derive(Drop)]
pub struct Entries<'a> {
    samples: &'a mut [u8],
    counts: &'a mut [u16],
    n: usize,
    first: usize,
}

// How far a file is read: the bytes of the chunk from `at` to before `got` are not looked at yet; `all` bytes were taken out of chunks; `text`:
// the file begins with a line of text.
#[derive(Drop)]
pub struct Source<'a> {
    fd: i32,
    bits: Option<Bits>,
    chunk: &'a mut [u8],
    at: usize,
    got: usize,
    all: usize,
    text: bool,
    pub entries: Entries<'a>,
}

// ---- one sample

fn high(b: u8, bit: u8) -> bool {
    (b >> (bit % 8)) % 2 == 1
}

impl Bits {
    fn sample(self, b: u8) -> u8 {
        2 * parts::flag(high(b, self.sda)) + parts::flag(high(b, self.scl))
    }
}

fn picked(bits: Option<Bits>, b: u8) -> u8 {
    match bits {
        Some(bits) => bits.sample(b),
        None => b,
    }
}

// ---- the entries

impl<'a> Entries<'a> {
    pub fn new(samples: &'a mut [u8], counts: &'a mut [u16]) -> Entries<'a> {
        Entries {
            samples,
            counts,
            n: 0,
            first: 0,
        }
    }
}

impl Entries<'_> {
    // Of n samples alike, as many more of the last entry as there is room for in its count, if it is of the same sample: how many.
    fn repeats(&mut self, s: u8, n: usize) -> usize {
        let Some(last) = self.n.checked_sub(1) else {
            return 0;
        };
        if parts::byte_at(self.samples, last) != s {
            return 0;
        }
        match self.counts.get_mut(last) {
            Some(k) => {
                let room = u16::MAX - *k;
                let more = u16::try_from(n).map_or(room, |n| n.min(room));
                *k = k.saturating_add(more);
                usize::from(more)
            }
            None => 0,
        }
    }

    // A new entry of n samples alike, where there is room for one, as many as its count can be: how many.
    fn adds(&mut self, s: u8, n: usize) -> usize {
        let at = self.n;
        if at < self.samples.len() && at < self.counts.len() {
            let k = u16::try_from(n).unwrap_or(u16::MAX);
            self.samples[at] = s;
            self.counts[at] = k;
            self.n = at + 1;
            return usize::from(k);
        }
        0
    }

    // Of n samples alike, as many as go into one entry; none where there is no room: how many.
    fn put(&mut self, s: u8, n: usize) -> usize {
        match self.repeats(s, n) {
            0 => self.adds(s, n),
            k => k,
        }
    }

    pub fn len(&self) -> usize {
        self.n
    }

    pub fn all(&self) -> &[u8] {
        self.up_to(self.n)
    }

    // The first n samples.
    pub fn up_to(&self, n: usize) -> &[u8] {
        &self.samples[..n.min(self.samples.len())]
    }

    // How many samples of the file came before entry k.
    pub fn place(&self, k: usize) -> usize {
        self.counts
            .iter()
            .take(k)
            .fold(self.first, |sum, n| sum.wrapping_add(usize::from(*n)))
    }

    // The entry that makes the last Stop.
    pub fn last_stop(&self) -> Option<usize> {
        (0..self.n).rev().find(|k| is_stop(self.samples, *k))
    }

    // The entries from k on are the first ones now: a piece begins with the sample that ended the one before.
    pub fn keep_from(&mut self, k: usize) {
        self.first = self.place(k);
        let n = self.n.min(self.samples.len()).min(self.counts.len());
        let from = k.min(n);
        self.samples.copy_within(from..n, 0);
        self.counts.copy_within(from..n, 0);
        self.n = n - from;
    }
}

// ---- a file

// The line that sigrok-cli writes before samples of a known rate.
fn is_text(bytes: &[u8]) -> bool {
    bytes.starts_with(b"META")
}

impl<'a> Source<'a> {
    pub fn new(bits: Option<Bits>, chunk: &'a mut [u8], entries: Entries<'a>) -> Source<'a> {
        Source {
            fd: -1,
            bits,
            chunk,
            at: 0,
            got: 0,
            all: 0,
            text: false,
            entries,
        }
    }
}

impl Source<'_> {
    // A file is read from where it stands.
    pub fn begin(&mut self, fd: i32) {
        self.fd = fd;
        self.at = 0;
        self.got = 0;
        self.all = 0;
        self.text = false;
        self.entries.n = 0;
        self.entries.first = 0;
    }

    pub fn fd(&self) -> i32 {
        self.fd
    }

    // How many samples were read.
    pub fn all(&self) -> usize {
        self.all
    }

    pub fn is_text(&self) -> bool {
        self.text
    }

    // The next chunk.
    fn read(&mut self, host: &Host) -> Option<Halt> {
        let Some(k) = host.read(self.fd, self.chunk) else {
            return Some(Halt::Failed);
        };
        if k == 0 {
            return Some(Halt::Ended);
        }
        self.at = 0;
        self.got = k;
        self.text = self.text || (self.all == 0 && is_text(&self.chunk[..k]));
        None
    }

    // How many bytes of the chunk, from the one at `at` on, give this sample; other bits may change.
    fn alike(&self, s: u8) -> usize {
        let (bits, at, got) = (self.bits, self.at, self.got);
        match self.chunk.get(at..got) {
            Some(rest) => rest.iter().take_while(|b| picked(bits, **b) == s).count(),
            None => 0,
        }
    }

    // As many of the chunk's bytes as there is room for, those of samples alike at once: most samples repeat the one before.
    fn pack(&mut self) -> Option<Halt> {
        for _ in self.at..self.got {
            let (bits, at) = (self.bits, self.at);
            let b = parts::byte_at(self.chunk, at);
            let s = picked(bits, b);
            let n = self.alike(s);
            if n == 0 {
                return None;
            }
            let taken = self.entries.put(s, n);
            if taken == 0 {
                return Some(Halt::Full);
            }
            self.at = at.saturating_add(taken);
            self.all = self.all.wrapping_add(taken);
        }
        None
    }

    // The rest of the chunk, or the next one.
    fn step(&mut self, host: &Host) -> Option<Halt> {
        if self.at < self.got {
            return self.pack();
        }
        self.read(host)
    }

    // Until the buffer is full or the file ends. Nothing says that a file ends, and a proved loop has to: so the turns are counted, up to a number
    // that no run uses up.
    pub fn fill(&mut self, host: &Host) -> Option<Halt> {
        for _ in 0..u64::MAX {
            let halt = self.step(host);
            if halt.is_some() {
                return halt;
            }
        }
        None
    }
}

// ---- the cut behind a Stop

fn is_stop(samples: &[u8], k: usize) -> bool {
    0 < k && k < samples.len() && samples[k - 1] == 1 && samples[k] == 3
}

// Whether an entry makes a Stop, or is the last.
pub fn ends_piece(samples: &[u8], k: usize) -> bool {
    is_stop(samples, k) || samples.len() <= k.saturating_add(1)
}
