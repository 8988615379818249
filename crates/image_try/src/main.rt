// Tries calls of `image_worn`, and the reader of version 1 on images of either version, one for each line of the input, and prints what each answers
// and a number for all that it was lent to write into. A line is a letter for the call (`call`), sixteen numbers and, after a colon, what is tried;
// behind a slash the counts that stand before the call.
#![tactic(auto)]

use cases::told::tell;
use cases::{Lent, counts, ended, fill, first, halves, label, mixed, numbers, set};
use host::{Host, STDIN};
use image::{Loaded, Saved};
use state::Chip;
use text::{narrow, wide};
use wear::Most;

// The numbers of a line.
#[derive(Clone, Copy)]
struct Case {
    part: u8,
    // Of a save, which has none: the part whose chip is taken, as after reset.
    enable: u8,
    // Bytes lent of the array and the identification buffer, counts lent, bytes lent of the output and of the image.
    array: usize,
    id: usize,
    counts: usize,
    room: usize,
    length: usize,
    // Of the image.
    version: u8,
    lock: u8,
    // The first byte of the array that is saved, or of the image; each byte of an image from a place on is the same.
    seed: u8,
    from: usize,
    with: u8,
    // Two bytes of the image, or of the packed state that is saved, that are set at last, if they lie in it.
    first: usize,
    one: u8,
    second: usize,
    other: u8,
}

// One more than any part has, and so more than any image takes.
const GROUPS: usize = 8193;

const LARGE: usize = 65613;

fn case_of(v: [usize; 16]) -> Case {
    let [part, enable, array, id, counts, room, length, version, ..] = v;
    let [.., lock, seed, from, with, first, one, second, other] = v;
    Case {
        part: narrow(part),
        enable: narrow(enable),
        array,
        id,
        counts,
        room,
        length,
        version: narrow(version),
        lock: narrow(lock),
        seed: narrow(seed),
        from,
        with: narrow(with),
        first,
        one: narrow(one),
        second,
        other: narrow(other),
    }
}

// ---- what is lent

impl Case {
    fn change(self, s: &mut [u8]) {
        set(s, self.first, self.one);
        set(s, self.second, self.other);
    }

    fn chip(self) -> Chip {
        let mut held = [0u8; 137];
        pack_chip::pack(chip::standby(self.enable, self.lock == 1), &mut held);
        self.change(&mut held);
        pack_chip::unpack(&held)
    }

    fn image(self) -> [u8; LARGE] {
        let mut image = [self.with; LARGE];
        fill(fitted::first(&mut image, self.from), self.seed);
        parts::copy(&mut image, 0, b"EPR\0");
        set(&mut image, 4, self.version);
        set(&mut image, 5, self.part);
        set(&mut image, 6, self.lock);
        self.change(&mut image);
        image
    }
}

fn counts_of(typed: &[u8]) -> [u32; GROUPS] {
    let mut own = [0u32; GROUPS];
    counts::read(&mut own, typed);
    own
}

fn blank_image() -> [u8; LARGE] {
    let mut out = [0u8; LARGE];
    fill(&mut out, 50);
    out
}

// ---- what is printed

fn tell_saved(host: &Host, saved: Saved, out: &[u8]) {
    tell(
        host,
        b"verdict ",
        wide(parts::verdict_number(saved.verdict)),
    );
    tell(host, b", length ", saved.length);
    tell(host, b", out ", mixed(out));
}

// Of the chip all that its state has.
fn tell_loaded(host: &Host, loaded: Loaded) {
    let mut held = [0u8; 137];
    pack_chip::pack(loaded.chip, &mut held);
    tell(
        host,
        b"verdict ",
        wide(parts::verdict_number(loaded.verdict)),
    );
    tell(host, b", part ", wide(loaded.part));
    tell(host, b", lock ", wide(held[4]));
    tell(host, b", chip ", mixed(&held));
}

fn tell_worst(host: &Host, worst: Most) {
    tell(host, b"; worst ", worst.group);
    tell(host, b" with ", worst.count as usize);
}

// ---- saving

// What an image with counts holds.
#[derive(Clone, Copy)]
struct Stored<'a> {
    part: u8,
    chip: Chip,
    array: &'a [u8],
    id: &'a [u8],
    counts: &'a [u32],
}

fn tell_save_of(host: &Host, stored: Stored, room: usize) {
    let mut out = blank_image();
    let saved = image_worn::save_worn(
        stored.part,
        stored.chip,
        stored.array,
        stored.id,
        stored.counts,
        fitted::first(&mut out, room),
    );
    tell_saved(host, saved, &out);
}

fn tell_save(host: &Host, case: Case, typed: &[u8]) {
    let mut lent = Lent::filled();
    fill(&mut lent.array, case.seed);
    let own = counts_of(typed);
    let stored = Stored {
        part: case.part,
        chip: case.chip(),
        array: first(&lent.array, case.array),
        id: first(&lent.id, case.id),
        counts: first(&own, case.counts),
    };
    tell_save_of(host, stored, case.room);
}

// ---- loading

// By the reader of version 1 there is no worst.
fn load(
    old: bool,
    enable: u8,
    image: &[u8],
    array: &mut [u8],
    id: &mut [u8],
    own: &mut [u32],
) -> (Loaded, Option<Most>) {
    if old {
        return (image::load(image, enable, array, id), None);
    }
    let worn = image_worn::load_worn(image, enable, array, id, own);
    (worn.loaded, Some(worn.worst))
}

// What was loaded is saved again with its counts.
fn tell_load(host: &Host, case: Case, old: bool, typed: &[u8]) {
    let image = case.image();
    let mut lent = Lent::filled();
    let mut own = counts_of(typed);
    let (array, id) = lent.first(case.array, case.id);
    let counts = counts::first(&mut own, case.counts);
    let image = first(&image, case.length);
    let (loaded, worst) = load(old, case.enable, image, array, id, counts);
    tell_loaded(host, loaded);
    if let Some(worst) = worst {
        tell_worst(host, worst);
    }
    host.say(b"; again ");
    let stored = Stored {
        part: loaded.part,
        chip: loaded.chip,
        array,
        id,
        counts,
    };
    tell_save_of(host, stored, LARGE);
    tell(host, b"; array ", mixed(&lent.array));
    tell(host, b", id ", mixed(&lent.id));
    tell(host, b", counts ", mixed(&own));
}

// ---- converting

fn convert(back: bool, image: &[u8], out: &mut [u8]) -> Saved {
    if back {
        return image_worn::to_plain(image, out);
    }
    image_worn::to_worn(image, out)
}

// Into a buffer with room for any image.
fn tell_other_way(host: &Host, back: bool, image: &[u8]) {
    let mut out = blank_image();
    let saved = convert(back, image, &mut out);
    tell_saved(host, saved, &out);
}

// What is answered is converted again the other way; where the call is refused, that is no byte.
fn tell_convert(host: &Host, case: Case, back: bool) {
    let image = case.image();
    let mut out = blank_image();
    let saved = convert(
        back,
        first(&image, case.length),
        fitted::first(&mut out, case.room),
    );
    tell_saved(host, saved, &out);
    host.say(b"; other way ");
    tell_other_way(host, !back, first(&out, saved.length));
}

// ---- the lines

fn tell_lengths(host: &Host, part: u8) {
    tell(host, b"version 1 ", image::image_length(part));
    tell(host, b", version 2 ", image_worn::worn_length(part));
}

fn call(host: &Host, letter: u8, case: Case, typed: &[u8]) {
    match letter {
        b'n' => tell_lengths(host, case.part),
        b's' => tell_save(host, case, typed),
        b'l' => tell_load(host, case, false, typed),
        b'o' => tell_load(host, case, true, typed),
        b'w' => tell_convert(host, case, false),
        _ => tell_convert(host, case, true),
    }
}

fn one(host: &Host, line: &[u8]) {
    if let Some(letter) = line.first() {
        let (tried, typed) = halves(label(line), b'/');
        host.say(tried);
        host.say(b": ");
        call(host, *letter, case_of(numbers(line)), typed);
        host.say(b"\n");
    }
}

fn main(rt: HostRuntime) {
    let host = Host::new(rt);
    let mut buf = [0u8; 131072];
    let n = host.read_full(STDIN, &mut buf);
    for line in ended(&buf[..n], b'\n') {
        one(&host, line);
    }
}
