// Stored chips: an image, an Intel HEX file or raw bytes that are read, and each of them written into a file that is there whole or not at
// all. A chip is held as its bytes.
#![tactic(auto)]

pub mod counts;
pub mod lost;
mod saved;
pub mod shape;
pub mod store;
pub mod tell;
pub mod traced;
mod why;

ghost use Rattle.std.specs.Prelude.{◌≡◌, length};

use hexfile::HexRead;
use host::{Host, STDIN};
use parts::{Loss, Refusal, Verdict};
use wear::Most;
use words::form::Form;
use words::{Job, form, status};

// A chip before its run: how it was judged, whether its file has the counts of its wear, and the worst of the counts.
#[derive(Clone, Copy)]
pub struct Ready {
    pub verdict: Verdict,
    pub worn: bool,
    pub worst: Most,
}

// The most bytes of a file that is read: a HEX file with a record a byte has half as many.
const MOST: usize = 1048576;

// ---- the bytes of a file

// Room for one byte more, so that a longer file is seen to be too long.
pub fn room() -> [u8; 1048577]
    ensures { 1048577 ≡ length result }
{
    [0; 1048577]
}

fn warn(host: &Host, what: &[u8]) {
    tell::say(host, what);
}

// Why a file that is read is of no use: nothing is answered.
pub fn complain(host: &Host, word: usize, what: &[u8]) {
    warn(host, b"sapwoodle: ");
    tell::name(host, word);
    warn(host, what);
    status::trouble(host);
}

pub fn unread(host: &Host, word: usize) {
    complain(host, word, b": cannot be read\n");
}

// The file of this name, opened; none where it cannot be, and standard error has the reason.
pub fn open_named(host: &Host, name: &[u8]) -> Option<i32> {
    let fd = host.open_read(name);
    if fd.is_none() {
        words::failed(host, name);
    }
    fd
}

// The file that a word names, opened; none where it cannot be, and standard error has the reason.
pub fn open(host: &Host, word: usize) -> Option<i32> {
    if words::is_input(host, word) {
        return Some(STDIN);
    }
    open_named(host, host.word(word).bytes())
}

pub fn close(host: &Host, word: usize, fd: i32) {
    if !words::is_input(host, word) {
        host.close(fd);
    }
}

// All that the file has which a word names, in a buffer that `room` made; of a longer one as much as there is room for. None where it cannot be
// read, and standard error has the reason.
pub fn contents<'a>(host: &Host, word: usize, to: &'a mut [u8]) -> Option<&'a [u8]> {
    let fd = open(host, word)?;
    let got = words::read_all(host, fd, to);
    if got.is_none() {
        unread(host, word);
    }
    close(host, word, fd);
    let n = got?;
    Some(&to[..n])
}

// ---- reading a HEX file

pub fn is_hex(bytes: &[u8]) -> bool {
    parts::byte_at(bytes, 0) == b':'
}

pub fn delivered(part: u8, held: &mut [u8], array: &mut [u8], id: &mut [u8]) -> Verdict {
    let d = chip::deliver(part, array, id);
    pack_chip::pack(d.chip, held);
    d.verdict
}

// A file that is too long is not looked at, and has no number; of a longer image the length is wrong.
pub fn too_long(host: &Host, word: usize, n: usize) -> bool {
    if n <= MOST {
        return false;
    }
    complain(
        host,
        word,
        b": got more than 1048576 bytes, wanted no more\n",
    );
    true
}

fn told(host: &Host, verdict: Verdict, word: usize, part: u8, text: &[u8]) {
    match verdict {
        Ok(()) => {}
        Err(r) => why::tell(host, word, part, text, r),
    }
}

// A chip as delivered with the array of a text.
fn hex_chip(
    host: &Host,
    word: usize,
    part: u8,
    text: &[u8],
    held: &mut [u8],
    array: &mut [u8],
    id: &mut [u8],
) -> HexRead {
    let _ = delivered(part, held, array, id);
    let read = hexfile::read(part, text, array);
    told(host, read.verdict, word, part, text);
    read
}

// The chip that the HEX file named by a word has; none where it cannot be read. Of one that is refused standard error has the reason too.
pub fn hex_fetched(
    host: &Host,
    word: usize,
    part: u8,
    held: &mut [u8],
    array: &mut [u8],
    id: &mut [u8],
) -> Option<HexRead> {
    let mut bytes = room();
    let text = contents(host, word, &mut bytes)?;
    if too_long(host, word, text.len()) {
        return None;
    }
    Some(hex_chip(host, word, part, text, held, array, id))
}

// ---- reading an image

// The worst of counts that are all 0.
fn unworn() -> Most {
    Most { group: 0, count: 0 }
}

// Whether the bytes say that counts stand behind the chip.
pub fn is_worn(bytes: &[u8]) -> bool {
    parts::byte_at(bytes, 4) == 2
}

fn is_refused(verdict: Verdict) -> bool {
    parts::verdict_number(verdict) != 0
}

// Of a file without counts.
fn unworn_chip(verdict: Verdict) -> Ready {
    Ready {
        verdict,
        worn: false,
        worst: unworn(),
    }
}

// Whether the bytes are a whole image of the part that they name, whatever part that is.
fn is_image(part: u8, bytes: &[u8]) -> bool {
    let mut array = [0u8; 32768];
    let mut id = [0u8; 64];
    let mut counts = [0u32; 8192];
    let l = image_worn::load_worn(
        bytes,
        0,
        fitted::array(part, &mut array),
        fitted::id(part, &mut id),
        fitted::counts(part, &mut counts),
    );
    !is_refused(l.loaded.verdict)
}

// An image of another part is not what was meant; anything else is no image.
fn other(host: &Host, word: usize, part: u8, bytes: &[u8]) -> Option<Ready> {
    let found = image::part_in(bytes);
    if is_image(found, bytes) {
        complain(host, word, b": got an image of part ");
        tell::number(host, text::wide(found));
        warn(host, b", wanted part ");
        tell::number(host, text::wide(part));
        warn(host, b"\n");
        return None;
    }
    Some(unworn_chip(Err(Refusal::BadImage)))
}

fn load(
    host: &Host,
    word: usize,
    part: u8,
    enable: u8,
    bytes: &[u8],
    held: &mut [u8],
    array: &mut [u8],
    id: &mut [u8],
    counts: &mut [u32],
) -> Option<Ready> {
    let l = image_worn::load_worn(bytes, enable, array, id, counts);
    let loaded = l.loaded;
    if loaded.part != part {
        return other(host, word, part, bytes);
    }
    pack_chip::pack(loaded.chip, held);
    Some(Ready {
        verdict: loaded.verdict,
        worn: is_worn(bytes),
        worst: l.worst,
    })
}

// An image: of one that is refused standard error has the reason.
fn image_chip(
    host: &Host,
    word: usize,
    part: u8,
    enable: u8,
    bytes: &[u8],
    held: &mut [u8],
    array: &mut [u8],
    id: &mut [u8],
    counts: &mut [u32],
) -> Option<Ready> {
    let ready = load(host, word, part, enable, bytes, held, array, id, counts)?;
    if is_refused(ready.verdict) {
        shape::tell(host, word, bytes);
        shape::or_raw(host, part, bytes);
        warn(host, b"\n");
    }
    Some(ready)
}

// A chip as delivered with these bytes as its array.
fn raw_chip(
    host: &Host,
    word: usize,
    part: u8,
    bytes: &[u8],
    held: &mut [u8],
    array: &mut [u8],
    id: &mut [u8],
) -> Verdict {
    let verdict = delivered(part, held, array, id);
    if bytes.len() == array.len() {
        parts::copy(array, 0, bytes);
        return verdict;
    }
    shape::tell_length(host, word, bytes.len(), array.len());
    Err(Refusal::BadImage)
}

// What a file is: its name may say it, else what stands in it does.
pub fn form_in(host: &Host, word: usize, part: u8, bytes: &[u8]) -> Form {
    if let Some(named) = form::of_word(host, word) {
        return named;
    }
    if is_hex(bytes) {
        return Form::Hex;
    }
    if bytes.len() == parts::facts_of(part).size {
        return Form::Raw;
    }
    Form::Epr
}

// The chip of a file's bytes, of any form; none where they are of no use, and standard error has the reason. What has no counts leaves those
// that are lent, which are zeros.
pub fn chip_in(
    host: &Host,
    word: usize,
    part: u8,
    enable: u8,
    bytes: &[u8],
    held: &mut [u8],
    array: &mut [u8],
    id: &mut [u8],
    counts: &mut [u32],
) -> Option<Ready> {
    match form_in(host, word, part, bytes) {
        Form::Hex => {
            if too_long(host, word, bytes.len()) {
                return None;
            }
            let read = hex_chip(host, word, part, bytes, held, array, id);
            Some(unworn_chip(read.verdict))
        }
        Form::Raw => {
            let verdict = raw_chip(host, word, part, bytes, held, array, id);
            Some(unworn_chip(verdict))
        }
        Form::Epr => image_chip(host, word, part, enable, bytes, held, array, id, counts),
    }
}

// The chip that the file named by a word has.
pub fn fetched(
    host: &Host,
    word: usize,
    part: u8,
    enable: u8,
    held: &mut [u8],
    array: &mut [u8],
    id: &mut [u8],
    counts: &mut [u32],
) -> Option<Ready> {
    let mut bytes = room();
    let got = contents(host, word, &mut bytes)?;
    chip_in(host, word, part, enable, got, held, array, id, counts)
}

// ---- the chip that a command asks for

// Refusals 1 and 2, which are given before a file is looked at.
pub fn judged(job: Job) -> Verdict {
    let f = parts::facts_of(job.part);
    let asked = parts::enable_right(f, job.enable);
    let own = parts::enable_right(f, job.own);
    let unknown = parts::claim(!f.known, Refusal::NoPart);
    parts::sooner(unknown, parts::claim(!(asked && own), Refusal::WrongEnable))
}

// As delivered, or from the image.
pub fn at_first(
    host: &Host,
    job: Job,
    held: &mut [u8],
    array: &mut [u8],
    id: &mut [u8],
    counts: &mut [u32],
) -> Option<Ready> {
    match job.image {
        Some(word) => fetched(host, word, job.part, job.own, held, array, id, counts),
        None => Some(unworn_chip(delivered(job.part, held, array, id))),
    }
}

fn pinned(
    part: u8,
    enable: u8,
    pin: u8,
    held: &mut [u8],
    array: &mut [u8],
    id: &mut [u8],
) -> Verdict {
    let s = chip::step(
        part,
        enable,
        Loss::Old,
        b"",
        pack_chip::unpack(held),
        array,
        id,
        pin,
    );
    pack_chip::pack(s.chip, held);
    s.verdict
}

// With its pin as it was asked for.
pub fn prepared(
    verdict: Verdict,
    job: Job,
    held: &mut [u8],
    array: &mut [u8],
    id: &mut [u8],
) -> Verdict {
    match verdict {
        Ok(()) => match job.pin {
            Some(pin) => pinned(job.part, job.own, pin, held, array, id),
            None => verdict,
        },
        Err(_) => verdict,
    }
}

// As much of `from` as there is room for, behind the first n bytes: where it ends.
pub fn extend(to: &mut [u8], n: usize, from: &[u8]) -> usize {
    let room = to.len().saturating_sub(n);
    parts::copy(to, n, from);
    n + from.len().min(room)
}

// ---- writing

// Whether counts are saved.
pub fn keeps(job: Job) -> bool {
    job.wear && job.save.is_some() && job.form == Form::Epr
}

// Whether the file stands that a job saves, in its form and without counts; or none is asked for.
pub fn save(host: &Host, job: Job, held: &[u8], array: &[u8], id: &[u8]) -> bool {
    match job.save {
        Some(word) => saved::formed(host, job, word, held, array, id),
        None => true,
    }
}

// The same, with the counts where the job keeps them.
pub fn save_kept(
    host: &Host,
    job: Job,
    held: &[u8],
    array: &[u8],
    id: &[u8],
    counts: &[u32],
) -> bool {
    match job.save {
        Some(word) if keeps(job) => saved::worn(host, word, job.part, held, array, id, counts),
        _ => save(host, job, held, array, id),
    }
}
