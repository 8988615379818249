// Images: what `save` writes of a line's chip, and what `load` takes of such an image, cut or with a byte changed.
use crate::{Case, Tried, tell_tried};
use cases::told::tell;
use cases::{Lent, Pattern, fill, first, set};
use host::Host;
use image::Saved;
use parts::Verdict;
use state::Chip;
use text::wide;

// More than the longest image takes.
const LARGE: usize = 32840;

// ---- saving

// The buffers are lent as long as the line says.
fn save(case: Case, out: &mut [u8]) -> Saved {
    let mut lent = Lent::filled();
    let (array, id) = lent.first(case.array, case.id);
    image::save(case.part, pack_chip::unpack(&case.state()), array, id, out)
}

fn tell_head(host: &Host, s: &[u8]) {
    for x in s {
        host.say(b" ");
        host.say_byte(*x);
    }
}

// Its length and its first seven bytes.
fn tell_image(host: &Host, n: usize, out: &[u8]) {
    if 0 < n {
        tell(host, b", ", n);
        host.say(b" bytes,");
        tell_head(host, first(out, 7));
    }
}

// Whether the bytes behind the first n are as they were lent.
fn left(out: &[u8], n: usize) -> bool {
    out.iter()
        .zip(Pattern(50))
        .skip(n)
        .all(|(x, lent)| *x == lent)
}

pub fn tell_save(host: &Host, case: Case) {
    let mut out = [0u8; LARGE];
    fill(&mut out, 50);
    let saved = save(case, fitted::first(&mut out, case.room));
    let kept = left(&out, saved.length);
    tell_tried(
        host,
        Tried {
            verdict: saved.verdict,
            kept,
        },
    );
    tell_image(host, saved.length, &out);
    if !kept {
        host.say(b", MORE WRITTEN");
    }
}

// ---- loading

// The chip of the line, saved with buffers of its part's own lengths.
fn save_fitted(case: Case, out: &mut [u8]) {
    let f = parts::facts_of(case.part);
    save(
        Case {
            array: f.size,
            id: parts::id_size(f),
            ..case
        },
        out,
    );
}

// Whether what was loaded is saved as the same bytes.
fn again(part: u8, chip: Chip, array: &[u8], id: &[u8], bytes: &[u8]) -> bool {
    let mut out = [0u8; LARGE];
    let saved = image::save(part, chip, array, id, &mut out);
    first(&out, saved.length) == bytes
}

fn load(host: &Host, case: Case, bytes: &[u8]) {
    let mut lent = Lent::filled();
    let (array, id) = lent.first(case.array, case.id);
    let loaded = image::load(bytes, case.enable, array, id);
    match loaded.verdict {
        Ok(()) => {
            tell(host, b"fine, part ", wide(loaded.part));
            if again(loaded.part, loaded.chip, array, id, bytes) {
                host.say(b", saved again the same");
            } else {
                host.say(b", saved again OTHERWISE");
            }
        }
        Err(_) => tell_tried(
            host,
            Tried {
                verdict: loaded.verdict,
                kept: lent.is_filled(),
            },
        ),
    }
}

// The first bytes of the image, with one byte changed where the place lies in it.
pub fn tell_load(host: &Host, case: Case) {
    let mut out = [0u8; LARGE];
    fill(&mut out, 50);
    save_fitted(case, &mut out);
    set(&mut out, case.first, case.code);
    load(host, case, first(&out, case.events));
}
