// A page of a chip, shown as the part of a lent buffer, uncopied (document 01, end of 'The driver').
#![tactic(auto)]

ghost use Rattle.std.specs.Prelude.{◌≡◌, ◌+◌, ◌<◌, ◌≤◌, length, take, drop};
ghost use Rattle.page.specs.Look.{outside_of, look_refusal_of, page_start_of, page_span_of, look_span_of, span_bytes, span_at, look_of, Room};

use parts::{ArrayAddress, Facts, Refusal, Verdict};

// "by an array address in it or as the identification page": a chip has one such page at most, so no location is asked for.
// (An enum and no Option: `Ident` is a place too, and none that is missing.)
#[derive(Clone, Copy)]
pub enum Place {
    Array(ArrayAddress),
    Ident,
}

// Refusal 7.
fn outside(f: Facts, place: Place) -> bool
    ensures { result ≡ outside_of f place }
{
    match place {
        Place::Array(a) => f.size <= a.0,
        Place::Ident => !f.ident,
    }
}

// Whether a look is refused, and why: it takes what `look` takes.
#[tactic(auto, unfolding(crate::specs::Look::look_refusal_of))]
pub fn look_refusal(part: u8, array: &[u8], id: &[u8], place: Place) -> Verdict
    ensures { result ≡ look_refusal_of part (length array.now) (length id.now) place }
{
    let f = parts::facts_of(part);
    parts::sooner(
        parts::lent_verdict(f, array.len(), id.len()),
        parts::claim(outside(f, place), Refusal::Beyond),
    )
}

// Where the page of p bytes that holds address a starts.
#[tactic(auto, unfolding(crate::specs::Look::page_start_of))]
fn page_start(p: usize, a: usize) -> usize
    requires { 0 < p }
    ensures { result ≡ page_start_of p a }
{
    a / p * p
}

fn array_page(s: &[u8], p: usize, a: usize) -> &[u8]
    requires { (0 < p) × (page_start_of p a + p ≤ length s.now) }
    ensures result_value { result.now ≡ take p (drop (page_start_of p a) s.now) }
    ensures uncopied { result.ref_ptr ≡ (s.entry.ref_ptr.0, page_start_of p a + s.entry.ref_ptr.1) }
{
    let from = page_start(p, a);
    &s[from..from + p]
}

// The page at a place that `look_refusal` does not refuse.
fn page<'a>(f: Facts, array: &'a [u8], id: &'a [u8], place: Place) -> &'a [u8]
    requires { Room f (length array.now) (length id.now) place }
    ensures result_value { result.now ≡ span_bytes (page_span_of f place) array.now id.now }
    ensures uncopied { result.ref_ptr ≡ span_at (page_span_of f place) array.entry.ref_ptr id.entry.ref_ptr }
{
    match place {
        Place::Array(a) => array_page(array, f.page, a.0),
        Place::Ident => id,
    }
}

// The page at a place, as a part of one of the lent buffers; an empty part where the look is refused.
#[tactic(auto, unfolding(crate::specs::Look::look_of, crate::specs::Look::look_span_of))]
pub fn look<'a>(part: u8, array: &'a [u8], id: &'a [u8], place: Place) -> &'a [u8]
    ensures result_value { result.now ≡ look_of part array.now id.now place }
    ensures uncopied { result.ref_ptr
        ≡ span_at (look_span_of part (length array.now) (length id.now) place) array.entry.ref_ptr id.entry.ref_ptr }
{
    match look_refusal(part, array, id, place) {
        Ok(()) => page(parts::facts_of(part), array, id, place),
        Err(_) => &array[..0],
    }
}
