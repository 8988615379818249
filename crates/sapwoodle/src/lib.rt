// The functions that a C program links: numbers and lent bytes only. include/sapwoodle.h says what each does.
// So numbers stand for kinds, results go into what is lent, and each call has a function of its own. What two of them have in common, a length
// that is stored or a report, is no more than a helper's own clauses would be.
#![tactic(auto)]

mod answers;
pub mod captures;
pub mod chips;
pub mod drivers;
pub mod hexes;
pub mod images;
pub mod runs;
pub mod wears;
pub mod worns;

ghost use Rattle.std.specs.Prelude.{◌≡◌};
ghost use Rattle.parts.specs.Table.{facts_of, id_size_of};
ghost use Rattle.parts.specs.Refusals.{verdict_number_of};
ghost use Rattle.pack_chip.specs.Layout.{chip_length};
ghost use Rattle.pack_driver.specs.Layout.{driver_length};
ghost use Rattle.trace.specs.Trace.{trace_of, laying_of};
ghost use Rattle.sapwoodle.specs.Lengths.{array_length_of};

// ---- lengths

pub fn sapwoodle_array_length(part: u8) -> usize
    ensures { result ≡ array_length_of (facts_of part) }
{
    let f = parts::facts_of(part);
    if f.known { f.size } else { 0 }
}

pub fn sapwoodle_id_length(part: u8) -> usize
    ensures { result ≡ id_size_of (facts_of part) }
{
    let f = parts::facts_of(part);
    parts::id_size(f)
}

pub fn sapwoodle_state_length() -> usize
    ensures { result ≡ chip_length }
{
    pack_chip::LENGTH
}

pub fn sapwoodle_driver_length() -> usize
    ensures { result ≡ driver_length }
{
    pack_driver::LENGTH
}

// ---- a trace

pub fn sapwoodle_trace(text: &[u8], out: &mut [u8], length: &mut usize) -> u8
    ensures answer { result ≡ verdict_number_of (laying_of out.old (trace_of text.now)).answer.verdict }
    ensures text { out.new ≡ (laying_of out.old (trace_of text.now)).out }
    ensures length { length.new ≡ (laying_of out.old (trace_of text.now)).answer.length }
{
    let t = trace::trace(text, out);
    *length = t.length;
    parts::verdict_number(t.verdict)
}
