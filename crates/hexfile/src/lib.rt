// Intel HEX: an array read from a text, and written as one. Nobody has to check first.
#![tactic(auto)]

mod reading;
mod writing;

ghost use Rattle.std.specs.Prelude.{◌≡◌, ◌≤◌, length};
ghost use Rattle.parts.specs.Table.{facts_of};
ghost use Rattle.hexfile.specs.File.{lines_of, read_at, read_of};
ghost use Rattle.hexfile.specs.Calls.{array_verdict_of, write_verdict_of, refused_hex, got_of, reading_of, writing_of};
ghost use Rattle.hexfile.specs.Written.{text_length_of};

use parts::{Refusal, Verdict};

// No Result: the clause `answer` of `read` says what a refused call hands back.
#[derive(Clone, Copy)]
pub struct HexRead {
    pub verdict: Verdict,
    // How many data records there were, and how many bytes of the array they name; 0 where the call is refused.
    pub records: usize,
    pub named: usize,
}

// No Result: the clause `answer` of `write` says what a refused call hands back.
#[derive(Clone, Copy)]
pub struct HexWritten {
    pub verdict: Verdict,
    // Bytes of the text; 0 where the call is refused.
    pub length: usize,
}

// Refusals 1 and 3, of the array alone.
fn array_verdict(part: u8, n: usize) -> Verdict
    ensures { result ≡ array_verdict_of (facts_of part) n }
{
    let f = parts::facts_of(part);
    parts::lent_verdict(f, n, parts::id_size(f))
}

// ---- reading

fn refused(r: Refusal) -> HexRead
    ensures { result ≡ refused_hex r }
{
    HexRead {
        verdict: Err(r),
        records: 0,
        named: 0,
    }
}

// Cells that no record has named yet, as many as the array has bytes. Nothing lent changes before the last record is judged.
fn read_into(text: &[u8], cells: &mut [u16], array: &mut [u8]) -> HexRead
    requires { length cells.old ≡ length array.old }
    ensures answer { result ≡ (got_of (read_at cells.old 0 (lines_of text.now)) array.old).answer }
    ensures bytes { array.new ≡ (got_of (read_at cells.old 0 (lines_of text.now)) array.old).array }
{
    match reading::scan_text(text, cells) {
        Ok(records) => {
            reading::fill(cells, array);
            HexRead {
                verdict: Ok(()),
                records,
                named: reading::named(cells),
            }
        }
        Err(r) => refused(r),
    }
}

fn read_fitted(text: &[u8], array: &mut [u8]) -> HexRead
    requires { length array.old ≤ 32768 }
    ensures answer { result ≡ (got_of (read_of (length array.old) text.now) array.old).answer }
    ensures bytes { array.new ≡ (got_of (read_of (length array.old) text.now) array.old).array }
{
    let n = array.len();
    let mut cells = [256; 32768];
    read_into(text, &mut cells[..n], array)
}

// The array that a text names. A refused call changes nothing.
pub fn read(part: u8, text: &[u8], array: &mut [u8]) -> HexRead
    ensures answer { result ≡ (reading_of part text.now array.old).answer }
    ensures bytes { array.new ≡ (reading_of part text.now array.old).array }
{
    match array_verdict(part, array.len()) {
        Ok(()) => read_fitted(text, array),
        Err(r) => refused(r),
    }
}

// ---- writing

fn text_length(part: u8) -> usize
    ensures { result ≡ text_length_of (facts_of part).size }
{
    parts::facts_of(part).size / 16 * 44 + 12
}

fn write_verdict(part: u8, n: usize, room: usize) -> Verdict
    ensures { result ≡ write_verdict_of (facts_of part) n room }
{
    let short = parts::claim(room < text_length(part), Refusal::ShortBuffer);
    parts::sooner(array_verdict(part, n), short)
}

// An array as text, records of 16 bytes. Bytes of `out` past it keep their values, and a refused call changes nothing.
pub fn write(part: u8, array: &[u8], out: &mut [u8]) -> HexWritten
    ensures answer { result ≡ (writing_of part array.now out.old).answer }
    ensures bytes { out.new ≡ (writing_of part array.now out.old).out }
{
    match write_verdict(part, array.len(), out.len()) {
        Ok(()) => HexWritten {
            verdict: Ok(()),
            length: writing::put_text(array, out),
        },
        Err(r) => HexWritten {
            verdict: Err(r),
            length: 0,
        },
    }
}
