// An array as the text of an Intel HEX file: rows of 16 bytes, then the end record.
ghost use Rattle.std.specs.Prelude.{◌≡◌, ◌+◌, ◌*◌, ◌/◌, ◌≤◌, ◌<◌, length, drop, ◌++◌};
ghost use Rattle.std.proofs.lemmas.List.Edits.{sets};
ghost use Rattle.text.specs.Digits.{hex_of};
ghost use Rattle.hexfile.specs.Record.{sum_of, end_bytes};
ghost use Rattle.hexfile.specs.Steps.{capitals};
ghost use Rattle.hexfile.specs.Written.{digits_of, check_of, line_of, row_of, rows_of, text_of, text_length_of};

// Bytes of a row, and of its line with the line's end.
const ROW: usize = 16;

const LINE: usize = 44;

// The digits of a byte at a place, from the table of all digits. `put_text` makes the table once and lends it down to here: a table made here would
// be stored anew for each byte.
fn put(out: &mut [u8], at: usize, x: u8, digits: &[u8; 16])
    requires { (at + 1 < length out.old) × (digits.now ≡ capitals) }
    ensures { out.new ≡ sets out.old at (hex_of x) }
{
    let n = x as usize;
    out[at] = digits[n / 16];
    out[at + 1] = digits[n % 16];
}

// The digits of some bytes, and their sum.
fn put_bytes(out: &mut [u8], bytes: &[u8], digits: &[u8; 16]) -> usize
    requires { (length out.old ≡ 2 * length bytes.now) × (length bytes.now ≤ 16) × (digits.now ≡ capitals) }
    ensures sum { result ≡ sum_of bytes.now }
    ensures most { result ≤ 4080 }
    ensures digits { out.new ≡ digits_of bytes.now }
{
    let mut sum: usize = 0;
    for (i, x) in bytes.iter().enumerate() {
        put(out, 2 * i, *x, digits);
        sum += *x as usize;
    }
    sum
}

// The byte that makes a sum 0 modulo 256.
fn check_byte(sum: usize) -> u8
    ensures { result ≡ check_of sum }
{
    ((256 - sum % 256) % 256) as u8
}

// A data record at an address.
fn put_row(out: &mut [u8], at: usize, bytes: &[u8], digits: &[u8; 16])
    requires { (length out.old ≡ 44) × (length bytes.now ≡ 16) × (at < 65536) × (digits.now ≡ capitals) }
    ensures { out.new ≡ row_of at bytes.now }
{
    let first = [16, (at / 256) as u8, (at % 256) as u8, 0];
    out[0] = b':';
    let head = put_bytes(&mut out[1..9], &first, digits);
    let sum = put_bytes(&mut out[9..41], bytes, digits);
    let last = [check_byte(head + sum)];
    put_bytes(&mut out[41..43], &last, digits);
    out[43] = b'\n';
}

fn put_end(out: &mut [u8], digits: &[u8; 16])
    requires { (length out.old ≡ 12) × (digits.now ≡ capitals) }
    ensures { out.new ≡ line_of end_bytes }
{
    let bytes = [0, 0, 0, 1, 255];
    out[0] = b':';
    put_bytes(&mut out[1..11], &bytes, digits);
    out[11] = b'\n';
}

// So many rows of an array.
fn put_rows(rows: usize, array: &[u8], out: &mut [u8], digits: &[u8; 16])
    requires { (rows ≤ 4096) × (rows * 16 ≤ length array.now) × (rows * 44 ≤ length out.old) × (digits.now ≡ capitals) }
    ensures { out.new ≡ rows_of rows 0 array.now ++ drop (rows * 44) out.old }
{
    for i in 0..rows {
        let at = i * ROW;
        let to = i * LINE;
        put_row(&mut out[to..to + LINE], at, &array[at..at + ROW], digits);
    }
}

pub(crate) fn put_text(array: &[u8], out: &mut [u8]) -> usize
    requires { (length array.now ≤ 65536) × (text_length_of (length array.now) ≤ length out.old) }
    ensures length { result ≡ text_length_of (length array.now) }
    ensures text { out.new
        ≡ text_of (length array.now) array.now ++ drop (text_length_of (length array.now)) out.old }
{
    let digits = *b"0123456789ABCDEF";
    let rows = array.len() / ROW;
    let end = rows * LINE;
    put_rows(rows, array, out, &digits);
    put_end(&mut out[end..end + 12], &digits);
    end + 12
}
