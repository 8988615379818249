// An array from an Intel HEX text, and as one.
ghost use Rattle.std.specs.Prelude.{◌≡◌};
ghost use Rattle.sapwoodle.specs.Hexes.{hex_reading, hex_writing};

// The array that a text names. `line` gets where the record stands that is refused, `records` how many data records there were and `named` how
// many bytes of the array they name.
pub fn sapwoodle_hex_read(
    part: u8,
    text: &[u8],
    array: &mut [u8],
    line: &mut usize,
    records: &mut usize,
    named: &mut usize,
) -> u8
    ensures answer { result ≡ (hex_reading part text.now array.old).number }
    ensures bytes { array.new ≡ (hex_reading part text.now array.old).array }
    ensures line { line.new ≡ (hex_reading part text.now array.old).line }
    ensures records { records.new ≡ (hex_reading part text.now array.old).records }
    ensures named { named.new ≡ (hex_reading part text.now array.old).named }
{
    let r = hexfile::read(part, text, array);
    *line = parts::verdict_place(r.verdict);
    *records = r.records;
    *named = r.named;
    parts::verdict_number(r.verdict)
}

// The array as text into a lent buffer; `written` gets the length of the text.
pub fn sapwoodle_hex_write(part: u8, array: &[u8], out: &mut [u8], written: &mut usize) -> u8
    ensures answer { result ≡ (hex_writing part array.now out.old).number }
    ensures bytes { out.new ≡ (hex_writing part array.now out.old).out }
    ensures written { written.new ≡ (hex_writing part array.now out.old).written }
{
    let w = hexfile::write(part, array, out);
    *written = w.length;
    parts::verdict_number(w.verdict)
}
