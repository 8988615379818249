// A text read line by line into cells, which are one number for each byte of the array: 256 while no record has named it.
ghost use Rattle.std.specs.Prelude.{◌≡◌, ◌+◌, ◌*◌, ◌^◌, ◌≤◌, ◌<◌, ◌==◌, [], ltb, length, get_or, position, OnOk};
ghost use Rattle.text.specs.Digits.{value_of};
ghost use Rattle.hexfile.specs.Record.{pair_of, values_of, record_of_lem};
ghost use Rattle.hexfile.specs.File.{lines_of, read_at, entered_of, blank_of, filled_of, named_of};
ghost use Rattle.hexfile.specs.Steps.{found_of, taken_of, is_taken, IsByte, IsHead, Entered, data_found_of, row_found_of, ends_of, LineEnd, bare_of, next_of, Turned, scan_of, judged_of};

use parts::Refusal;

// What a line that is read does: its bytes are in the cells now, or the file ends with it.
#[derive(Clone, Copy)]
pub(crate) enum Kind {
    Data,
    End,
}

// Why a line is refused.
#[derive(Clone, Copy)]
pub(crate) enum Fault {
    Malformed,
    WrongSum,
    // Its bytes overlap others, or lie beyond the array.
    Lapping,
}

// The first four bytes of a record, and their sum.
#[derive(Clone, Copy)]
struct Head {
    count: usize,
    place: usize,
    kind: u8,
    sum: usize,
}

// The bytes of a row of digits: whether the cells they went to were free, and their sum.
#[derive(Clone, Copy)]
struct Row {
    free: bool,
    sum: usize,
}

// What a line is, and the place behind it.
#[derive(Clone, Copy)]
struct Line {
    found: Result<Kind, Fault>,
    next: usize,
}

// ---- a record

// Without a branch, as `digit`: not `is_ascii_hexdigit` nor a range.
fn is_digit(b: u8) -> bool
    ensures { result ≡ ltb (value_of b) 16 }
{
    ((47 < b) & (b < 58)) | ((64 < b) & (b < 71)) | ((96 < b) & (b < 103))
}

// The value of a byte that is a digit: its low four bits, and 9 more of a letter. There is no branch: which of the two it is, no processor
// foresees.
fn digit(b: u8) -> u8
    ensures value { value_of b < 16 → result ≡ value_of b }
    ensures range { result ≤ 42 }
{
    b % 16 + 9 * (b / 64)
}

// Two digits as a byte.
fn pair(a: u8, b: u8) -> Result<u8, Fault>
    ensures { IsByte (pair_of a b) result }
{
    if is_digit(a) & is_digit(b) {
        Ok(16 * digit(a) + digit(b))
    } else {
        Err(Fault::Malformed)
    }
}

// The digits are judged, added up and entered in one go: of a refused record the cells are never looked at again.
fn enter(digits: &[u8], cells: &mut [u16]) -> Result<Row, Fault>
    requires { (length digits.now ≡ 2 * length cells.old) × (length cells.old ≤ 256) }
    ensures { Entered digits.now cells.old cells.new result }
{
    let mut free = true;
    let mut sum: usize = 0;
    for (i, cell) in cells.iter_mut().enumerate() {
        let v = pair(digits[2 * i], digits[2 * i + 1])?;
        free = free & (255 < *cell);
        *cell = v as u16;
        sum += v as usize;
    }
    Ok(Row { free, sum })
}

fn row_found(row: Row, sum: usize, inside: bool) -> Result<Kind, Fault>
    requires { (sum ≤ 4096) × (row.sum ≤ 65536) }
    ensures { result ≡ row_found_of row sum inside }
{
    if (sum + row.sum) % 256 != 0 {
        return Err(Fault::WrongSum);
    }
    if inside & row.free {
        Ok(Kind::Data)
    } else {
        Err(Fault::Lapping)
    }
}

// Into cells that lie apart: of a record beyond the array only its digits and its sum are judged, since 16 and 17 go before 18.
fn beyond(digits: &[u8], n: usize, sum: usize, spare: &mut [u16]) -> Result<Kind, Fault>
    requires { (length digits.now ≡ 2 * n) × (n ≤ 255) × (sum ≤ 4096) × (length spare.old ≡ 256) }
    ensures { result ≡ data_found_of [] 1 sum (values_of digits.now) }
{
    let row = enter(digits, &mut spare[..n])?;
    row_found(row, sum, false)
}

// The data bytes of a record at a place, whose other bytes add up to `sum`.
fn take_data(
    digits: &[u8],
    n: usize,
    place: usize,
    sum: usize,
    cells: &mut [u16],
) -> Result<Kind, Fault>
    requires { (length digits.now ≡ 2 * n) × (n ≤ 255) × (place ≤ 65535) × (sum ≤ 4096) }
    ensures found { result ≡ data_found_of cells.old place sum (values_of digits.now) }
    ensures cells { OnOk result (cells.new ≡ entered_of cells.old place (values_of digits.now)) }
{
    let end = place + n;
    if end <= cells.len() {
        let row = enter(digits, &mut cells[place..end])?;
        return row_found(row, sum, true);
    }
    let mut spare = [256; 256];
    beyond(digits, n, sum, &mut spare)
}

fn head_in(line: &[u8]) -> Result<Head, Fault>
    requires { 9 ≤ length line.now }
    ensures { IsHead line.now result }
{
    let count = pair(line[1], line[2])?;
    let high = pair(line[3], line[4])?;
    let low = pair(line[5], line[6])?;
    let kind = pair(line[7], line[8])?;
    Ok(Head {
        count: count as usize,
        place: 256 * (high as usize) + low as usize,
        kind,
        sum: count as usize + high as usize + low as usize + kind as usize,
    })
}

// `:00000001FF` and no other record of type 01.
fn ends(h: Head, check: u8) -> bool
    ensures { result ≡ ends_of h check }
{
    (h.count == 0) & (h.place == 0) & (h.kind == 1) & (check == 255)
}

// A line that begins with ':' and has at least the digits of five bytes.
fn take_digits(line: &[u8], cells: &mut [u16]) -> Result<Kind, Fault>
    requires { (11 ≤ length line.now) × (get_or line.now 0 0 ≡ 58) }
    ensures found { result ≡ found_of cells.old (record_of_lem line.now) }
    ensures cells { OnOk result (cells.new ≡ taken_of cells.old (record_of_lem line.now)) }
{
    let h = head_in(line)?;
    let end = 2 * h.count + 9;
    if line.len() != end + 2 {
        return Err(Fault::Malformed);
    }
    let check = pair(line[end], line[end + 1])?;
    if h.kind == 0 {
        take_data(
            &line[9..end],
            h.count,
            h.place,
            h.sum + check as usize,
            cells,
        )
    } else if ends(h, check) {
        Ok(Kind::End)
    } else {
        Err(Fault::Malformed)
    }
}

fn take_line(line: &[u8], cells: &mut [u16]) -> Result<Kind, Fault>
    ensures found { result ≡ found_of cells.old (record_of_lem line.now) }
    ensures cells { OnOk result (cells.new ≡ taken_of cells.old (record_of_lem line.now)) }
{
    if 10 < line.len() && line[0] == b':' {
        take_digits(line, cells)
    } else {
        Err(Fault::Malformed)
    }
}

// ---- lines

fn line_feed(bytes: &[u8]) -> Option<usize>
    ensures { result ≡ position (λ b. b == 10) bytes.now }
{
    bytes.iter().position(|b| *b == b'\n')
}

// Where the line ends that begins at a place: at its LF, or at the end of the text.
fn line_end(text: &[u8], at: usize) -> usize
    requires { at ≤ length text.now }
    ensures { LineEnd text.now at result }
{
    match line_feed(&text[at..]) {
        Some(k) => at + k,
        None => text.len(),
    }
}

// A CR directly before its LF is no part of the line.
fn bare(text: &[u8], at: usize, e: usize) -> usize
    requires { (at ≤ e) × (e ≤ length text.now) }
    ensures value { result ≡ bare_of text.now at e }
    ensures range { (at ≤ result) × (result ≤ e) }
{
    if e < text.len() && at < e && text[e - 1] == b'\r' {
        e - 1
    } else {
        e
    }
}

// The place behind a line's end.
fn behind(n: usize, e: usize) -> usize
    requires { e ≤ n }
    ensures { result ≡ next_of n e }
{
    if e < n { e + 1 } else { e }
}

// The line that begins at a place, and the place behind it.
fn next_line(text: &[u8], at: usize, cells: &mut [u16]) -> Line
    requires { at < length text.now }
    ensures { Turned text.now at cells.old cells.new result }
{
    let e = line_end(text, at);
    let stop = bare(text, at, e);
    let found = take_line(&text[at..stop], cells);
    let next = behind(text.len(), e);
    Line { found, next }
}

// ---- the text

fn is_taken(found: Result<Kind, Fault>) -> bool
    ensures { result ≡ is_taken found }
{
    matches!(found, Ok(Kind::Data))
}

// What a line that holds no data answers, behind k others: how many of these there were, or the refusal.
fn judged(found: Result<Kind, Fault>, k: usize, more: bool) -> Result<usize, Refusal>
    requires { k + 2 < 2 ^ 64 }
    ensures { result ≡ judged_of found k more }
{
    match found {
        Err(Fault::Malformed) => Err(Refusal::BadRecord(k + 1)),
        Err(Fault::WrongSum) => Err(Refusal::BadSum(k + 1)),
        Err(Fault::Lapping) => Err(Refusal::Misplaced(k + 1)),
        Ok(Kind::End) if more => Err(Refusal::NoEnd(k + 2)),
        Ok(_) => Ok(k),
    }
}

// How many data records there are. Lines are of different lengths, so the place of the next is known only behind one.
pub(crate) fn scan_text(text: &[u8], cells: &mut [u16]) -> Result<usize, Refusal>
    ensures { scan_of result cells.new ≡ read_at cells.old 0 (lines_of text.now) }
{
    let mut at = 0;
    let mut k = 0;
    while at < text.len() {
        let line = next_line(text, at, cells);
        if !is_taken(line.found) {
            return judged(line.found, k, line.next < text.len());
        }
        at = line.next;
        k += 1;
    }
    Err(Refusal::NoEnd(k + 1))
}

// How many bytes of the array are named.
pub(crate) fn named(cells: &[u16]) -> usize
    ensures { result ≡ named_of cells.now }
{
    cells.iter().filter(|v| **v < 256).count()
}

fn blank(v: u16) -> u8
    ensures { result ≡ blank_of v }
{
    if v < 256 { v as u8 } else { 255 }
}

// The array that the cells give.
pub(crate) fn fill(cells: &[u16], array: &mut [u8])
    requires { length cells.now ≡ length array.old }
    ensures { array.new ≡ filled_of cells.now }
{
    for (i, byte) in array.iter_mut().enumerate() {
        *byte = blank(cells[i]);
    }
}
