// What a file holds. Each function is told whether the lines before it were written, and says so of its own.
use crate::source::Stored;
use host::Host;
use image_station::show;
use words::answer::{say, spans};
use words::form::Form;

// ---- the first line

fn formed(host: &Host, name: &[u8], part: u8) -> bool {
    say(
        host,
        show::part_named(host, say(host, true, name), part, b" "),
        b"\n",
    )
}

// An image has more to tell than its form.
fn head(host: &Host, word: usize, part: u8, bytes: &[u8], chip: Stored<'_>) -> bool {
    match files::form_in(host, word, part, bytes) {
        Form::Hex => formed(host, b"Intel HEX, ", part),
        Form::Raw => formed(host, b"raw bytes, ", part),
        Form::Epr => show::info(host, bytes, chip.worst, chip.counts),
    }
}

// ---- where something is stored

// Of a memory, behind its name.
fn stored(host: &Host, ok: bool, name: &[u8], memory: &[u8]) -> bool {
    let blank = [255u8; 32768];
    let told = spans(host, say(host, ok, name), &blank, memory);
    say(host, told, b"\n")
}

pub(crate) fn tell(host: &Host, word: usize, part: u8, bytes: &[u8], chip: Stored<'_>) -> bool {
    let first = head(host, word, part, bytes, chip);
    let told = stored(host, first, b"not FFh: ", chip.array);
    if parts::facts_of(part).ident {
        stored(host, told, b"identification page, not FFh: ", chip.id)
    } else {
        told
    }
}
