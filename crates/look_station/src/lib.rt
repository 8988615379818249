// The commands that look: a part's facts, what a file holds, its bytes, two files page by page, and the table of parts.
#![tactic(auto)]

mod compare;
mod dump;
mod facts;
mod holds;
mod source;
mod table;

use help::Command;
use host::Host;
use parts::Refusal;
use source::Stored;
use words::looking;
use words::looking::{Informing, Looking};

// ---- one file, of which either the bytes are shown or what it holds

fn look<F: FnOnce(u8, &[u8], Stored<'_>) -> bool>(
    host: &Host,
    l: Looking,
    bytes: &[u8],
    tell: F,
) -> bool
    requires { F.IsAlwaysCallable tell }
{
    match source::said(host, l.part, l.file, bytes) {
        Some(part) => source::load(host, l.file, part, bytes, |chip| tell(part, bytes, chip)),
        None => source::unsaid(host, l.file),
    }
}

// 1 is given before a file is looked at.
fn open<F: FnOnce(u8, &[u8], Stored<'_>) -> bool>(host: &Host, l: Looking, tell: F) -> bool
    requires { F.IsAlwaysCallable tell }
{
    if source::unknown(l.part) {
        return source::refuse(host, Refusal::NoPart);
    }
    source::read(host, l.file, |bytes| look(host, l, bytes, tell))
}

fn inform(host: &Host, asked: Informing) -> bool {
    match asked {
        Informing::File(l) => open(host, l, |part, bytes, chip| {
            holds::tell(host, l.file, part, bytes, chip)
        }),
        Informing::Part(part) if source::unknown(Some(part)) => {
            source::refuse(host, Refusal::NoPart)
        }
        Informing::Part(part) => facts::tell(host, part),
    }
}

// ---- the commands: `next` is the first word behind the command's, and the words end before `end`. False where nothing, or not all, could be
// answered: standard error has the reason.

pub fn info_command(host: &Host, next: usize, end: usize) -> bool {
    match looking::info_asked(host, next, end) {
        Some(asked) => inform(host, asked),
        None => false,
    }
}

pub fn dump_command(host: &Host, next: usize, end: usize) -> bool {
    match looking::dump_asked(host, next, end) {
        Some(l) => open(host, l, |part, _, chip| dump::tell(host, l, part, chip)),
        None => false,
    }
}

pub fn compare_command(host: &Host, next: usize, end: usize) -> bool {
    match looking::compare_asked(host, next, end) {
        Some(l) => compare::open(host, l),
        None => false,
    }
}

pub fn parts_command(host: &Host, next: usize, end: usize) -> bool {
    looking::nothing_asked(host, Command::Parts, next, end) && table::tell(host)
}
