// The command `trace`: typed traces of files or of standard input, each run from delivery, as levels or byte by byte, and drawn.
#![tactic(auto)]

use host::{Host, STDIN};
use parts::{Loss, Verdict};
use words::answer::say;
use words::tracing::{Role, Tracing};

// The longest trace, and one byte more.
const ROOM: usize = 32774;

// ---- the picture

fn answered_by(
    part: u8,
    enable: u8,
    array: &mut [u8],
    id: &mut [u8],
    events: &[u8],
    levels: &mut [u8],
) {
    let delivered = chip::deliver(part, array, id);
    chip::run(
        part,
        enable,
        Loss::Old,
        b"",
        delivered.chip,
        array,
        id,
        events,
        levels,
    );
}

// A run from delivery leaves the levels; the drawing begins at delivery again.
fn draw(host: &Host, word: usize, part: u8, enable: u8, letters: &[u8]) -> bool {
    let mut array_room = [0u8; 32768];
    let mut id_room = [0u8; 64];
    let mut event_room = [0u8; 32768];
    let mut level_room = [0u8; 32768];
    let mut held = [0u8; pack_chip::LENGTH];
    let array = fitted::array(part, &mut array_room);
    let id = fitted::id(part, &mut id_room);
    let events = fitted::first(&mut event_room, letters.len());
    let levels = fitted::first(&mut level_room, letters.len());
    files::traced::recode(letters, events);
    answered_by(part, enable, array, id, events, levels);
    let _ = files::delivered(part, &mut held, array, id);
    vcd::store(host, word, part, enable, &held, array, id, events, levels)
}

// Of a refused trace there is none.
fn drawn(host: &Host, asked: Tracing, text: &[u8]) -> bool {
    let Some(word) = asked.vcd else {
        return true;
    };
    let j = trace::judge(text);
    match j.verdict {
        Ok(()) => draw(host, word, j.part, j.enable, trace::letters(text)),
        Err(_) => true,
    }
}

// ---- the answer

// The trace told byte by byte, where that is asked for, then its answer; of a refused one only the answer. Every answer fits (AnswerFits of the
// crate trace).
fn answered(host: &Host, asked: Tracing, text: &[u8]) -> bool {
    let mut out = [0u8; 32800];
    let n = if asked.bytes {
        explain::explain(host, text, &mut out).length
    } else {
        trace::trace(text, &mut out).length
    };
    n <= out.len() && say(host, true, &out[..n])
}

// The picture stands before anything is told; why a trace is refused stands behind its answer. `name`: the file's, as it was typed; standard
// input has none.
fn told(host: &Host, asked: Tracing, name: Option<&[u8]>, text: &[u8]) -> bool {
    if !drawn(host, asked, text) {
        return false;
    }
    let told = answered(host, asked, text);
    match trace::judge(text).verdict {
        Ok(()) => told,
        Err(r) => {
            files::traced::tell(host, name.is_none(), name.unwrap_or(b""), text, r);
            told
        }
    }
}

// ---- files

// What there is no room for does not change the answer (ReadsNoFurther of the crate trace); reading it all the same spares the writer a broken
// pipe. Nothing says that an input ends, and a proved loop has to: so there are as many turns as no run uses up.
fn rest_read(host: &Host, fd: i32) -> bool {
    for _ in 0..u64::MAX {
        let mut chunk = io::buffer();
        match host.read(fd, &mut chunk) {
            None => return false,
            Some(0) => return true,
            Some(_) => {}
        }
    }
    false
}

fn run_input(host: &Host, asked: Tracing) -> bool {
    let mut text = [0u8; ROOM];
    let n = host.read_full(STDIN, &mut text);
    if !rest_read(host, STDIN) {
        words::failed(host, b"standard input");
        return false;
    }
    told(host, asked, None, &text[..n])
}

fn run_named(host: &Host, asked: Tracing, word: usize, name: &[u8]) -> bool {
    let mut room = [0u8; ROOM];
    match files::contents(host, word, &mut room) {
        Some(text) => told(host, asked, Some(name), text),
        None => false,
    }
}

// Of several files each is named before its answer.
fn headed(host: &Host, asked: Tracing, name: &[u8]) -> bool {
    if asked.files < 2 {
        return true;
    }
    let told = say(host, true, b"file ");
    say(host, say(host, told, name), b"\n")
}

fn run_file(host: &Host, asked: Tracing, word: usize) -> bool {
    let name = host.word(word);
    if !headed(host, asked, name.bytes()) {
        return false;
    }
    if words::is_input(host, word) {
        return run_input(host, asked);
    }
    run_named(host, asked, word, name.bytes())
}

// ---- the words, in their order

// A file that cannot be read is told, and the next one is run.
fn run_files(host: &Host, asked: Tracing, next: usize, end: usize) -> bool {
    let mut told = true;
    let mut role = Role::Bytes;
    for word in next..end {
        role = words::tracing::role_of(host, role, word);
        if matches!(role, Role::File) {
            told &= run_file(host, asked, word);
        }
    }
    told
}

// `trace [--bytes] [--vcd FILE] [FILE..]`; without a file, standard input. False where nothing, or not all, could be answered: standard error
// has the reason.
pub fn trace_command(host: &Host, next: usize, end: usize) -> bool {
    let Some(asked) = words::tracing::asked(host, next, end) else {
        return false;
    };
    if asked.files == 0 {
        return run_input(host, asked);
    }
    run_files(host, asked, next, end)
}
