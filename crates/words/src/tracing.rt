// The words of the command `trace`: files, with its options before, between and behind them.
use crate::wrong::{Wrong, complain};
use crate::{after, dashed_at, is, is_input, trouble};
use help::Command;
use host::Host;

// What a word is.
#[derive(Clone, Copy, PartialEq, Eq)]
pub enum Role {
    File,
    Bytes,
    // The name of the option, and its file.
    Vcd,
    VcdFile,
    Wrong,
}

// What is asked for: how many files there are, and the words that name the last of them and the file that is drawn.
#[derive(Clone, Copy)]
pub struct Tracing {
    pub bytes: bool,
    pub vcd: Option<usize>,
    pub files: usize,
    pub last: usize,
    inputs: usize,
}

fn option_or_file(host: &Host, i: usize) -> Role {
    if is(host, i, b"--bytes") {
        return Role::Bytes;
    }
    if is(host, i, b"--vcd") {
        return Role::Vcd;
    }
    if dashed_at(host, i) {
        return Role::Wrong;
    }
    Role::File
}

// What word i is, behind a word that is `before`; no option's name stands before the first.
pub fn role_of(host: &Host, before: Role, i: usize) -> Role {
    match before {
        Role::Vcd => Role::VcdFile,
        _ => option_or_file(host, i),
    }
}

fn file(host: &Host, t: Tracing, i: usize) -> Tracing {
    let inputs = if is_input(host, i) {
        after(t.inputs)
    } else {
        t.inputs
    };
    Tracing {
        files: after(t.files),
        last: i,
        inputs,
        ..t
    }
}

// One file is drawn.
fn seen(host: &Host, t: Tracing, role: Role, i: usize) -> Option<Tracing> {
    match role {
        Role::File => Some(file(host, t, i)),
        Role::Bytes => Some(Tracing { bytes: true, ..t }),
        Role::Vcd if t.vcd.is_none() => Some(t),
        Role::VcdFile => Some(Tracing { vcd: Some(i), ..t }),
        Role::Vcd | Role::Wrong => {
            complain(host, Command::Trace, i, Wrong::TooMany);
            None
        }
    }
}

fn look(host: &Host, first: usize, end: usize) -> Option<Tracing> {
    let mut t = Tracing {
        bytes: false,
        vcd: None,
        files: 0,
        last: 0,
        inputs: 0,
    };
    let mut role = Role::Bytes;
    for i in first..end {
        role = role_of(host, role, i);
        t = seen(host, t, role, i)?;
    }
    if role == Role::Vcd {
        complain(host, Command::Trace, end, Wrong::Missing);
        return None;
    }
    Some(t)
}

// The words go from `next` to before `end`; none where one was wrong, and that was said. Standard input is read once, and one trace is drawn.
pub fn asked(host: &Host, first: usize, end: usize) -> Option<Tracing> {
    let t = look(host, first, end)?;
    if 1 < t.inputs {
        trouble(host, b"only one FILE can be standard input\n");
        return None;
    }
    if t.vcd.is_some() && 1 < t.files {
        trouble(host, b"--vcd draws one trace: there are more\n");
        return None;
    }
    Some(t)
}
