// The commands by their words: what stands behind the program's name is run here, by the program and by the trying of commands.
#![tactic(auto)]

use help::Command;
use host::Host;
use words::{answer, looking};

fn unknown(host: &Host, word: &[u8]) -> bool {
    help::unknown_command(host, word);
    words::status::trouble(host);
    false
}

// ---- help

fn is_help(word: &[u8]) -> bool {
    matches!(word, b"-h" | b"--help")
}

fn list(host: &Host) -> bool {
    answer::written(host, help::list(host))
}

fn page(host: &Host, command: Command) -> bool {
    answer::written(host, help::page(host, command))
}

// `help`, or `help COMMAND`.
fn help_command(host: &Host, next: usize, end: usize) -> bool {
    if end <= next {
        return list(host);
    }
    let word = host.word(next);
    match Command::named(word.bytes()) {
        Some(command) => page(host, command),
        None => unknown(host, word.bytes()),
    }
}

fn version_command(host: &Host, next: usize, end: usize) -> bool {
    looking::nothing_asked(host, Command::Version, next, end)
        && answer::say(host, true, b"sapwoodle 0.16.0\n")
}

// ---- the commands

fn run(host: &Host, command: Command, next: usize, end: usize) -> bool {
    match command {
        Command::Trace => trace_station::trace_command(host, next, end),
        Command::Write => station::write_command(host, next, end),
        Command::Read => station::read_command(host, next, end),
        Command::Power => power_station::power_command(host, next, end),
        Command::Bench => tables::bench_command(host, next, end),
        Command::Capture => capture_station::capture_command(host, next, end),
        Command::Hex => hex_station::hex_command(host, next, end),
        Command::Image => image_station::image_command(host, next, end),
        Command::Wear => wear_station::wear_command(host, next, end),
        Command::Info => look_station::info_command(host, next, end),
        Command::Dump => look_station::dump_command(host, next, end),
        Command::Compare => look_station::compare_command(host, next, end),
        Command::Parts => look_station::parts_command(host, next, end),
        Command::Help => help_command(host, next, end),
        Command::Version => version_command(host, next, end),
    }
}

// Behind a command `-h` and `--help` ask for its page.
fn known(host: &Host, command: Command, next: usize, end: usize) -> bool {
    if next < end && is_help(host.word(next).bytes()) {
        return page(host, command);
    }
    run(host, command, next, end)
}

fn named(host: &Host, word: &[u8], next: usize, end: usize) -> bool {
    if is_help(word) {
        return help_command(host, next, end);
    }
    if matches!(word, b"--version") {
        return version_command(host, next, end);
    }
    match Command::named(word) {
        Some(command) => known(host, command, next, end),
        None => unknown(host, word),
    }
}

// The command at a word, whose own words end before `end`; without one, a trace is read. False where nothing, or not all, could be answered:
// standard error has the reason.
pub fn command(host: &Host, at: usize, end: usize) -> bool {
    if end <= at {
        return trace_station::trace_command(host, at, end);
    }
    named(host, host.word(at).bytes(), words::after(at), end)
}
