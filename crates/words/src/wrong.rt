// What can be wrong with a word, said on standard error with how the command is used.
use crate::{status, tell};
use help::Command;
use host::{Host, STDERR};

#[derive(Clone, Copy, PartialEq, Eq)]
pub(crate) enum Wrong {
    Part,
    Number,
    Pin,
    Bit,
    Byte,
    // The word behind `hex image PART FILE`.
    Save,
    Form,
    TooMany,
    // The bytes of a write.
    Bytes,
    // The files of a capture.
    Files,
    TooLong,
    Missing,
    // The words behind `hex` and behind `image`.
    HexWord,
    ImageWord,
    // `wear` names nothing that is read.
    Sources,
    // What stands where `--to` of a conversion should.
    To,
}

impl Wrong {
    fn text(self) -> &'static str {
        match self {
            Wrong::Part => "is no part: a digit, or a name such as M24C64-D\n",
            Wrong::Number => "is no number, decimal or 0x\n",
            Wrong::Pin => "is none of high, low, floating, for --pin\n",
            Wrong::Bit => "is no bit of a byte, 0 to 7\n",
            Wrong::Byte => "is no byte: two hexadecimal digits, for --fill\n",
            Wrong::Save => "is not --save, and hex image wants --save FILE\n",
            Wrong::Form => "is none of epr, hex, raw, for --as\n",
            Wrong::TooMany => "is one too many\n",
            Wrong::Bytes => "is no row of bytes: two hexadecimal digits a byte, or -\n",
            Wrong::Files => "is no file: capture wants one, or more, before its options\n",
            Wrong::TooLong => "is too long\n",
            Wrong::Missing => "is missing\n",
            Wrong::HexWord => "is none of check, image, text, for hex\n",
            Wrong::ImageWord => "is none of info, convert, for image\n",
            Wrong::Sources => {
                "is missing: wear wants a TRACE, --list FILE, --counts FILE or --image FILE\n"
            }
            Wrong::To => "is not as image convert wants it: FILE OUT --to 1, or --to 2\n",
        }
    }
}

// An option that is none of the command's is told; a word that is none is one too many, and so is an option that is said again.
fn tell_word(host: &Host, command: Command, word: &[u8], wrong: Wrong) {
    let unknown = word.starts_with(b"--") && command.flag_named(word).is_none();
    tell(host, b" '");
    tell(host, word);
    tell(host, b"' ");
    match wrong {
        Wrong::TooMany if unknown => help::unknown_option(host, command, word),
        Wrong::Missing if !word.is_empty() => tell(host, b"stands where a word is missing\n"),
        _ => tell(host, wrong.text().as_bytes()),
    }
}

// There is no such word.
fn tell_missing(host: &Host, wrong: Wrong) {
    if wrong == Wrong::Sources {
        tell(host, b" ");
        return tell(host, wrong.text().as_bytes());
    }
    tell(host, b" is missing\n");
}

// A word is named by its number too: it may be missing, or too long to show. The second line says how the command is used.
pub(crate) fn complain(host: &Host, command: Command, i: usize, wrong: Wrong) {
    tell(host, b"sapwoodle: word ");
    host.print_decimal(STDERR, i as u64);
    if i < host.arg_count() {
        tell_word(host, command, host.word(i).bytes(), wrong);
    } else {
        tell_missing(host, wrong);
    }
    help::usage(host, command);
    status::trouble(host);
}
