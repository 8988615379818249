// The words of a command, read one after another. What is wrong with one is said at once, and then nothing more is read.
use crate::form::Form;
use crate::value::{bit_of, byte_of, number_of, part_of, pin_of};
use crate::wrong::{Wrong, complain};
use crate::{after, form};
use help::{Command, Flag};
use host::{Host, Word};

// The word that is read next, and where they end.
#[derive(Clone, Copy)]
pub(crate) struct Reader<'a> {
    pub(crate) host: &'a Host,
    pub(crate) command: Command,
    pub(crate) next: usize,
    pub(crate) end: usize,
}

impl<'a> Reader<'a> {
    pub(crate) fn new(host: &'a Host, command: Command, next: usize, end: usize) -> Reader<'a> {
        Reader {
            host,
            command,
            next,
            end,
        }
    }

    pub(crate) fn is_done(&self) -> bool {
        self.end <= self.next
    }

    pub(crate) fn word(&self) -> Word {
        self.host.word(self.next)
    }

    pub(crate) fn pass(&mut self) {
        self.next = after(self.next);
    }

    // A word is wrong.
    pub(crate) fn wrong_at<T>(&self, i: usize, wrong: Wrong) -> Option<T> {
        complain(self.host, self.command, i, wrong);
        None
    }

    // The next word is wrong.
    pub(crate) fn wrong<T>(&self, wrong: Wrong) -> Option<T> {
        self.wrong_at(self.next, wrong)
    }

    // As many words are there at least.
    pub(crate) fn wants(&self, words: usize) -> Option<()> {
        if self.end < self.next.saturating_add(words) {
            return self.wrong_at(self.end, Wrong::Missing);
        }
        Some(())
    }

    // No word is left over.
    pub(crate) fn ended(&self) -> Option<()> {
        if self.is_done() {
            return Some(());
        }
        self.wrong(Wrong::TooMany)
    }

    // What the next word says.
    fn taken<T: Drop>(&mut self, value: Option<T>, wrong: Wrong) -> Option<T> {
        if value.is_none() {
            return self.wrong(wrong);
        }
        self.pass();
        value
    }

    pub(crate) fn part(&mut self) -> Option<u8> {
        self.taken(part_of(self.word().bytes()), Wrong::Part)
    }

    pub(crate) fn number(&mut self) -> Option<usize> {
        self.taken(number_of(self.word().bytes()), Wrong::Number)
    }

    // An enable: one that is too large for any is refused with its number.
    pub(crate) fn enable(&mut self) -> Option<u8> {
        Some(text::narrow(self.number()?))
    }

    pub(crate) fn pin(&mut self) -> Option<u8> {
        self.taken(pin_of(self.word().bytes()), Wrong::Pin)
    }

    pub(crate) fn bit(&mut self) -> Option<u8> {
        self.taken(bit_of(self.word().bytes()), Wrong::Bit)
    }

    pub(crate) fn byte(&mut self) -> Option<u8> {
        self.taken(byte_of(self.word().bytes()), Wrong::Byte)
    }

    pub(crate) fn form(&mut self) -> Option<Form> {
        self.taken(form::named(self.word().bytes()), Wrong::Form)
    }

    // The next word names a file.
    pub(crate) fn file(&mut self) -> Option<usize> {
        if self.is_done() {
            return self.wrong(Wrong::Missing);
        }
        let word = self.next;
        self.pass();
        Some(word)
    }

    // The option of the command that the next word names.
    pub(crate) fn named_flag(&self) -> Option<Flag> {
        self.command.flag_named(self.word().bytes())
    }

    // The next word, which is to name an option of the command.
    pub(crate) fn flag(&mut self) -> Option<Flag> {
        self.taken(self.named_flag(), Wrong::TooMany)
    }
}
