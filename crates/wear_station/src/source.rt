// A file that a word or a list names: opened, read and closed, and what is wrong with it, on standard error.
use files::tell::{number, say};
use files::traced;
use host::{Host, STDIN};
use parts::Refusal;
use words::status;

// The work ends: standard error has the reason, and nothing is to be told or saved.
#[derive(Clone, Copy)]
pub struct Told;

// A file, by its name as it was typed or as its list has it, or standard input.
#[derive(Clone, Copy)]
pub struct Source<'a> {
    pub host: &'a Host,
    pub is_input: bool,
    pub name: &'a [u8],
}

impl Source<'_> {
    // Its descriptor.
    pub fn open(self) -> Result<i32, Told> {
        if self.is_input {
            return Ok(STDIN);
        }
        files::open_named(self.host, self.name).ok_or(Told)
    }

    pub fn close(self, fd: i32) {
        if !self.is_input {
            self.host.close(fd);
        }
    }

    // All that it has, or as much as there is room for.
    pub fn contents<'b>(self, to: &'b mut [u8]) -> Result<&'b [u8], Told> {
        let fd = self.open()?;
        let got = words::read_all(self.host, fd, to);
        if got.is_none() {
            self.unread();
        }
        self.close(fd);
        let n = got.ok_or(Told)?;
        Ok(&to[..n])
    }

    // ---- what is wrong with it

    // `FILE: `
    pub fn begin(self) {
        traced::begin(self.host, self.is_input, self.name);
    }

    pub fn unread(self) -> Told {
        say(self.host, b"sapwoodle: ");
        self.begin();
        say(self.host, b"cannot be read\n");
        status::trouble(self.host);
        Told
    }

    pub fn long_line(self, line: usize, most: usize) -> Told {
        say(self.host, b"sapwoodle: ");
        self.begin();
        say(self.host, b"line ");
        number(self.host, line);
        say(self.host, b": got a name of more than ");
        number(self.host, most);
        say(self.host, b" bytes, wanted no more\n");
        status::trouble(self.host);
        Told
    }

    pub fn other_part(self, part: u8, before: u8) -> Told {
        self.begin();
        say(self.host, b"got part ");
        number(self.host, text::wide(part));
        say(self.host, b", wanted part ");
        number(self.host, text::wide(before));
        say(self.host, b" as before it");
        traced::end(self.host, Refusal::WrongBuffer);
        Told
    }

    // `text`: the trace, or nothing of a file of counts, of which nothing else is refused.
    pub fn refused(self, text: &[u8], r: Refusal) -> Told {
        traced::tell(self.host, self.is_input, self.name, text, r);
        Told
    }
}
