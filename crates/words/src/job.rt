// What the commands ask for that run a chip, read of their words.
use crate::form::Form;
use crate::reader::Reader;
use crate::wrong::{Wrong, complain};
use crate::{files_end, form, inputs, is_input, trouble};
use help::{Command, Flag};
use host::Host;

// What a command asks for. Files, and the bytes of a write, are kept as the words that name them.
#[derive(Clone, Copy)]
pub struct Job {
    pub part: u8,
    // What the driver selects by, and what the chip answers at.
    pub enable: u8,
    pub own: u8,
    pub at: usize,
    pub ident: bool,
    pub reads: bool,
    pub length: usize,
    pub budget: usize,
    pub ends: usize,
    // The event that sets Write Control.
    pub pin: Option<u8>,
    // Whether the events are printed.
    pub events: bool,
    pub image: Option<usize>,
    pub save: Option<usize>,
    // The form that is saved.
    pub form: Form,
    // Whether the counts of wear are saved too: it is asked for, or the file that was loaded has them.
    pub wear: bool,
    // The bytes of a write.
    pub bytes: Option<usize>,
    // The files that a run's wires are drawn into: as samples, and as a value change dump.
    pub drawn: Option<usize>,
    pub vcd: Option<usize>,
    // Of a write that is cut: the event before which power is lost; the file with the bytes of the page that is lent, or what each of them is;
    // and whether a locking cycle leaves the lock.
    pub cut: Option<usize>,
    pub page: Option<usize>,
    pub fill: Option<u8>,
    pub lock: bool,
    // Of a capture: its files go from one word to before another; whether every rise is a clock; the bits of the two wires, which are both
    // named or neither.
    pub files: usize,
    pub behind: usize,
    pub letter: bool,
    pub scl: Option<u8>,
    pub sda: Option<u8>,
}

// Of which nothing is said yet.
fn unsaid() -> Job {
    Job {
        part: 0,
        enable: 0,
        own: 0,
        at: 0,
        ident: false,
        reads: false,
        length: 0,
        budget: 100,
        ends: 1,
        pin: None,
        events: false,
        image: None,
        save: None,
        form: Form::Epr,
        wear: false,
        bytes: None,
        drawn: None,
        vcd: None,
        cut: None,
        page: None,
        fill: None,
        lock: false,
        files: 0,
        behind: 0,
        letter: false,
        scl: None,
        sda: None,
    }
}

// ---- the options

// What stands behind an option that has a number or a word. The chip is at the driver's enable until an option says otherwise.
fn valued(read: &mut Reader, job: &mut Job, flag: Flag) -> Option<()> {
    match flag {
        Flag::Enable => {
            job.enable = read.enable()?;
            job.own = job.enable;
        }
        Flag::Budget => job.budget = read.number()?,
        Flag::EndsAt => job.ends = read.number()?,
        Flag::ChipEnable => job.own = read.enable()?,
        Flag::Pin => job.pin = Some(read.pin()?),
        Flag::Scl => job.scl = Some(read.bit()?),
        Flag::Sda => job.sda = Some(read.bit()?),
        Flag::Cut => job.cut = Some(read.number()?),
        Flag::Fill => job.fill = Some(read.byte()?),
        _ => {}
    }
    Some(())
}

fn flagged(read: &mut Reader, job: &mut Job, flag: Flag) -> Option<()> {
    match flag {
        Flag::Image => job.image = Some(read.file()?),
        Flag::Save => job.save = Some(read.file()?),
        Flag::Drawn => job.drawn = Some(read.file()?),
        Flag::Page => job.page = Some(read.file()?),
        Flag::Vcd => job.vcd = Some(read.file()?),
        Flag::Ident => job.ident = true,
        Flag::Events => job.events = true,
        Flag::Letter => job.letter = true,
        Flag::Lock => job.lock = true,
        Flag::Wear => job.wear = true,
        _ => valued(read, job, flag)?,
    }
    Some(())
}

// So many options at most, to the last word.
fn optioned(read: &mut Reader, most: usize, first: Job) -> Option<Job> {
    let mut job = first;
    let mut said = None;
    for _ in 0..most {
        if read.is_done() {
            break;
        }
        match read.flag()? {
            Flag::Form => said = Some(read.form()?),
            flag => flagged(read, &mut job, flag)?,
        }
    }
    read.ended()?;
    job.form = form::saved(read.host, said, job.save);
    Some(job)
}

// There are sixteen options of a write, twelve of a read: more words than that repeat one.
fn options(read: &mut Reader, job: Job) -> Option<Job> {
    let most = if read.command == Command::Write {
        16
    } else {
        12
    };
    optioned(read, most, job)
}

// ---- what does not go together

fn reads_input(host: &Host, word: Option<usize>) -> bool {
    word.is_some_and(|i| is_input(host, i))
}

// Standard input is read once: for the bytes of a write, for its image, or for the page that is lent.
fn once(host: &Host, job: Job) -> Option<&'static str> {
    let bytes = reads_input(host, job.bytes);
    let image = reads_input(host, job.image);
    if bytes && image {
        return Some("only one of HEXBYTES and --image can be standard input\n");
    }
    if (bytes || image) && reads_input(host, job.page) {
        return Some("only one of HEXBYTES, --image and --page can be standard input\n");
    }
    None
}

// What is lent for a cut is said once, and of a cut alone.
fn lent(job: Job) -> Option<&'static str> {
    let paged = job.page.is_some();
    let fills = job.fill.is_some();
    if paged && fills {
        return Some("--page and --fill do not go together\n");
    }
    if job.cut.is_none() && (paged || fills || job.lock) {
        return Some("--page, --fill and --lock are for a write with --cut\n");
    }
    None
}

// Counts are kept in a file alone, and in an EPR image alone.
fn kept(job: Job) -> Option<&'static str> {
    let is_image = job.form == Form::Epr;
    if job.save.is_none() {
        if !is_image {
            return Some("--as goes with --save\n");
        }
        if job.wear {
            return Some("--wear goes with --save\n");
        }
    }
    if job.wear && !is_image {
        return Some(
            "--wear keeps the counts in an EPR image: HEX and raw bytes do not hold them\n",
        );
    }
    None
}

// Two bits that differ, or none.
fn paired(job: Job) -> Option<&'static str> {
    match (job.scl, job.sda) {
        (Some(scl), Some(sda)) if scl == sda => Some("--scl and --sda are the same bit\n"),
        (Some(_), None) | (None, Some(_)) => Some("--scl and --sda go together\n"),
        _ => None,
    }
}

// Standard input is read once: for one of the files, or for the image.
fn once_of_all(host: &Host, job: Job) -> Option<&'static str> {
    let files = inputs(host, job.files, job.behind);
    if 1 < files {
        return Some("only one FILE can be standard input\n");
    }
    if files == 1 && reads_input(host, job.image) {
        return Some("only one of FILE and --image can be standard input\n");
    }
    None
}

// The job, if no mistake was found in it.
fn judged(host: &Host, job: Job, mistake: Option<&'static str>) -> Option<Job> {
    if let Some(what) = mistake {
        trouble(host, what.as_bytes());
        return None;
    }
    Some(job)
}

// ---- the commands: the words go from `next` to before `end`; none where a word was wrong, and that was said

// `PART ENABLE ADDRESS LENGTH` of a read, `PART ENABLE ADDRESS HEXBYTES` of a write, and options.
pub fn asked(host: &Host, reads: bool, next: usize, end: usize) -> Option<Job> {
    let command = if reads { Command::Read } else { Command::Write };
    let mut read = Reader::new(host, command, next, end);
    read.wants(4)?;
    let mut job = unsaid();
    job.reads = reads;
    job.part = read.part()?;
    job.enable = read.enable()?;
    job.own = job.enable;
    job.at = read.number()?;
    // The bytes of a write are taken later, where there is a buffer for them.
    if reads {
        job.length = read.number()?;
    } else {
        job.bytes = Some(read.file()?);
    }
    let all = options(&mut read, job)?;
    judged(host, all, once(host, all).or(lent(all)).or(kept(all)))
}

// `PART ADDRESS LENGTH`, and options: judged as a write of so many bytes.
pub fn power_asked(host: &Host, next: usize, end: usize) -> Option<Job> {
    let mut read = Reader::new(host, Command::Power, next, end);
    read.wants(3)?;
    let mut job = unsaid();
    job.part = read.part()?;
    job.at = read.number()?;
    job.length = read.number()?;
    options(&mut read, job)
}

// `PART ENABLE FILE..` of a capture, and options: the files go up to the first option.
pub fn capture_asked(host: &Host, next: usize, end: usize) -> Option<Job> {
    let mut read = Reader::new(host, Command::Capture, next, end);
    read.wants(3)?;
    let mut job = unsaid();
    job.part = read.part()?;
    job.enable = read.enable()?;
    job.own = job.enable;
    job.files = read.next;
    job.behind = files_end(host, read.next, end);
    if job.behind <= job.files {
        return read.wrong(Wrong::Files);
    }
    read.next = job.behind;
    let all = options(&mut read, job)?;
    judged(
        host,
        all,
        paired(all).or(once_of_all(host, all)).or(kept(all)),
    )
}

// `PART`, and perhaps `--enable N`.
pub fn bench_asked(host: &Host, next: usize, end: usize) -> Option<Job> {
    let mut read = Reader::new(host, Command::Bench, next, end);
    let mut job = unsaid();
    job.part = read.part()?;
    if read.is_done() {
        return Some(job);
    }
    if read.named_flag() != Some(Flag::Enable) {
        return read.wrong(Wrong::TooMany);
    }
    read.pass();
    job.enable = read.enable()?;
    job.own = job.enable;
    Some(job)
}

// `--save FILE`, and perhaps a form.
fn saved(read: &mut Reader, mut job: Job) -> Option<Job> {
    if read.is_done() || read.named_flag() != Some(Flag::Save) {
        return read.wrong(Wrong::Save);
    }
    read.pass();
    job.save = Some(read.file()?);
    optioned(read, 1, job)
}

// `PART FILE` of hex check, `PART FILE --save FILE` of hex image.
pub fn hex_asked(host: &Host, saves: bool, next: usize, end: usize) -> Option<Job> {
    let mut read = Reader::new(host, Command::Hex, next, end);
    read.wants(1)?;
    let mut job = unsaid();
    job.part = read.part()?;
    job.image = Some(read.file()?);
    if saves {
        return saved(&mut read, job);
    }
    read.ended()?;
    Some(job)
}

// `IMAGE` of hex text.
pub fn text_asked(host: &Host, next: usize, end: usize) -> Option<Job> {
    let mut read = Reader::new(host, Command::Hex, next, end);
    let mut job = unsaid();
    job.image = Some(read.file()?);
    read.ended()?;
    Some(job)
}

// The word behind `hex` is missing, or none that it knows.
pub fn complain_hex(host: &Host, next: usize, end: usize) {
    if next < end {
        return complain(host, Command::Hex, next, Wrong::HexWord);
    }
    complain(host, Command::Hex, end, Wrong::Missing);
}
