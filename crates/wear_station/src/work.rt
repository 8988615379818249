// What the words and the lists name, one after another: traces that are run and counted, and files of counts that are joined.
use crate::source::{Source, Told};
use crate::stored;
use files::traced;
use parts::{Loss, Refusal, Verdict};
use wear::Most;

// The longest trace, and one byte more.
const ROOM: usize = 32774;

// The work so far. `part` is none until something named one; `worst` is the worst of the counts: nothing looks for it again after a trace.
#[derive(Clone, Copy)]
pub struct Worn {
    pub part: Option<u8>,
    pub traces: usize,
    pub cycles: usize,
    pub worst: Most,
}

impl Worn {
    pub fn nothing_yet() -> Worn {
        Worn {
            part: None,
            traces: 0,
            cycles: 0,
            worst: Most { group: 0, count: 0 },
        }
    }

    // Refusal 3: the counts before it are another part's, whose length may be the same.
    fn other_part(self, part: u8) -> Verdict {
        let other = self.part.is_some_and(|before| before != part);
        parts::claim(other, Refusal::WrongBuffer)
    }

    // `text`: the trace, or nothing of a file of counts.
    fn refuse(self, source: Source<'_>, text: &[u8], part: u8, r: Refusal) -> Told {
        match (r, self.part) {
            (Refusal::WrongBuffer, Some(before)) => source.other_part(part, before),
            _ => source.refused(text, r),
        }
    }
}

// ---- a trace

// Each trace starts from delivery, as the trace program runs it; the counts go on.
fn run_letters(part: u8, enable: u8, letters: &[u8], counts: &mut [u32]) -> wear::Worn {
    let mut array_room = [0u8; 32768];
    let mut id_room = [0u8; 64];
    let mut event_room = [0u8; 32768];
    let mut answer_room = [0u8; 32768];
    let array = fitted::array(part, &mut array_room);
    let id = fitted::id(part, &mut id_room);
    let events = fitted::first(&mut event_room, letters.len());
    let answers = fitted::first(&mut answer_room, letters.len());
    traced::recode(letters, events);
    let delivered = chip::deliver(part, array, id);
    wear::go_on(
        part,
        enable,
        Loss::Old,
        b"",
        delivered.chip,
        array,
        id,
        fitted::counts(part, counts),
        events,
        answers,
    )
}

fn run_text(
    w: Worn,
    source: Source<'_>,
    part: u8,
    enable: u8,
    text: &[u8],
    counts: &mut [u32],
) -> Result<Worn, Told> {
    let run = run_letters(part, enable, trace::letters(text), counts);
    match run.ran.verdict {
        Ok(()) => Ok(Worn {
            part: Some(part),
            traces: w.traces.wrapping_add(1),
            cycles: w.cycles.wrapping_add(run.ran.cycles),
            worst: wear::worst::worse(w.worst, run.most),
        }),
        Err(r) => Err(w.refuse(source, text, part, r)),
    }
}

// Judged before it is run: a refused trace leaves the counts as they were.
fn judged(w: Worn, source: Source<'_>, text: &[u8], counts: &mut [u32]) -> Result<Worn, Told> {
    let j = trace::judge(text);
    match parts::sooner(j.verdict, w.other_part(j.part)) {
        Ok(()) => run_text(w, source, j.part, j.enable, text, counts),
        Err(r) => Err(w.refuse(source, text, j.part, r)),
    }
}

// What there is no room for does not change how a trace is judged (ReadsNoFurther of the crate trace): so long a text is refused with 13.
pub fn one_trace(w: Worn, source: Source<'_>, counts: &mut [u32]) -> Result<Worn, Told> {
    let mut room = [0u8; ROOM];
    let text = source.contents(&mut room)?;
    judged(w, source, text, counts)
}

// ---- a file of counts

fn join(
    w: Worn,
    source: Source<'_>,
    part: u8,
    bytes: &[u8],
    counts: &mut [u32],
) -> Result<Worn, Told> {
    let mut room = [0u32; 8192];
    let more = fitted::counts(part, &mut room);
    let counts = fitted::counts(part, counts);
    stored::load(bytes, more);
    let verdict = wear::join(part, counts, more);
    let worst = wear::worst_of(part, counts).worst;
    match verdict {
        Ok(()) => Ok(Worn {
            part: Some(part),
            worst,
            ..w
        }),
        Err(r) => Err(w.refuse(source, b"", part, r)),
    }
}

fn counts_in(w: Worn, source: Source<'_>, bytes: &[u8], counts: &mut [u32]) -> Result<Worn, Told> {
    let part = stored::part_in(source, bytes)?;
    match w.other_part(part) {
        Ok(()) => join(w, source, part, bytes, counts),
        Err(r) => Err(w.refuse(source, b"", part, r)),
    }
}

pub fn one_counts(w: Worn, source: Source<'_>, counts: &mut [u32]) -> Result<Worn, Told> {
    let mut room = [0u8; stored::ROOM];
    let bytes = source.contents(&mut room)?;
    counts_in(w, source, bytes, counts)
}
