// What is printed of an answer.
use host::Host;
use parts::{Refusal, Verdict};

pub fn tell(host: &Host, words: &[u8], n: usize) {
    host.say(words);
    host.say_number(n);
}

// Each behind a space.
pub fn tell_each<T: Copy + Into<usize>>(host: &Host, numbers: &[T]) {
    for n in numbers {
        tell(host, b" ", (*n).into());
    }
}

// A refusal with its page, index or place.
pub fn tell_done(host: &Host, verdict: Verdict) {
    match verdict {
        Ok(()) => {
            host.say(b"done");
        }
        Err(_) => {
            tell(
                host,
                b"refused ",
                text::wide(parts::verdict_number(verdict)),
            );
            tell(host, b" at ", parts::verdict_place(verdict));
        }
    }
}

// A refusal with its place where it is one for an event.
pub fn tell_fine(host: &Host, verdict: Verdict) {
    match verdict {
        Ok(()) => {
            host.say(b"fine");
        }
        Err(refusal) => {
            tell(host, b"refused ", text::wide(parts::number(refusal)));
            if let Refusal::BadEvent(at) = refusal {
                tell(host, b" at ", at);
            }
        }
    }
}
