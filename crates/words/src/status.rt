// How a run ends: `main` ends with the highest status that was marked, or with 0.
use host::Host;

// 1: the answer is a refusal, or two things differ.
pub fn refused(host: &Host) {
    host.mark(1);
}

// 2: there is no answer, or not all of it: a word was wrong, or a file could not be read or written.
pub fn trouble(host: &Host) {
    host.mark(2);
}
