// The wires of a run as a logic analyser would have seen them, one byte a sample: a file for the command `capture`, or for other tools.
ghost use Rattle.std.specs.Prelude.{◌≡◌, length};

use capture::{Stroke, Wires};
use host::Host;

// Room for a sample at rest and four for each event of a full tape.
fn blank() -> [u8; 1572865]
    ensures { 1572865 ≡ length result }
{
    [0; 1572865]
}

// One stroke behind the first n samples.
fn put(out: &mut [u8], n: usize, s: Stroke) -> usize {
    let four = s.samples;
    files::extend(out, n, &four[..s.count.min(4)])
}

// From rest on; answers how many samples there are.
fn draw_all(events: &[u8], levels: &[u8], out: &mut [u8]) -> usize {
    let mut wires = Wires::Rest;
    let mut n = files::extend(out, 0, &[3]);
    for (event, level) in events.iter().zip(levels) {
        let s = capture::draw(wires, capture::lined(*event, *level));
        n = put(out, n, s);
        wires = s.wires;
    }
    n
}

// Whether the file stands that a word names.
pub fn store(host: &Host, word: usize, events: &[u8], levels: &[u8]) -> bool {
    let mut out = blank();
    let n = draw_all(events, levels, &mut out);
    if n <= out.len() {
        return files::store::store(host, word, &out[0..n]);
    }
    false
}
