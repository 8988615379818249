// Runs the traces on standard input, each ended by `;`, and prints each answer. `@` in a trace stands for 32,767 letters `1`. A text that
// begins with `#` is no trace: it names the next one, and is printed. A trace behind `?` is told byte by byte too.
#![tactic(auto)]

ghost use Rattle.std.specs.Prelude.{◌≡◌};
ghost use Rattle.trace.specs.Trace.{trace_of, laying_of};

use cases::{Laid, ended};
use host::{Host, STDIN};
use trace::Traced;

// The answer is the same, told or not.
fn traced(host: &Host, text: &[u8], told: bool, out: &mut [u8]) -> Traced
    ensures { result ≡ (laying_of out.old (trace_of text.now)).answer }
{
    if told {
        return explain::explain(host, text, out);
    }
    trace::trace(text, out)
}

fn answer_in(host: &Host, text: &[u8], told: bool, out: &mut [u8]) {
    let t = traced(host, text, told, out);
    let n = t.length;
    host.say(&out[..n]);
}

fn answer(host: &Host, text: &[u8], told: bool) {
    let mut out = [0u8; 32800];
    answer_in(host, text, told, &mut out);
}

fn read(host: &Host, text: &[u8]) {
    match text {
        [b'#', name @ ..] => {
            host.say(name);
        }
        [b'?', trace @ ..] => answer(host, trace, true),
        _ => answer(host, text, false),
    }
}

fn run(host: &Host, typed: &[u8]) {
    let mut room = [0u8; 32774];
    let mut text = Laid::new(&mut room);
    for x in typed {
        match x {
            b'@' => {
                for _ in 0..32767 {
                    text.push(b'1');
                }
            }
            _ => text.push(*x),
        }
    }
    read(host, text.bytes());
}

fn main(rt: HostRuntime) {
    let host = Host::new(rt);
    let mut input = io::large_buffer();
    let n = host.read_full(STDIN, &mut input);
    for typed in ended(&input[..n], b';') {
        run(&host, typed);
    }
}
