// The program: its words are a command. It ends with 0: done; 1: refused, or two things differ; 2: there is no answer. Thin over the
// libraries, which have the promises.
#![tactic(auto)]

use host::Host;
use std::process::ExitCode;

fn main(rt: HostRuntime) -> ExitCode {
    let host = Host::new(rt);
    commands::command(&host, 1, host.arg_count());
    ExitCode::from(host.status())
}
