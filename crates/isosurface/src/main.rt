// The program: a scan as lines on standard input, a closed surface as lines on standard output.
#![tactic(auto)]

mod usage;

use listing::run;
use std::env;
use std::process::ExitCode;

// With no argument it runs; the exit status tells how the output ends. Want of memory and a failed read or write are told on
// standard error, and the status is then 1.
fn main(rt: HostRuntime) -> anyhow::Result<ExitCode> {
    match env::args(&rt)?.nth(1) {
        None => Ok(run(rt.alloc(), &mut rt.stdin(), &mut rt.stdout())?.into()),
        Some(argument) => usage::show(&rt, argument.as_str()),
    }
}
