//! Reads a scenario document from standard input, and writes its lines to standard output; with the
//! word `threads`, runs workers in threads on one shared device, and writes their totals.
//!
//! The exit status is 0 where all was written, 1 on a fault, whose line goes to standard error, and
//! 2 on a usage error.
#![tactic(auto)]

use dsa_cli::{run_words, tell};
use dsa_scenario::ScenarioFault;
use std::alloc::Global;
use std::env;
use std::process::ExitCode;

fn main(rt: HostRuntime) -> ExitCode {
    let alloc: Global = rt.alloc();
    let mut reader = rt.stdin();
    let mut out = rt.stdout();
    let mut err = rt.stderr();
    let Ok(given) = env::args(&rt) else {
        return ExitCode::from(tell(&mut err, &ScenarioFault::OutOfMemory));
    };
    let Ok(words) = given.skip(1).collect::<Vec<String>>(alloc) else {
        return ExitCode::from(tell(&mut err, &ScenarioFault::OutOfMemory));
    };
    ExitCode::from(run_words(&rt, alloc, &words, &mut reader, &mut out, &mut err))
}
