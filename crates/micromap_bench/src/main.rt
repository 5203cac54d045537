//! Performs numbered examples of the library's calls, the rows, and writes for each whether it returned what was
//! expected.
#![tactic(auto)]

pub use micromap_testing::{Call, lockstep, run_rows};
use std::io;
use std::process::ExitCode;

fn main(rt: HostRuntime) -> ExitCode {
    ExitCode::from(run_rows(rt.alloc(), &mut io::writer(&rt)))
}
