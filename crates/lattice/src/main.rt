//! The program: it runs the command that the words give, and ends with its exit code.
#![tactic(auto)]

use lattice_process::start::start;
use std::process::ExitCode;

fn main(rt: HostRuntime) -> ExitCode {
    start(&rt)
}
