//! The program again, over a text that it refuses: its files say with which status it ends and what it writes.
#![tactic(auto)]

use lattice_process::start::start;
use std::process::ExitCode;

fn main(rt: HostRuntime) -> ExitCode {
    start(&rt)
}
