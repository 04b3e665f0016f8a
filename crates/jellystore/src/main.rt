//! The program `jellystore`: a command line over a folder's store, or over one in memory.
#![tactic(auto)]

use std::process::ExitCode;

fn main(rt: HostRuntime) -> ExitCode {
    jf_main::run(&rt)
}
