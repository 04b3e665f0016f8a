//! The program `jellystore` on a store with another root: `status` has what it must end with.
#![tactic(auto)]

use std::process::ExitCode;

fn main(rt: HostRuntime) -> ExitCode {
    jf_main::run(&rt)
}
