//! The program `jellystore` on damaged files: `status` has what it must end with.
#![tactic(auto)]

use std::process::ExitCode;

fn main(rt: HostRuntime) -> ExitCode {
    jf_main::run(&rt)
}
