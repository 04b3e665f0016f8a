//! The program `jellystore` on too many sessions: `status` has what it must end with.
#![tactic(auto)]

use std::process::ExitCode;

fn main(rt: HostRuntime) -> ExitCode {
    jf_main::run(&rt)
}
