//! The program `jellystore` with the word `check`, over damaged files: `stdout` has what it must write, `status` what it must end
//! with.
#![tactic(auto)]

use std::process::ExitCode;

fn main(rt: HostRuntime) -> ExitCode {
    jf_main::run(&rt)
}
