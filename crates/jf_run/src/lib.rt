//! The program's top call: the words of a command line are run over devices that the caller gives. Here stands all that
//! such a call promises.
#![tactic(auto)]

mod check_over;
mod do_mode;
mod existing;
mod follow_over;
mod history_over;
mod judge_name;
mod judging;
mod laws;
mod many_over;
mod over;
mod over_store;
mod restore_over;
mod resume_over;
pub mod run_words;
mod script;
mod serve_over;
mod serve_scripts;
pub mod status;
mod trim_over;

pub use jf_ask::LookupFault;
pub use jf_follow::{FollowFault, FollowRefused};
pub use jf_receive::RestoreFault;
pub use jf_words::{Mode, asks_check};
pub use laws::{led_calls_are_followed, led_files_are_followed};
