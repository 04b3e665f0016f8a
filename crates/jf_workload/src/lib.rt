//! The mode `generate` over a pass of a shared store: the lines of a generated script are answered one after another, and
//! what the mode writes of their replies is written in the end.
#![tactic(auto)]

mod generating;
mod laws;
mod report;
mod script_lines;

pub use generating::run_generated;
pub use jf_session::{End, Ran};
pub use laws::one_script_is_alone;
