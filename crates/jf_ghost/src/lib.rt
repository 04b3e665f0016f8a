//! A value that only contracts see. It takes no memory.
#![tactic(auto)]

mod remembered;

pub use remembered::Remembered;
