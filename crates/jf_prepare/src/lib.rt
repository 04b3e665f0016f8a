//! What is made of lines at hand before they are taken: the puts among them are read by several workers, each beside the key of
//! its name and its value.
#![tactic(auto)]

mod look_ahead;
mod prepared_lines;
mod puts;

pub use look_ahead::{begins_put, front_without_puts};
pub use prepared_lines::PreparedLines;
pub use puts::read_puts;
