//! What the mode `history` writes of a version: the total of all recorded roots, with the proofs that the version's root
//! is among them, and that they begin with those up to it.
#![tactic(auto)]

mod blocks;
mod fault;
mod roots;
mod writing;

pub use fault::HistoryFault;
pub use writing::write_history;
