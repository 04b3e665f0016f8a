//! The names of an input, and what a version of a store says of them: a block of claims with one proof.
#![tactic(auto)]

mod answering;
mod block;
mod fault;
mod laws;
mod name_reader;
mod names;
mod over_map;

pub use answering::answer_names;
pub use fault::NamesFault;
pub use laws::answers_are_accepted;
