//! Speculative trees: the map after a batch, as a binary tree that shares with the map before what is unchanged, and
//! refers to stored nodes where no key of the batch is.
#![tactic(auto)]

mod extend;
mod halves;
mod held;
mod node;
mod tree;

pub use tree::SpecTree;
