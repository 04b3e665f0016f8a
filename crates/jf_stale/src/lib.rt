//! The marks of stale nodes: the version since which a node is stale, and its name. The least mark is taken first, up
//! to a floor.
#![tactic(auto)]

mod groups;
mod index;
mod names;

pub use index::StaleIndex;
