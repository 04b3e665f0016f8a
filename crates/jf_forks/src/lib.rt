//! Forks: batches on the head or on other forks, each with the tree of the map that they give.
#![tactic(auto)]

mod chain;
mod fault;
mod gone;
mod live;
mod table;

pub use fault::ForkFault;
pub use table::{ForkTable, Forked};
