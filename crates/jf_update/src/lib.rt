//! The update of a snapshot by a batch: the next snapshot, the nodes that it writes, and the names of the nodes that it
//! makes stale.
#![tactic(auto)]

mod count;
mod hashing;
mod leaf;
mod node;
mod outcome;
mod piece;
mod remainder;
mod restore;
mod snapshot;
mod top;
mod wide;
mod wide_leaf;

pub use count::count_of_nodes;
pub use hashing::value_hashes;
pub use jf_diff::{Written, landing_lists};
pub use jf_node::Update;
pub use restore::{RebuildFault, restored_snapshot};
pub use snapshot::{advance, update};
