//! Shared nodes of a sixteen-way tree over the entries of a map, the nodes of the binary tree as ranges of their
//! places, and the snapshot of a version: a link to the top node.
#![tactic(auto)]

mod branches;
mod found;
mod link;
mod making;
mod range;
mod shared;
mod sixteen;
mod snapshot;
mod state;
mod update;
mod view;

pub use link::{Branches, Link, Sixteen};
pub use range::Range;
pub use shared::SharedRange;
pub use snapshot::Snapshot;
pub use state::RangeState;
pub use update::Update;
pub use view::Seen;
