//! The tagged hashes, the root of a map computed as it is defined, and the hashes of a node's sixteen places and of the
//! ranges of them. `specs/` says what maps, batches and roots are, what a map is after a batch, and how a root comes
//! from the hashes of ranges of places.
#![tactic(auto)]

mod occupancy;
mod occupied;
mod places;
mod plain;
mod range;
mod ranges;
mod refreshing;
mod slot;
mod tagged;

pub use places::Places;
pub use plain::plain_root;
pub use range::sixteen;
pub use ranges::Ranges;
pub use slot::Slot;
pub use tagged::{Hash, empty, inner, key_of, leaf, value};
