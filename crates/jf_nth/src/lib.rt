//! The entry at a place of a snapshot's map, in the order of keys. Nodes keep counts, so the walk goes straight down to
//! it.
#![tactic(auto)]

mod place;

pub use place::{nth, nth_counted};
