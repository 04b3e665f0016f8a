//! Gives back the room of the side that isn't live: that side is cut down to its closed gate. Its records mean nothing, so
//! the versions that the files represent stay, also if a crash stops it.
#![tactic(auto)]

mod cutting;
mod laws;
mod spare;
mod trimmed;
mod trimming;

pub use laws::kept_stores_stop_well;
pub use trimmed::Trimmed;
pub use trimming::trim;
