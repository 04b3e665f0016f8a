//! A map that is put together from chunks, each of which is checked against the announced root as it comes; and, once it
//! is whole, imported into a new store.
#![tactic(auto)]

mod copies;
mod importing;
mod refused;
mod restore;
mod short;

pub use jf_engine::EngineFault;
pub use jf_range::{RangeFault, RangeProof};
pub use refused::RestoreRefused;
pub use restore::Restore;
pub use short::are_short;
