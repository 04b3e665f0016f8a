//! Proofs of a chunk of a map's entries: the honest one, and whether a chunk is accepted after the entries that are
//! known already. What is known is kept as a frontier, so that known entries are never hashed again.
#![tactic(auto)]

mod ask;
mod checks;
mod climbing;
mod frontier;
mod hashing;
mod honest;
mod judging;
mod verify;
mod walk;

pub use ask::RangeAsk;
pub use checks::are_sorted;
pub use frontier::Frontier;
pub use honest::{prove_range, prove_range_counted};
pub use jf_evidence::{RangeFault, RangeProof};
pub use verify::{range_root, verify_range};
