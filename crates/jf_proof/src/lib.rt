//! Whether a claim on one key, a value or its absence, is shown by a proof to somebody who has only the root of a map;
//! and the proof that shows it.
#![tactic(auto)]

mod claim;
mod honest;

pub use claim::verify;
pub use honest::{prove, prove_counted};
pub use jf_evidence::{Proof, ProofFault, honest_claims_are_accepted};
