//! Two claims on one key under one root, each with its proof: which of them is refused, or, if both are accepted and
//! contradict, two different lists with one SHA-256. Likewise two maps that have one root.
#![tactic(auto)]

mod contradiction;
mod difference;
mod inputs;
mod judged;
mod laws;
mod maps;
mod outcome;
mod parts;

pub use contradiction::audit;
pub use jf_evidence::wrong_claims_collide;
pub use judged::Judged;
pub use laws::{audits_have_one_answer, wrong_claims_are_caught};
pub use maps::maps_collide;
pub use outcome::Audit;
