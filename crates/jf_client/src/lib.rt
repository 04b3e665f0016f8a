//! A client that keeps no map: it judges the replies to `root` and to `prove` on one version, one after the other, as
//! one accepted claim, and what the mode `many` writes of a version; it looks a name up in the reply to `prove`; and it
//! restores a version from the replies to `chunk`.
#![tactic(auto)]

mod laws;

pub use laws::{
    honest_chunks_are_restored, honest_proofs_are_believed, honest_replies_are_accepted,
    many_answers_are_accepted, whole_runs_are_judged,
};
