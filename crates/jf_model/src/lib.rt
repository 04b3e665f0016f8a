//! Versions, forks, states and entries over plain maps, without nodes, files or threads: `specs/` defines them, and the
//! code has the list of a run's entries.
#![tactic(auto)]

mod batch_note;
mod entries;
mod ledger;

pub use batch_note::BatchNote;
pub use entries::{Entry, Landing, Parent};
pub use ledger::Ledger;
