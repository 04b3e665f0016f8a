//! The directory that the records of a journal of nodes lead to, or the offset of the first record that isn't sound. What
//! was read, the bytes of a landing, a commit or a checkpoint, is built anew and compared: nothing is linked from nodes that
//! were read.
#![tactic(auto)]

mod changes;
mod check_fault;
mod checkpoint;
mod commit;
mod copies;
mod entries;
mod fault;
mod first;
mod floor;
mod landing;
mod lent;
mod named;
mod next;
mod numbers;
mod replaying;
mod same;
mod since;
mod taking;

pub use fault::ReplayFault;
pub use first::Replayed;
pub use replaying::replay;
