//! Batches of changes, sorted by key, and their pieces by nibble; and the changes gathered for a batch. `specs/` has the
//! limits of a batch and says what its pieces are.
#![tactic(auto)]

mod batch;
mod fault;
mod hashed_key;
mod list;
mod pending;
mod piece;

pub use batch::{Batch, MAX_KEYS};
pub use fault::BatchFault;
pub use list::BatchList;
pub use pending::Pending;
pub use piece::{Piece, pieces_of};
