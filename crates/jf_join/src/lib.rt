//! Applies one function to many pieces of work and returns the results in the order of the pieces, worked by at most as
//! many threads as `Workers` says. A gate is notified of each piece, and of each session, before it begins.
#![tactic(auto)]

mod gate;
mod pieces;
mod workers;

pub use gate::{FreeGate, Gate};
pub use pieces::{join_pieces, join_pieces_from};
pub use workers::Workers;
