//! The pin board: words in memory through which readers pin versions without waiting, and a pruner raises the gate and
//! learns how far it may cut. `specs/Rule.antt` has the rule that holds in every schedule.
#![tactic(auto)]

mod board;
mod laws;
mod opening;
mod pin_refused;
mod place;
mod plays;
mod pruner;
mod rule;
mod scan;
mod scan_words;
mod steps;
mod views;

pub use board::Board;
pub use laws::{
    know_cut_is_low, know_greater_is_below, know_loaded_gates_are_low, know_pairs_are_announced,
    know_pruner_knows, know_words_are_holds,
};
pub use pin_refused::PinRefused;
pub use place::Place;
pub use pruner::Pruner;
pub use scan::{Held, Scan};
