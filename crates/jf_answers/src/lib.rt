//! What each line of a script is answered, over plain maps, and what it means that one legal history explains the
//! outputs of several sessions, as definitions, with their laws.
#![tactic(auto)]

mod laws;

pub use laws::{
    answers_are_legal, entry_spares_pins, floor_spares_pins, one_session_explains_all,
    one_session_explains_itself, runs_are_legal,
};
