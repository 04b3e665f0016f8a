//! What the sessions of a shared store are answered, line by line, and that the one history of the store explains it all, as
//! definitions with their laws.
#![tactic(auto)]

mod end;
mod laws;

pub use end::End;
pub use laws::{
    answers_stay, changes_reply, closed_blames, closed_explains, closed_spares_pins, closed_tries,
    looks_reply, none_answered, one_end_is_alone, one_more_answered, one_pass_adds,
    one_pass_closes, one_pass_sees, one_run_is_alone, one_served_is_alone, one_session_is_alone,
    one_session_is_never_broken, one_session_tries,
};
