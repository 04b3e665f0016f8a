//! A lock round one value, whose word counts what the value represents. `specs/Rule.antt` has the rule that holds
//! between any two steps of any threads, and `specs/Laws.antt` what follows from it.
#![tactic(auto)]

mod claiming;
mod closing;
mod entry_list;
mod giving;
mod laws;
mod note;
mod opening;
mod rule;
mod seat;
mod seating;
mod steps;
mod turn;
mod view;

pub use entry_list::EntryList;
pub use laws::{
    free_turn_has_its_value, holder_keeps_the_list, numbers_were_given, one_seat_holds,
    own_entries_are_seen, seats_stand_apart, seen_lists_agree,
};
pub use note::Note;
pub use opening::TurnRefused;
pub use seat::Seat;
pub use turn::Turn;
