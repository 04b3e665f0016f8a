//! The script that the mode `generate` runs, line by line, and what the mode writes of the replies. `specs/` says what
//! both are.
#![tactic(auto)]

mod generator;
mod laws;
mod limits;
mod line;
mod place;
mod reply_tally;

pub use generator::Generator;
pub use laws::refusals_are_reported;
pub use limits::{MAX_BATCHES, MAX_SIZE};
pub use reply_tally::ReplyTally;
