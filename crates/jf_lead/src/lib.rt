//! Landing blocks: the text by which a store tells others of its landings, one block for each version, written and read.
//! `specs/` has their format, and says which blocks a history makes.
#![tactic(auto)]

mod block;
mod change;
mod fault;
mod head;
mod laws;
mod reader;
mod stage;
mod steps;
mod writing;

pub use block::LandingBlock;
pub use fault::LandingFault;
pub use laws::{
    know_landing, landing_blocks_are_sound, landing_blocks_stay,
    landing_refusals_come_at_their_line, landing_refusals_stay, landings_are_read_back,
    landings_come_line_by_line, long_landing_lines_are_alike,
};
pub use reader::LandingReader;
pub use writing::write_landing;
