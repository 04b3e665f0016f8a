//! The restore of a version from an input: chunk blocks are read line by line, each is checked after those before it and
//! added to a restore once its last line has come, and once all entries result in the announced root, they are imported into
//! a new store.
#![tactic(auto)]

mod block_line;
mod block_reader;
mod blocks;
mod fault;
mod importing;
mod laws;
mod reading;
mod received;
mod receiving;
mod stage;
mod text;

pub use blocks::Blocks;
pub use fault::BlockFault;
pub use jf_restore::{RangeFault, Restore};
pub use laws::{
    chunks_come_line_by_line, long_lines_are_alike, no_lines_come_to_memory,
    refusals_come_at_their_line, refusals_stay,
};
pub use received::{Received, RestoreFault};
pub use receiving::receive;
