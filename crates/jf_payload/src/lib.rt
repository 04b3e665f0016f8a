//! The records of a journal of nodes, and the payload that spells each in a file of either format. Each record has one
//! spelling, and no other bytes are accepted. `specs/` says how each is spelled.
#![tactic(auto)]

mod checkpoint;
mod commits;
mod decoding;
mod encoding;
mod fault;
mod fields;
mod floor;
mod kinds;
mod landings;
mod laws;
mod length;
mod lists;
mod order;
mod records;

pub use commits::Commits;
pub use decoding::decode;
pub use encoding::{encode, put_fresh, put_names};
pub use fault::RecordFault;
pub use floor::encode_floor;
pub use kinds::{CLOSED, COMMIT, GROUP};
pub use laws::{
    kept_is_spelled, one_record, one_spelling, spelled_is_spelling, spelling_is_decided,
    written_in_both,
};
pub use length::{fresh_len, names_len, sum_within};
pub use lists::room_for;
pub use records::{Commit, Record};
