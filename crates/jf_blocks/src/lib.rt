//! Blocks of lines, written and read: a claim on one key with its proof, and a chunk of entries with the proof of the
//! last one. `specs/` has their format.
#![tactic(auto)]

mod chunk;
mod chunk_text;
mod first;
mod laws;
mod lines;
mod sides;
mod word;
mod writing;

pub use chunk::{ChunkHead, MAX_DEPTH, chunk_line, entry_line};
pub use chunk_text::write_chunk;
pub use first::{FirstLine, MAX_SIBLINGS, first_line, without_number};
pub use laws::{
    blocks_are_read_back, chunks_are_read_back, replies_begin_blocks, replies_begin_chunks,
    replies_set_roots,
};
pub use lines::{claim_line, claim_of_word, leaf_line, name_line, pair_of, side_line};
pub use sides::keep_side;
pub use word::{three_after, two_after, word_after};
pub use writing::{write_hex_line, write_proof, write_sides};
