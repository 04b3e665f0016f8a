//! Proof texts are judged with nothing but the roots that stand in them. Roots, blocks of one claim and blocks of many
//! claims come as lines, and each block gets a verdict. `specs/` defines the verdicts twice: on a whole input, and line by line.
#![tactic(auto)]

mod accepted;
mod answers;
mod contradiction;
mod judging;
mod kept;
mod known;
mod laws;
mod many_reading;
mod many_stage;
mod no_match;
mod opening;
mod reading;
mod stage;
mod stream;
mod table;
mod text;

pub use judging::Judge;
pub use laws::{
    contradictions_are_collisions, lines_are_answered_in_turn, long_lines_are_alike,
    verdicts_come_line_by_line,
};
pub use stream::{Verified, verify_stream};
pub use text::judge_text;
