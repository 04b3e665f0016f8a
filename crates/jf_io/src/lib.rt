//! Sources give input and sinks take output, piece by piece; both count their faults. There are sources and sinks in
//! memory, for tests, and over std's readers and writers. A line reader cuts input into lines.
#![tactic(auto)]

mod attempts;
mod calls;
mod failed;
mod laws;
mod line_feed;
mod line_reader;
mod mem_sink;
mod mem_source;
mod nowhere;
mod piece;
mod sink;
mod source;
mod std_sink;
mod std_source;

pub use failed::IoFailed;
pub use laws::{
    bytes_without_feed_are_one_line, first_line_ends_at_first_feed, lines_go_on_after_a_feed,
    whole_lines_come_first, whole_lines_count_lines,
};
pub use line_feed::first_line_feed;
pub use line_reader::LineReader;
pub use mem_sink::MemSink;
pub use mem_source::MemSource;
pub use nowhere::Nowhere;
pub use piece::{FetchFault, MAX_PIECE, USUAL_PIECE, append_piece};
pub use sink::{Sink, put_all};
pub use source::Source;
pub use std_sink::StdSink;
pub use std_source::StdSource;
