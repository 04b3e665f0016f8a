// A line between blocks: it sets the root, or begins a block.
ghost use Rattle.std.specs.Prelude.{◌≡◌};
ghost use Rattle.jf_blocks.specs.Reading.{line_read};
ghost use Rattle.jf_verify.specs.Openings.{opening_of};

use jf_blocks::{FirstLine, first_line};
use jf_hash::Hash;
use jf_many_blocks::{ManyHead, many_line};

/// What a line between blocks says.
#[derive(Clone, Copy, Debug, PartialEq, Eq)]
pub(crate) enum Opening {
    /// The root that the blocks to come are judged by.
    Root(Hash),
    /// A proof block with this many siblings begins.
    Proof(u64),
    /// A block of many claims begins.
    Many(ManyHead),
}

/// What a line between blocks says. `None` for any other line, and for one of more than 8,500 bytes.
pub(crate) fn opening_line(line: &[u8]) -> Option<Opening>
    ensures { result ≡ line_read opening_of line.now }
{
    match first_line(line) {
        Some(FirstLine::Root(root)) => Some(Opening::Root(root)),
        Some(FirstLine::Proof(siblings)) => Some(Opening::Proof(siblings)),
        None => many_line(line).map(Opening::Many),
    }
}
