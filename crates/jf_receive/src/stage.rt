// How far chunk blocks are read.
use crate::fault::BlockFault;
use jf_evidence::RangeProof;
use jf_path::Pairs;

/// What is read of a block whose first line has come.
#[derive(Debug, Drop)]
pub struct Begun {
    /// The number of its first line.
    pub first: u64,
    /// How many entries are still to come.
    pub entries_left: u64,
    /// How many siblings are still to come.
    pub siblings_left: u64,
    /// The entries that have come.
    pub entries: Pairs,
    /// The depth, and of the siblings that have come the first 257.
    pub proof: RangeProof,
}

/// How far the blocks are read.
#[derive(Debug, Drop)]
pub enum Stage {
    /// Every block that was started is whole and accepted.
    Between,
    /// A block has started.
    Block(Begun),
    /// A line was refused, and so are all that follow.
    Refused(BlockFault),
}
