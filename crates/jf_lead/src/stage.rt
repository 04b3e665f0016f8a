// How far landing blocks are read.
use crate::block::LandingBlock;
use crate::fault::LandingFault;
use jf_hash::Hash;
use jf_split::Batch;

/// What is read of a block whose first line has come.
#[derive(Debug, Drop)]
pub struct Begun {
    /// The number of its first line.
    pub first: u64,
    /// The version that it announces.
    pub version: u64,
    /// The root that it announces.
    pub root: Hash,
    /// How many changes are still to come.
    pub changes_left: u64,
    /// The changes that have come.
    pub batch: Batch,
}

/// How far the blocks are read.
#[derive(Debug, Drop)]
pub enum Stage {
    /// Every block that was started is whole.
    Between,
    /// A block has started.
    Block(Begun),
    /// A line was refused, or memory ran out: no later line is read.
    Refused(LandingFault),
}

/// The effect of a line on the blocks.
#[derive(Debug, Drop)]
pub struct Step {
    /// How far the blocks are read after it.
    pub stage: Stage,
    /// The block that ends with it, if one does, beside the number of that block's first line.
    pub block: Option<(u64, LandingBlock)>,
}
