// Laws on landing blocks, for proofs of code that stands on them. These functions do nothing when they run.
ghost use Rattle.jf_lead.specs.Laws.{LandingsComeLineByLine, LandingRefusalsComeAtTheirLine, LandingBlocksStay, LandingRefusalsStay, LongLandingLinesAreAlike, IsLandingBlock, LandingsAreReadBack, LandingBlocksAreSound};

use jf_hash::Hash;
use jf_path::know_key;
use jf_split::Batch;

/// Lines read one by one give what they give all together.
pub fn landings_come_line_by_line()
    ensures { LandingsComeLineByLine }
{}

/// A refusal comes at the line that decides it, not earlier.
pub fn landing_refusals_come_at_their_line()
    ensures { LandingRefusalsComeAtTheirLine }
{}

/// The blocks that lines give stay, whatever lines follow.
pub fn landing_blocks_stay()
    ensures { LandingBlocksStay }
{}

/// A refusal stays, whatever lines follow.
pub fn landing_refusals_stay()
    ensures { LandingRefusalsStay }
{}

/// All lines of more than 8,500 bytes give the same.
pub fn long_landing_lines_are_alike()
    ensures { LongLandingLinesAreAlike }
{}

/// The block of a version, a root and a batch can be written.
pub fn know_landing(version: u64, root: &Hash, batch: &Batch)
    ensures { IsLandingBlock (record { version = version; root = root.now; batch = batch.now }) }
{
    know_key(root);
    let _ = batch.as_slice();
}

/// Blocks that were written are read as what was written.
pub fn landings_are_read_back()
    ensures { LandingsAreReadBack }
{}

/// Whole blocks that are read, of whatever lines, can be written.
pub fn landing_blocks_are_sound()
    ensures { LandingBlocksAreSound }
{}
