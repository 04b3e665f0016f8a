// A law for proofs of code that stands on it. The function does nothing when it runs.
ghost use Rattle.jf_ask.specs.Lookups.{HonestBlocksAreBelieved};

use jf_blocks::{blocks_are_read_back, replies_begin_blocks};
use jf_evidence::honest_claims_are_accepted;

/// A lookup in a map's own reply to `prove`, under the map's root, gives what the map says of the name.
pub fn honest_blocks_are_believed()
    ensures { HonestBlocksAreBelieved }
{
    blocks_are_read_back();
    replies_begin_blocks();
    honest_claims_are_accepted();
}
