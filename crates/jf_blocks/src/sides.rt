// The siblings that are kept of a block that is read.
ghost use Rattle.std.specs.Prelude.{◌≡◌, OnOk, OnErr};
ghost use Rattle.jf_blocks.specs.Sides.{with_kept};

use jf_hash::Hash;
use jf_path::{HashList, Memory};

// How many siblings are kept: one more than any proof has.
const MOST_KEPT: u64 = 257;

/// Adds a sibling that was read to those that are kept, as long as they are fewer than 257. No proof has more than 256,
/// so a block with more is refused, whatever the others are. If memory runs out, the list is unchanged.
pub fn keep_side(kept: &mut HashList, sibling: Hash) -> Result<(), Memory>
    ensures ok { OnOk result (kept.new ≡ with_kept kept.old sibling) }
    ensures err { OnErr result (kept.new ≡ kept.old) }
{
    if kept.len() < MOST_KEPT {
        kept.push(sibling)
    } else {
        Ok(())
    }
}
