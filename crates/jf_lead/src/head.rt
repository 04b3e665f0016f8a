// The first line of a landing block, given without its line feed.
ghost use Rattle.std.specs.Prelude.{◌≡◌, ◌≤◌, IfSome};
ghost use Rattle.jf_split.specs.Limits.{max_keys};
ghost use Rattle.jf_blocks.specs.Reading.{line_read};
ghost use Rattle.jf_lead.specs.Reading.{landing_head_of, landing_line_of};

use jf_blocks::three_after;
use jf_hash::Hash;
use jf_split::MAX_KEYS;
use jf_text::{MAX_LINE, hash_of, number_from, number_of};

/// What the first line of a landing block says.
#[derive(Clone, Copy, Debug, PartialEq, Eq)]
pub struct LandingHead {
    /// The version.
    pub version: u64,
    /// The root of its map.
    pub root: Hash,
    /// How many changes follow, at most `MAX_KEYS` of `jf_split`.
    pub changes: u64,
}

/// What a line `landing VERSION ROOT C` says. `None` for any other line, and for one of more than 8,500 bytes.
pub(crate) fn landing_line(line: &[u8]) -> Option<LandingHead>
    ensures head { result ≡ line_read landing_line_of line.now }
    ensures changes { IfSome result (λ head. head.changes ≤ max_keys) }
{
    if line.len() > MAX_LINE {
        return None;
    }
    let (version, root, changes) = three_after(b"landing", line)?;
    landing_head_of(version, root, changes)
}

/// Three words as the version, the root and the number of changes of a first line.
fn landing_head_of(version: &[u8], root: &[u8], changes: &[u8]) -> Option<LandingHead>
    ensures head { result ≡ landing_head_of (version.now, root.now, changes.now) }
    ensures changes { IfSome result (λ head. head.changes ≤ max_keys) }
{
    let version = number_of(version)?;
    let root = hash_of(root)?;
    let changes = number_from(0, MAX_KEYS as u64, changes)?;
    Some(LandingHead {
        version,
        root,
        changes,
    })
}
