// A landing is passed over from its front to its end.
ghost use Rattle.std.specs.Prelude.{◌≡◌, ◌≤◌, ◌++◌, ℕ, List, flat_map, length, IfOk};
ghost use Rattle.std.specs.List.{AllByRecursion};
ghost use Rattle.jf_path.specs.Limits.{max_value};
ghost use Rattle.jf_path.specs.Names.{IsName};
ghost use Rattle.jf_path.specs.declared.name.NodeName.{NodeName};
ghost use Rattle.jf_codec.specs.Spelling.{name_bytes};
ghost use Rattle.jf_payload.specs.Spelling.{IsCommit, commit_bytes};
ghost use Rattle.jf_payload.specs.declared.records.Commit.{Commit};
ghost use Rattle.jf_standing.specs.Landing.{fresh_leaves};
ghost use Rattle.jf_standing.specs.Named.{AreEntries};
ghost use Rattle.jf_landing.specs.Scanned.{GivenMemory};

use crate::leaves::leaves_of;
use jf_codec::{CodecFault, Format, front_of, name_at, u64_at};
use jf_path::{Key, NodeName, SharedBytes};
use jf_payload::room_for;
use std::alloc::Global;

/// What is read off a landing: the entries of the leaves that it writes, in the order of the nodes, and the names of the
/// nodes that it marks stale.
#[derive(Drop)]
pub struct ScannedLanding {
    pub leaves: Vec<(Key, SharedBytes)>,
    pub stale: Vec<NodeName>,
}

// `count` names, each of 9 bytes or more.
fn names_of(alloc: Global, count: u64, bytes: &[u8]) -> Result<Vec<NodeName>, CodecFault>
    ensures { (names : List NodeName) (tail : List ℕ) → length names ≡ count → AllByRecursion IsName names → bytes.now ≡ flat_map name_bytes names ++ tail → GivenMemory (λ r. r.items ≡ names) result }
{
    let Ok(mut names) = Vec::with_capacity(alloc, room_for(count, 9, bytes) as usize) else {
        return Err(CodecFault::Memory);
    };
    let mut rest = bytes;
    for _ in 0..count {
        match name_at(rest) {
            Ok((name, after)) => {
                let Ok(()) = names.push(name) else {
                    return Err(CodecFault::Memory);
                };
                rest = after;
            }
            Err(fault) => return Err(fault),
        }
    }
    Ok(names)
}

/// What is read off the landing at the front of bytes in a file of this format. Of other bytes anything may be read, or a fault
/// returned.
pub fn scan_landing(
    alloc: Global,
    bytes: &[u8],
    format: Format,
) -> Result<ScannedLanding, CodecFault>
    // Keys have 32 bytes, whatever the bytes are.
    ensures entries { IfOk result (λ r. AreEntries r.leaves.items) }
    // Values have at most 4,096 bytes, whatever the bytes are.
    ensures short { IfOk result (λ r. AllByRecursion (λ e. length e.1 ≤ max_value) r.leaves.items) }
    // Of bytes that begin with those of a landing its leaves and its stale names are read, unless memory runs out.
    ensures spelled { (c : Commit) (tail : List ℕ) → IsCommit format c → bytes.now ≡ commit_bytes format c ++ tail → GivenMemory (λ r. (r.leaves.items ≡ fresh_leaves c) × (r.stale.items ≡ c.stale)) result }
{
    let (_, rest) = front_of(40, bytes)?;
    let (count, rest) = u64_at(rest)?;
    let (leaves, rest) = leaves_of(alloc, format, count, rest)?;
    let (count, rest) = u64_at(rest)?;
    let stale = names_of(alloc, count, rest)?;
    Ok(ScannedLanding { leaves, stale })
}
