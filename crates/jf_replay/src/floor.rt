// The floor of a checkpoint that was read, built anew from its leaves and the versions of its nodes.
ghost use Rattle.std.specs.Prelude.{◌≡◌, ◌<◌, ◌≤◌, ◌^◌, IfOk, Err, true, length, map};
ghost use Rattle.std.specs.Cmp.Lexicographic.{pointwise};
ghost use Rattle.std.specs.List.{AllByRecursion, list_all};
ghost use Rattle.jf_path.specs.Names.{IsName};
ghost use Rattle.jf_codec.specs.Spelling.{IsNode};
ghost use Rattle.jf_standing.specs.FormatLaws.{standing_in};
ghost use Rattle.jf_standing.specs.Next.{IsReadStanding};
ghost use Rattle.jf_standing.specs.Sound.{IsSound};
ghost use Rattle.jf_update.specs.Restored.{IsRestored};
ghost use Rattle.jf_replay.specs.Cuts.{has_numbers, standing_by, standing_lent};
ghost use Rattle.jf_replay.specs.Floors.{AreFloorVersions, entries_in, versions_by_path, same_listed, listed_in};

use crate::check_fault::CheckFault;
use crate::entries::{entries_of, versions_by_path};
use crate::landing::count_by_version;
use crate::lent::CheckpointRef;
use crate::same::is_same_node;
use jf_codec::Format;
use jf_dir::{Directory, restored_from};
use jf_node::Snapshot;
use jf_path::{Memory, NodeName, PlainNode};
use jf_update::RebuildFault;
use std::alloc::Global;

/// The most entries of a map.
const MOST_ENTRIES: u64 = 1 << 63;

/// The snapshot of the nodes of a floor. `Unsound` only if their versions can't be those of the nodes of one map.
fn snapshot_of(
    alloc: Global,
    floor: u64,
    nodes: &[(NodeName, PlainNode, u64)],
    format: Format,
) -> Result<Snapshot, CheckFault>
    requires spelled { AllByRecursion (λ n. IsName n.0 × IsNode format n.1 × (n.2 < 2 ^ 64)) nodes.now }
    ensures restored { IfOk result (IsRestored floor (entries_in nodes.now) (versions_by_path nodes.now)) }
    ensures unsound { result ≡ Err CheckFault.Unsound → AreFloorVersions floor nodes.now → ⊥ }
{
    let entries = entries_of(alloc, nodes)?;
    let versions = versions_by_path(alloc, nodes)?;
    match restored_from(alloc, floor, &entries, &versions) {
        Ok(snapshot) => Ok(snapshot),
        Err(RebuildFault::Versions) => Err(CheckFault::Unsound),
        Err(RebuildFault::Memory) => Err(CheckFault::Memory),
    }
}

/// Whether nodes are what the format keeps of others, apart from the versions since which they are stale.
fn are_same(
    read: &[(NodeName, PlainNode, u64)],
    made: &[(NodeName, PlainNode, u64)],
    format: Format,
) -> bool
    ensures { result ≡ pointwise same_listed read.now (map (listed_in format) made.now) }
{
    if read.len() != made.len() {
        return false;
    }
    for (i, node) in read.iter().enumerate() {
        let other = &made[i];
        if node.0 != other.0 || !is_same_node(&node.1, &other.1, format) {
            return false;
        }
    }
    true
}

/// Whether nodes are what the format keeps of those of a directory of one version.
fn are_nodes_of(
    alloc: Global,
    directory: &Directory,
    nodes: &[(NodeName, PlainNode, u64)],
    format: Format,
) -> Result<bool, Memory>
    ensures { IfOk result (λ same. same ≡ pointwise same_listed nodes.now (map (listed_in format) directory.now.nodes)) }
{
    let live = directory.live(alloc)?;
    Ok(are_same(nodes, live.as_slice(), format))
}

/// The directory of the floor alone. `Unsound` only if the checkpoint isn't sound.
pub(crate) fn floor_directory(
    alloc: Global,
    checkpoint: CheckpointRef<'_>,
    format: Format,
) -> Result<Directory, CheckFault>
    requires read { IsReadStanding (standing_lent checkpoint) }
    requires spelled { AllByRecursion (λ n. IsName n.0 × IsNode format n.1 × (n.2 < 2 ^ 64)) checkpoint.nodes.now }
    requires numbered { list_all (has_numbers checkpoint.floor checkpoint.head) checkpoint.nodes.now ≡ true }
    ensures begun { IfOk result (λ d. standing_in format d ≡ standing_by checkpoint.entry.floor (standing_lent checkpoint.entry)) }
    ensures unsound { result ≡ Err CheckFault.Unsound → IsSound format (standing_lent checkpoint.entry) → ⊥ }
{
    let CheckpointRef {
        base,
        floor,
        roots,
        ..
    } = checkpoint;
    let count = count_by_version(checkpoint.nodes, floor);
    let own = &checkpoint.nodes[..count];
    let snapshot = snapshot_of(alloc, floor, own, format)?;
    snapshot.know();
    let place = (floor - base) as usize;
    if snapshot.count() > MOST_ENTRIES {
        return Err(CheckFault::Unsound);
    }
    if snapshot.root() != roots[place] {
        return Err(CheckFault::Unsound);
    }
    let directory = Directory::of(alloc, base, &roots[..place], snapshot)?;
    directory.know();
    if !are_nodes_of(alloc, &directory, own, format)? {
        return Err(CheckFault::Unsound);
    }
    Ok(directory)
}
