// A snapshot is built anew from the entries of its map and the versions of its nodes.
ghost use Rattle.std.specs.Prelude.{◌≡◌, Err, IfOk, T, map};
ghost use Rattle.std.specs.FinMap.{is_sorted};
ghost use Rattle.jf_path.specs.Keys.{key_cmp};
ghost use Rattle.jf_hash.specs.Hashes.{V};
ghost use Rattle.jf_hash.specs.Maps.{map_of_entries};
ghost use Rattle.jf_model.specs.Nodes.{nodes};
ghost use Rattle.jf_update.specs.Restored.{AreNodeVersions, AreShortEntries, IsRestored};

use jf_hash::Hash;
use jf_node::Snapshot;
use jf_path::{Key, Memory, SharedBytes};
use jf_update::{RebuildFault, restored_snapshot};
use std::alloc::Global;

/// The snapshot of these entries as the map of `version`. `versions` has the version that wrote each node, in the order
/// of the nodes' paths. Refused with `Versions` if they can't be those of the nodes of this map.
pub fn restored_from(
    alloc: Global,
    version: u64,
    entries: &[(Key, SharedBytes)],
    versions: &[u64],
) -> Result<Snapshot, RebuildFault>
    requires sorted { T (is_sorted key_cmp entries.now) }
    requires short { AreShortEntries entries.now }
    ensures restored { IfOk result (IsRestored version entries.now versions.now) }
    ensures refused { result ≡ Err RebuildFault.Versions → ¬ (AreNodeVersions version (nodes (map_of_entries entries.now)) versions.now) }
{
    let hashes = hashes_of(alloc, entries)?;
    restored_snapshot(alloc, version, entries, &hashes, versions)
}

/// The hash of each value.
fn hashes_of(alloc: Global, entries: &[(Key, SharedBytes)]) -> Result<Vec<Hash>, Memory>
    ensures { IfOk result (λ v. v.items ≡ map (λ e. V e.1) entries.now) }
{
    let mut hashes = Vec::with_capacity(alloc, entries.len())?;
    for entry in entries {
        hashes.push(jf_hash::value(entry.1.as_slice()))?;
    }
    Ok(hashes)
}
