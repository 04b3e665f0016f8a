// A snapshot built anew from the entries of its map and the versions of its nodes, which stand in the order of the
// nodes' paths. A node takes the next version for itself, and then its children take theirs, in the order of nibbles.
ghost use Rattle.std.specs.Prelude.{◌≡◌, ℕ, ◌<◌, ◌≤◌, ◌+◌, [], Err, IfOk, T, slice_index_or, length, map, true, false};
ghost use Rattle.std.specs.FinMap.{is_sorted};
ghost use Rattle.std.specs.List.{AllByRecursion};
ghost use Rattle.jf_path.specs.Keys.{key_cmp};
ghost use Rattle.jf_path.specs.Limits.{max_value};
ghost use Rattle.jf_hash.specs.Hashes.{V};
ghost use Rattle.jf_hash.specs.Maps.{map_of_entries};
ghost use Rattle.jf_model.specs.Nodes.{nodes};
ghost use Rattle.jf_model.specs.Parts.{IsPartUnder};
ghost use Rattle.jf_node.specs.Children.{leaf_value};
ghost use Rattle.jf_update.specs.Restored.{AreShortEntries, AreNodeVersions, IsNewestFirst, IsRestored, IsRestoredPart, AreRestored, part_nodes, nodes_under};
ghost use Rattle.jf_update.specs.declared.restore.RebuildFault.TheVariants as fault;

use crate::piece::piece_end;
use jf_hash::Hash;
use jf_node::{Link, Sixteen, Snapshot};
use jf_path::{Key, Memory, Nibble, SharedBytes, know_entries};
use std::alloc::Global;

/// Why no snapshot is built.
#[derive(Clone, Copy, Debug, PartialEq, Eq)]
pub enum RebuildFault {
    /// The versions can't be those of the nodes: there are too few or too many, the first isn't the snapshot's, or one
    /// is greater.
    Versions,
    /// Out of memory.
    Memory,
}

impl From<Memory> for RebuildFault {
    ghost from_gives = { λ _ e. e ≡ fault.Memory };

    fn from(_: Memory) -> Self {
        RebuildFault::Memory
    }
}

/// The snapshot of these entries as the map of `version`. `hashes` has the hash of each value, and `versions` the
/// version that wrote each node, in the order of the nodes' paths.
pub fn restored_snapshot(
    alloc: Global,
    version: u64,
    entries: &[(Key, SharedBytes)],
    hashes: &[Hash],
    versions: &[u64],
) -> Result<Snapshot, RebuildFault>
    requires sorted { T (is_sorted key_cmp entries.now) }
    requires short { AreShortEntries entries.now }
    requires hashed { hashes.now ≡ map (λ e. V e.1) entries.now }
    ensures restored { IfOk result (IsRestored version entries.now versions.now) }
    ensures refused { result ≡ Err fault.Versions → ¬ (AreNodeVersions version (nodes (map_of_entries entries.now)) versions.now) }
{
    know_entries(entries);
    if !is_newest_first(version, versions) {
        return Err(RebuildFault::Versions);
    }
    if entries.is_empty() {
        return restored_empty(version, versions);
    }
    let mut taken = 0;
    let top = restored_part(alloc, entries, hashes, versions, 0, &mut taken)?;
    if taken != versions.len() {
        return Err(RebuildFault::Versions);
    }
    Link::know_if(&top);
    Ok(Snapshot::of(version, top))
}

/// Whether the first version is this one, and none is greater.
fn is_newest_first(version: u64, versions: &[u64]) -> bool
    ensures yes { result ≡ true → IsNewestFirst version versions.now }
    ensures no { result ≡ false → ¬ (IsNewestFirst version versions.now) }
{
    match versions.first() {
        None => false,
        Some(first) => *first == version && is_none_greater(version, versions),
    }
}

/// Whether no version is greater than this one.
fn is_none_greater(version: u64, versions: &[u64]) -> bool
    ensures yes { result ≡ true → AllByRecursion (λ v. v ≤ version) versions.now }
    ensures no { result ≡ false → ¬ (AllByRecursion (λ v. v ≤ version) versions.now) }
{
    for written in versions {
        if *written > version {
            return false;
        }
    }
    true
}

/// The snapshot of no entry. The empty map has one node, the root.
fn restored_empty(version: u64, versions: &[u64]) -> Result<Snapshot, RebuildFault>
    requires { IsNewestFirst version versions.now }
    ensures restored { IfOk result (IsRestored version [] versions.now) }
    ensures refused { result ≡ Err fault.Versions → ¬ (AreNodeVersions version (nodes (map_of_entries [])) versions.now) }
{
    if versions.len() == 1 {
        Ok(Snapshot::empty(version))
    } else {
        Err(RebuildFault::Versions)
    }
}

/// Takes the next version.
fn take_version(versions: &[u64], taken: &mut usize) -> Result<u64, RebuildFault>
    ensures taken { IfOk result (λ v. (taken.old < length versions.now) × (v ≡ slice_index_or versions.now taken.old 0) × (taken.new ≡ taken.old + 1)) }
    ensures refused { result ≡ Err fault.Versions → length versions.now ≤ taken.old }
{
    let at = *taken;
    if at < versions.len() {
        *taken = at + 1;
        Ok(versions[at])
    } else {
        Err(RebuildFault::Versions)
    }
}

/// A leaf of one entry, with the hash of its value.
fn leaf_of(
    alloc: Global,
    version: u64,
    depth: u64,
    key: &Key,
    value: &SharedBytes,
    value_hash: &Hash,
) -> Result<Link, Memory>
    requires depth { depth ≤ 64 }
    requires short { length value.now ≤ max_value }
    requires hashed { value_hash.now ≡ V value.now }
    ensures { IfOk result (λ x. x ≡ leaf_value version depth key.now value.now) }
{
    Link::leaf(alloc, version, depth, key, value, value_hash)
}

/// The node of entries in the order of their keys, at a depth in nibbles, if there are any. `taken` counts the versions
/// that are taken.
#[cycle(restored_snapshot)]
fn restored_part(
    alloc: Global,
    entries: &[(Key, SharedBytes)],
    hashes: &[Hash],
    versions: &[u64],
    depth: u64,
    taken: &mut usize,
) -> Result<Option<Link>, RebuildFault>
    requires depth { depth ≤ 64 }
    requires part { (path : ℕ → ℕ) × IsPartUnder depth path entries.now }
    requires short { AreShortEntries entries.now }
    requires hashed { hashes.now ≡ map (λ e. V e.1) entries.now }
    ensures restored { IfOk result (IsRestoredPart depth entries.now versions.now taken.old taken.new) }
    ensures refused { result ≡ Err fault.Versions → length versions.now < taken.old + length (part_nodes depth entries.now) }
{
    match entries {
        [] => Ok(None),
        [(key, value)] => {
            let version = take_version(versions, taken)?;
            let link = leaf_of(alloc, version, depth, key, value, &hashes[0])?;
            Ok(Some(link))
        }
        _ => {
            let version = take_version(versions, taken)?;
            let children = restored_children(alloc, entries, hashes, versions, depth, taken)?;
            let link = Link::inner(alloc, version, depth, children)?;
            Ok(Some(link))
        }
    }
}

/// The children of the node of entries in the order of their keys, one nibble deeper than the node.
#[cycle(restored_snapshot)]
fn restored_children(
    alloc: Global,
    entries: &[(Key, SharedBytes)],
    hashes: &[Hash],
    versions: &[u64],
    depth: u64,
    taken: &mut usize,
) -> Result<Sixteen, RebuildFault>
    requires depth { depth < 64 }
    requires part { (path : ℕ → ℕ) × IsPartUnder depth path entries.now }
    requires short { AreShortEntries entries.now }
    requires hashed { hashes.now ≡ map (λ e. V e.1) entries.now }
    requires within { taken.old ≤ length versions.now }
    ensures restored { IfOk result (AreRestored depth entries.now versions.now taken.old taken.new) }
    ensures refused { result ≡ Err fault.Versions → length versions.now < taken.old + length (nodes_under depth entries.now) }
{
    let mut children = Sixteen::none();
    let mut start = 0;
    for n in 0..16 {
        let nibble = Nibble::of(n);
        let end = start + piece_end(&entries[start..], depth, nibble);
        let child = restored_part(
            alloc,
            &entries[start..end],
            &hashes[start..end],
            versions,
            depth + 1,
            taken,
        )?;
        children.set(nibble, child);
        start = end;
    }
    Ok(children)
}
