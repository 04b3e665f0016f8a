// What is read off the nodes of a floor: the entries of its map, and the versions of its nodes.
ghost use Rattle.std.specs.Prelude.{◌≡◌, map, IfOk};
ghost use Rattle.jf_split.specs.KeyOrder.{in_key_order};
ghost use Rattle.jf_replay.specs.Floors.{entries_in, path_and_version, versions_by_path};

use jf_path::{Key, Memory, NibblePath, NodeName, PlainNode, SharedBytes};
use std::alloc::Global;
use std::collections::BTreeMap;

/// The entries of leaves in a tree; of two leaves of one key the first.
fn leaves_of(
    alloc: Global,
    nodes: &[(NodeName, PlainNode, u64)],
) -> Result<BTreeMap<Key, SharedBytes>, Memory>
    ensures { IfOk result (λ m. m.entries ≡ entries_in nodes.now) }
{
    let mut entries = BTreeMap::new(alloc);
    for i in (0..nodes.len()).rev() {
        if let PlainNode::Leaf { key, value } = &nodes[i].1 {
            let value = SharedBytes::copy_of(alloc, value.as_slice())?;
            entries.insert(*key, value)?;
        }
    }
    Ok(entries)
}

/// The entries of a tree as a list.
fn list_of(
    alloc: Global,
    entries: BTreeMap<Key, SharedBytes>,
) -> Result<Vec<(Key, SharedBytes)>, Memory>
    ensures { IfOk result (λ v. v.items ≡ entries.entries) }
{
    let mut list = Vec::with_capacity(alloc, entries.len())?;
    for (key, value) in entries {
        list.push((key, value))?;
    }
    Ok(list)
}

/// The entries of leaves, in the order of their keys.
pub(crate) fn entries_of(
    alloc: Global,
    nodes: &[(NodeName, PlainNode, u64)],
) -> Result<Vec<(Key, SharedBytes)>, Memory>
    ensures { IfOk result (λ v. v.items ≡ entries_in nodes.now) }
{
    let entries = leaves_of(alloc, nodes)?;
    list_of(alloc, entries)
}

/// The versions of nodes beside their paths in a tree.
fn paths_of(
    alloc: Global,
    nodes: &[(NodeName, PlainNode, u64)],
) -> Result<BTreeMap<NibblePath, u64>, Memory>
    ensures { IfOk result (λ m. m.entries ≡ in_key_order (map path_and_version nodes.now)) }
{
    let mut versions = BTreeMap::new(alloc);
    for i in (0..nodes.len()).rev() {
        let node = &nodes[i];
        versions.insert(node.0.path, node.0.version)?;
    }
    Ok(versions)
}

/// The versions in a tree, in the order of their paths.
fn values_of(alloc: Global, versions: BTreeMap<NibblePath, u64>) -> Result<Vec<u64>, Memory>
    ensures { IfOk result (λ v. v.items ≡ map (λ e. e.1) versions.entries) }
{
    let mut list = Vec::with_capacity(alloc, versions.len())?;
    for (_, version) in versions {
        list.push(version)?;
    }
    Ok(list)
}

/// The versions of nodes, in the order of their paths.
pub(crate) fn versions_by_path(
    alloc: Global,
    nodes: &[(NodeName, PlainNode, u64)],
) -> Result<Vec<u64>, Memory>
    ensures { IfOk result (λ v. v.items ≡ versions_by_path nodes.now) }
{
    let versions = paths_of(alloc, nodes)?;
    values_of(alloc, versions)
}
