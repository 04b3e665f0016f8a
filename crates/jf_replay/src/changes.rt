// The changes that are read off a landing, in the order of their keys.
ghost use Rattle.std.specs.Prelude.{◌≡◌, [], map, Some, None, IfOk, OnOk, Err};
ghost use Rattle.std.specs.List.{AllByRecursion};
ghost use Rattle.jf_standing.specs.Named.{leaf_entries};
ghost use Rattle.jf_standing.specs.Standing.{unmarked_node};
ghost use Rattle.jf_replay.specs.Changes.{IsNameIn, leaves_at, changes_by, put_each};

use crate::check_fault::CheckFault;
use crate::named::key_at;
use jf_node::Snapshot;
use jf_path::{Key, Memory, NodeName, PlainNode, SharedBytes};
use std::alloc::Global;
use std::collections::BTreeMap;

/// The removals of the keys of those nodes, by their names in a snapshot, that are leaves. `Unsound` if the snapshot has
/// no node of one of the names.
fn removals(
    alloc: Global,
    snapshot: &Snapshot,
    names: &[NodeName],
) -> Result<BTreeMap<Key, Option<SharedBytes>>, CheckFault>
    ensures found { IfOk result (λ changes. changes.entries ≡ put_each (map (λ e. (e.0, None)) (leaves_at snapshot.now.map names.now)) []) }
    ensures unsound { result ≡ Err CheckFault.Unsound → AllByRecursion (IsNameIn snapshot.now) names.now → ⊥ }
{
    let mut changes = BTreeMap::new(alloc);
    for name in names.iter().rev() {
        if let Some(key) = key_at(snapshot, name)? {
            changes.insert(key, None)?;
        }
    }
    Ok(changes)
}

/// The entries of the leaves in a list of nodes.
pub(crate) fn leaves_in(
    alloc: Global,
    nodes: &[(NodeName, PlainNode)],
) -> Result<Vec<(Key, SharedBytes)>, Memory>
    ensures { IfOk result (λ v. v.items ≡ leaf_entries (map unmarked_node nodes.now)) }
{
    let mut leaves = Vec::new(alloc);
    for node in nodes {
        if let PlainNode::Leaf { key, value } = &node.1 {
            let value = SharedBytes::copy_of(alloc, value.as_slice())?;
            leaves.push((*key, value))?;
        }
    }
    Ok(leaves)
}

/// Puts each of some leaves; of two of one key the first.
fn put_leaves(
    changes: &mut BTreeMap<Key, Option<SharedBytes>>,
    leaves: &[(Key, SharedBytes)],
) -> Result<(), Memory>
    ensures { OnOk result (changes.new.entries ≡ put_each (map (λ e. (e.0, Some e.1)) leaves.now) changes.old.entries) }
{
    for leaf in leaves.iter().rev() {
        let value = leaf.1.share()?;
        changes.insert(leaf.0, Some(value))?;
    }
    Ok(())
}

/// Changes as a list, in the order of their keys.
fn list_of(
    alloc: Global,
    changes: BTreeMap<Key, Option<SharedBytes>>,
) -> Result<Vec<(Key, Option<SharedBytes>)>, Memory>
    ensures { IfOk result (λ v. v.items ≡ changes.entries) }
{
    let mut list = Vec::with_capacity(alloc, changes.len())?;
    for (key, value) in changes {
        list.push((key, value))?;
    }
    Ok(list)
}

/// The changes that are read off the leaves of a landing and the names that it marks stale, on the map of a snapshot:
/// leaves are put, and the keys of stale leaves are removed unless a leaf has them. `Unsound` if the snapshot has no node of
/// one of the names.
pub(crate) fn changes_in(
    alloc: Global,
    snapshot: &Snapshot,
    leaves: &[(Key, SharedBytes)],
    stale: &[NodeName],
) -> Result<Vec<(Key, Option<SharedBytes>)>, CheckFault>
    ensures found { IfOk result (λ v. v.items ≡ changes_by snapshot.now.map leaves.now stale.now) }
    ensures unsound { result ≡ Err CheckFault.Unsound → AllByRecursion (IsNameIn snapshot.now) stale.now → ⊥ }
{
    let mut changes = removals(alloc, snapshot, stale)?;
    put_leaves(&mut changes, leaves)?;
    let list = list_of(alloc, changes)?;
    Ok(list)
}
