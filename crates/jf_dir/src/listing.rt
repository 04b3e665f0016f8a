// All nodes of a directory, in the order of their names: those of the head, and what each landing made stale.
ghost use Rattle.std.specs.Prelude.{◌≡◌, ◌+◌, ◌<◌, ◌≤◌, [], map, IfOk, OnOk};
ghost use Rattle.jf_standing.specs.Building.{as_named, nodes_by_name};
ghost use Rattle.jf_dir.specs.Listing.{AreListedTo};

use crate::directory::Directory;
use jf_diff::{list_all_nodes, list_stale_nodes};
use jf_path::{LiveList, Memory, NodeName, PlainNode};
use std::alloc::Global;
use std::collections::BTreeMap;

/// All nodes of a directory, in the order of their names.
pub(crate) fn nodes_in_order(alloc: Global, directory: &Directory) -> Result<LiveList, Memory>
    ensures { IfOk result (λ l. l ≡ directory.now.nodes) }
{
    directory.know();
    let nodes = node_list(alloc, directory)?;
    let list = nodes_by_name(alloc, nodes)?;
    Ok(list)
}

/// All nodes of a directory: those of the head, and then those that each landing made stale.
fn node_list(
    alloc: Global,
    directory: &Directory,
) -> Result<Vec<(NodeName, PlainNode, u64)>, Memory>
    ensures { IfOk result (λ v. AreListedTo directory.now directory.now.head v.items) }
{
    let mut nodes = Vec::new(alloc);
    list_head(alloc, directory, &mut nodes)?;
    directory.know();
    for version in directory.floor()..directory.head() {
        list_stale_at(alloc, directory, version, &mut nodes)?;
    }
    Ok(nodes)
}

/// Appends the nodes of the head to an empty list.
fn list_head(
    alloc: Global,
    directory: &Directory,
    out: &mut Vec<(NodeName, PlainNode, u64)>,
) -> Result<(), Memory>
    requires empty { out.old.items ≡ [] }
    ensures { OnOk result (AreListedTo directory.now directory.now.floor out.new.items) }
{
    directory.know();
    list_all_nodes(alloc, directory.newest(), u64::MAX, out)?;
    Ok(())
}

/// Appends the nodes that the landing after `version` made stale.
fn list_stale_at(
    alloc: Global,
    directory: &Directory,
    version: u64,
    out: &mut Vec<(NodeName, PlainNode, u64)>,
) -> Result<(), Memory>
    requires low { directory.now.floor ≤ version }
    requires high { version < directory.now.head }
    requires listed { AreListedTo directory.now version out.old.items }
    ensures { OnOk result (AreListedTo directory.now (version + 1) out.new.items) }
{
    directory.know();
    match (directory.at(version), directory.at(version + 1)) {
        (Some(old), Some(new)) => {
            old.know();
            new.know();
            list_stale_nodes(alloc, old, new, out)?;
            Ok(())
        }
        _ => unreachable!(),
    }
}

/// Nodes in the order of their names; of those with one name the first.
fn nodes_by_name(
    alloc: Global,
    mut nodes: Vec<(NodeName, PlainNode, u64)>,
) -> Result<LiveList, Memory>
    ensures { IfOk result (λ l. l ≡ nodes_by_name nodes.items) }
{
    let mut ordered = BTreeMap::new(alloc);
    while let Some((name, node, since)) = nodes.pop() {
        ordered.insert(name, (node, since))?;
    }
    list_of(alloc, ordered)
}

/// The nodes of a map, in the order of their names.
fn list_of(alloc: Global, ordered: BTreeMap<NodeName, (PlainNode, u64)>) -> Result<LiveList, Memory>
    ensures { IfOk result (λ l. l ≡ map as_named ordered.entries) }
{
    let mut list = LiveList::new(alloc);
    for (name, (node, since)) in ordered {
        list.push((name, node, since))?;
    }
    Ok(list)
}
