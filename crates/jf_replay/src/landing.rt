// The landings of the versions above the floor, as a checkpoint lists their nodes.
ghost use Rattle.std.specs.Prelude.{◌≡◌, ◌-◌, ◌≤◌, drop, filter, length, map, take, IsTrue, IfOk};
ghost use Rattle.jf_path.specs.Names.{are_rising};
ghost use Rattle.jf_standing.specs.Named.{written_nodes_at};
ghost use Rattle.jf_replay.specs.Cuts.{is_written_by, without_since};

use crate::copies::copy_of_node;
use jf_hash::Hash;
use jf_path::{FreshList, Memory, NameList, NodeName, PlainNode};
use jf_payload::Commit;
use std::alloc::Global;

/// The number of nodes that were written at a version or before. They stand first.
pub(crate) fn count_by_version(nodes: &[(NodeName, PlainNode, u64)], version: u64) -> usize
    requires { IsTrue (are_rising (map (λ n. n.0) nodes.now)) }
    ensures within { result ≤ length nodes.now }
    ensures front { take result nodes.now ≡ filter (is_written_by version) nodes.now }
{
    nodes.partition_point(|node| node.0.version <= version)
}

/// The place of the first node that was written at a version, and the one after the last.
fn places_of(nodes: &[(NodeName, PlainNode, u64)], version: u64) -> (usize, usize)
    requires sorted { IsTrue (are_rising (map (λ n. n.0) nodes.now)) }
    requires positive { 1 ≤ version }
    ensures order { result.0 ≤ result.1 }
    ensures within { result.1 ≤ length nodes.now }
    ensures written { take (result.1 - result.0) (drop result.0 nodes.now) ≡ written_nodes_at version nodes.now }
{
    let start = count_by_version(nodes, version - 1);
    let end = count_by_version(nodes, version);
    (start, end)
}

/// The nodes that were written at a version.
fn nodes_of_version(
    nodes: &[(NodeName, PlainNode, u64)],
    version: u64,
) -> &[(NodeName, PlainNode, u64)]
    requires sorted { IsTrue (are_rising (map (λ n. n.0) nodes.now)) }
    requires positive { 1 ≤ version }
    ensures { result.now ≡ written_nodes_at version nodes.now }
{
    let (start, end) = places_of(nodes, version);
    &nodes[start..end]
}

/// A copy of nodes with their names.
fn fresh_list(alloc: Global, nodes: &[(NodeName, PlainNode, u64)]) -> Result<FreshList, Memory>
    requires { IsTrue (are_rising (map (λ n. n.0) nodes.now)) }
    ensures { IfOk result (λ l. l ≡ map without_since nodes.now) }
{
    let mut list = FreshList::new(alloc);
    for node in nodes {
        let copy = copy_of_node(alloc, &node.1)?;
        list.push((node.0, copy))?;
    }
    Ok(list)
}

/// The landing of a version, by its root, all nodes, and the names of those that are stale since then.
pub(crate) fn landing_in(
    alloc: Global,
    nodes: &[(NodeName, PlainNode, u64)],
    version: u64,
    root: &Hash,
    stale: NameList,
) -> Result<Commit, Memory>
    requires sorted { IsTrue (are_rising (map (λ n. n.0) nodes.now)) }
    requires positive { 1 ≤ version }
    ensures { IfOk result (λ c. c ≡ record { version = version; root = root.now; fresh = map without_since (written_nodes_at version nodes.now); stale = stale }) }
{
    let fresh = fresh_list(alloc, nodes_of_version(nodes, version))?;
    Ok(Commit {
        version,
        root: *root,
        fresh,
        stale,
    })
}
