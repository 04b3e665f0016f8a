// The names of stale nodes by the version since which they are stale.
ghost use Rattle.std.specs.Prelude.{◌≡◌, ℕ, ◌<◌, ◌++◌, ◌∷◌, [], ◌==◌, if◌then◌else◌, map, IsTrue, IfOk, OnOk};
ghost use Rattle.jf_path.specs.Names.{are_rising};
ghost use Rattle.jf_standing.specs.Named.{not_stale, stale_nodes_at};
ghost use Rattle.jf_replay.specs.Cuts.{names_beside};

use jf_path::{Memory, NameList, NodeName, PlainNode};
use std::alloc::Global;
use std::collections::BTreeMap;

/// Stands in place of the version since which a node is stale, if it isn't stale.
pub(crate) const NEVER: u64 = u64::MAX;

/// Removes the names beside a version, and returns them.
pub(crate) fn take_names(
    alloc: Global,
    by_since: &mut BTreeMap<u64, NameList>,
    since: u64,
) -> NameList
    ensures names { result ≡ names_beside since by_since.old.entries }
    ensures others { (w : ℕ) → names_beside w by_since.new.entries ≡ (if w == since then [] else names_beside w by_since.old.entries) }
{
    match by_since.remove(&since) {
        Some(names) => names,
        None => NameList::new(alloc),
    }
}

/// Adds a name beside a version, after those that are there.
fn add_name(
    alloc: Global,
    by_since: &mut BTreeMap<u64, NameList>,
    since: u64,
    name: NodeName,
) -> Result<(), Memory>
    requires { IsTrue (are_rising (names_beside since by_since.old.entries ++ name ∷ [])) }
    ensures { OnOk result ((w : ℕ) → names_beside w by_since.new.entries ≡ (if w == since then names_beside since by_since.old.entries ++ name ∷ [] else names_beside w by_since.old.entries)) }
{
    let mut names = take_names(alloc, by_since, since);
    names.push(name)?;
    by_since.insert(since, names)?;
    Ok(())
}

/// The names of the nodes that are stale, beside the versions since which they are.
pub(crate) fn names_by_since(
    alloc: Global,
    nodes: &[(NodeName, PlainNode, u64)],
) -> Result<BTreeMap<u64, NameList>, Memory>
    requires { IsTrue (are_rising (map (λ n. n.0) nodes.now)) }
    ensures { IfOk result (λ m. (w : ℕ) → w < not_stale → names_beside w m.entries ≡ map (λ n. n.0) (stale_nodes_at w nodes.now)) }
{
    let mut by_since = BTreeMap::new(alloc);
    for node in nodes {
        if node.2 < NEVER {
            add_name(alloc, &mut by_since, node.2, node.0)?;
        }
    }
    Ok(by_since)
}
