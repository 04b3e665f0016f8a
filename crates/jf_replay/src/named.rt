// The node of a snapshot that has a name.
ghost use Rattle.std.specs.Prelude.{◌≡◌, ◌↔◌, IfOk, IfSome, IsTrue, OnErr, map, Some, None};
ghost use Rattle.std.specs.Option.{option_copied};
ghost use Rattle.std.specs.FinMap.{entries};
ghost use Rattle.jf_model.specs.Nodes.{under};
ghost use Rattle.jf_model.specs.ChildEntries.{sub};
ghost use Rattle.jf_node.specs.LinkValue.{link_version_at};
ghost use Rattle.jf_node.specs.Snapshots.{IsTopOf};
ghost use Rattle.jf_replay.specs.Changes.{IsNameIn, IsAtPath, sole, removal_of};

use crate::check_fault::CheckFault;
use jf_diff::child_of;
use jf_node::{Link, Seen, Snapshot};
use jf_path::{Key, NibblePath, NodeName};

/// The node at a path below a node, if there is one.
fn node_below<'a>(link: &'a Link, path: &NibblePath) -> Option<&'a Link>
    ensures { IsAtPath link.now path.now (option_copied result) }
{
    link.know();
    let mut node = link;
    for i in 0..path.len() {
        node = child_of(node, path.at(i))?;
    }
    Some(node)
}

/// The key of a leaf; `None` for any other node.
fn key_of(node: &Link) -> Option<Key>
    ensures { map (λ e. (e.0, None)) (sole node.now.entries) ≡ removal_of result }
{
    match node.view() {
        Seen::Leaf { key, .. } => Some(*key),
        Seen::Inner { .. } => None,
    }
}

/// Whether this is the name of the root of the empty map.
fn is_root_of_none(snapshot: &Snapshot, name: &NodeName) -> bool
    requires { IsTopOf snapshot.now None }
    ensures { IsTrue result ↔ IsNameIn snapshot.now name.now }
{
    name.path.len() == 0 && name.version == snapshot.version()
}

/// The node of this name below the top of a snapshot, if there is one.
fn named_below<'a>(top: &'a Link, name: &NodeName) -> Option<&'a Link>
    requires { top.now.depth ≡ 0 }
    ensures found { IfSome result (λ x. (x.now.entries ≡ sub 0 name.now.path top.now.entries) × (link_version_at name.now.path (Some top.now) ≡ Some name.now.version)) }
    ensures absent { result ≡ None → link_version_at name.now.path (Some top.now) ≡ Some name.now.version → ⊥ }
{
    match node_below(top, &name.path) {
        Some(node) if node.version() == name.version => Some(node),
        _ => None,
    }
}

/// The key of the leaf of this name; `None` if the name is that of another node of the snapshot. `Unsound` if the
/// snapshot has no node of this name.
pub(crate) fn key_at(snapshot: &Snapshot, name: &NodeName) -> Result<Option<Key>, CheckFault>
    ensures found { IfOk result (λ key. IsNameIn snapshot.now name.now × (map (λ e. (e.0, None)) (sole (under 0 name.now.path (entries snapshot.now.map))) ≡ removal_of key)) }
    ensures absent { OnErr result (IsNameIn snapshot.now name.now → ⊥) }
{
    snapshot.know();
    let Some(top) = snapshot.top() else {
        return if is_root_of_none(snapshot, name) {
            Ok(None)
        } else {
            Err(CheckFault::Unsound)
        };
    };
    match named_below(top, name) {
        Some(node) => Ok(key_of(node)),
        None => Err(CheckFault::Unsound),
    }
}
