// The nodes that a landing made stale, by themselves, and all nodes of a snapshot.
ghost use Rattle.std.specs.Prelude.{◌≡◌, ◌++◌, ◌<◌, length, map, take, OnOk, OnErr};
ghost use Rattle.std.specs.Option.{option_copied};
ghost use Rattle.jf_model.specs.Nodes.{nodes};
ghost use Rattle.jf_model.specs.Walk.{with_root};
ghost use Rattle.jf_node.specs.Children.{content};
ghost use Rattle.jf_diff.specs.Below.{IsStaleBelow, from_node, listed_below};
ghost use Rattle.jf_diff.specs.Gone.{IsLaterSnapshot, gone_node_below, gone_node_in, gone_nodes, gone_node_under};
ghost use Rattle.jf_diff.specs.OptionalNodes.{IsAtDepth, IsOfVersion};
ghost use Rattle.jf_diff.specs.Tops.{IsStaleUnder};

use crate::child::{child_in, child_of, is_kept};
use crate::plain_node::plain_of;
use crate::top::top_name;
use jf_node::{Link, Snapshot};
use jf_path::{Memory, Nibble, NibblePath, NodeName, PlainNode};
use std::alloc::Global;

/// Appends the nodes from `old` down that a landing made stale, each with the version of the landing: none if the node
/// `new`, which stands in its place, was there before; and otherwise `old` first. `path` leads to it.
#[cycle(gone)]
fn list_gone(
    alloc: Global,
    old: &Link,
    new: Option<&Link>,
    version: u64,
    path: &NibblePath,
    out: &mut Vec<(NodeName, PlainNode, u64)>,
) -> Result<(), Memory>
    requires path { length path.now ≡ old.now.depth }
    requires new { IsAtDepth old.now.depth (option_copied new) }
    ensures front { take (length out.old.items) out.new.items ≡ out.old.items }
    ensures kept { OnOk result (¬ IsOfVersion version (option_copied new.entry) → out.new.items ≡ out.old.items) }
    ensures listed { OnOk result (IsOfVersion version (option_copied new.entry) → IsStaleBelow version old.now (option_copied new.entry) → out.new.items ≡ out.old.items ++ from_node old.now.depth (content (option_copied new.entry)) old.now.entries (gone_node_below version path.now old.now)) }
{
    if is_kept(new, version) {
        return Ok(());
    }
    old.know();
    let plain = plain_of(alloc, old)?;
    let name = NodeName {
        version: old.version(),
        path: *path,
    };
    out.push((name, plain, version))?;
    for n in 0..16 {
        list_gone_at(alloc, old, new, version, path, Nibble::of(n), out)?;
    }
    Ok(())
}

/// Appends the nodes that a landing made stale from the child of `old` at nibble `n` down; `new` stands in the place of
/// `old`, and `path` leads to it.
#[cycle(gone)]
fn list_gone_at(
    alloc: Global,
    old: &Link,
    new: Option<&Link>,
    version: u64,
    path: &NibblePath,
    n: Nibble,
    out: &mut Vec<(NodeName, PlainNode, u64)>,
) -> Result<(), Memory>
    requires path { length path.now ≡ old.now.depth }
    requires new { IsAtDepth old.now.depth (option_copied new) }
    ensures front { take (length out.old.items) out.new.items ≡ out.old.items }
    ensures listed { OnOk result (IsStaleBelow version old.now (option_copied new.entry) → out.new.items ≡ out.old.items ++ listed_below old.now.depth n (content (option_copied new.entry)) old.now.entries (gone_node_below version path.now old.now)) }
{
    match child_of(old, n) {
        None => Ok(()),
        Some(child) => {
            list_gone(alloc, child, child_in(new, n), version, &path.child(n), out)?;
            Ok(())
        }
    }
}

/// Appends the nodes of the version `head`, whose top is `old`, that the landing of `version` made stale: at least the old
/// top. If memory runs out, some of them may stand after what was there.
fn list_gone_from(
    alloc: Global,
    old: Option<&Link>,
    head: u64,
    top: Option<&Link>,
    version: u64,
    out: &mut Vec<(NodeName, PlainNode, u64)>,
) -> Result<(), Memory>
    requires old { IsAtDepth 0 (option_copied old) }
    requires top { IsAtDepth 0 (option_copied top) }
    requires own { IsOfVersion version (option_copied top) }
    requires landed { IsStaleUnder version (option_copied old) (option_copied top) }
    ensures front { take (length out.old.items) out.new.items ≡ out.old.items }
    ensures listed { OnOk result (out.new.items ≡ out.old.items ++ with_root (content (option_copied top.entry)) (content (option_copied old.entry)) (gone_node_under version head (option_copied old.entry))) }
{
    match old {
        None => {
            out.push((top_name(head), PlainNode::Null, version))?;
            Ok(())
        }
        Some(link) => {
            link.know();
            list_gone(alloc, link, top, version, &NibblePath::empty(), out)?;
            Ok(())
        }
    }
}

/// As `list_gone_from`; but if memory runs out, the list is unchanged.
fn list_gone_under(
    alloc: Global,
    old: Option<&Link>,
    head: u64,
    top: Option<&Link>,
    version: u64,
    out: &mut Vec<(NodeName, PlainNode, u64)>,
) -> Result<(), Memory>
    requires old { IsAtDepth 0 (option_copied old) }
    requires top { IsAtDepth 0 (option_copied top) }
    requires own { IsOfVersion version (option_copied top) }
    requires landed { IsStaleUnder version (option_copied old) (option_copied top) }
    ensures listed { OnOk result (out.new.items ≡ out.old.items ++ with_root (content (option_copied top.entry)) (content (option_copied old.entry)) (gone_node_under version head (option_copied old.entry))) }
    ensures err { OnErr result (out.new.items ≡ out.old.items) }
{
    let before = out.len();
    match list_gone_from(alloc, old, head, top, version, out) {
        Ok(()) => Ok(()),
        Err(Memory) => {
            out.truncate(before);
            Err(Memory)
        }
    }
}

/// Appends the nodes of `old` that the landing of `new` over it made stale, each with its name there and with the version
/// of `new`. If memory runs out, the list is unchanged.
pub fn list_stale_nodes(
    alloc: Global,
    old: &Snapshot,
    new: &Snapshot,
    out: &mut Vec<(NodeName, PlainNode, u64)>,
) -> Result<(), Memory>
    requires later { IsLaterSnapshot old.now new.now }
    ensures listed { OnOk result (out.new.items ≡ out.old.items ++ gone_nodes old.now.map new.now.map old.now new.now.version) }
    ensures err { OnErr result (out.new.items ≡ out.old.items) }
{
    old.know();
    list_gone_under(
        alloc,
        old.top(),
        old.version(),
        new.top(),
        new.version(),
        out,
    )?;
    Ok(())
}

/// Appends all nodes of a snapshot, each with its name there and with a number that is greater than the snapshot's
/// version. If memory runs out, the list is unchanged.
pub fn list_all_nodes(
    alloc: Global,
    snapshot: &Snapshot,
    since: u64,
    out: &mut Vec<(NodeName, PlainNode, u64)>,
) -> Result<(), Memory>
    requires later { snapshot.now.version < since }
    ensures err { OnErr result (out.new.items ≡ out.old.items) }
    ensures listed { OnOk result (out.new.items ≡ out.old.items ++ map (gone_node_in snapshot.now since) (nodes snapshot.now.map)) }
{
    snapshot.know();
    let top = snapshot.top();
    list_gone_under(alloc, top, snapshot.version(), None, since, out)?;
    Ok(())
}
