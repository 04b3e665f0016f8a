// Walks that list, in the order of paths, the nodes that an update wrote and those that it made stale.
ghost use Rattle.std.specs.Prelude.{◌≡◌, ℕ, ◌+◌, ◌++◌, Option, length, OnOk};
ghost use Rattle.std.specs.Option.{option_copied};
ghost use Rattle.jf_hash.specs.Slots.{Part};
ghost use Rattle.jf_model.specs.Nodes.{Path};
ghost use Rattle.jf_node.specs.Children.{content};
ghost use Rattle.jf_diff.specs.Below.{IsFreshBelow, IsStaleBelow, from_node, listed_below, name_below};
ghost use Rattle.jf_diff.specs.OptionalNodes.{IsAtDepth, IsOfVersion};
ghost use Rattle.jf_diff.specs.Plains.{fresh_below};

use crate::child::{child_in, child_of, is_kept};
use crate::shared_nodes::SharedNodes;
use jf_node::Link;
use jf_path::{Memory, Nibble, NibblePath, NodeName};
use jf_steps::Steps;
use std::sync::ledger::Ledger;

/// Appends the nodes from `link` down that a landing wrote; `path` leads to it. It has the version of the landing, and so
/// is the first of them. A step is a node gone into, here and below: as many as are listed.
#[cycle(fresh)]
pub(crate) fn list_fresh<L: Ledger>(
    link: &Link,
    version: u64,
    path: &NibblePath,
    out: &mut SharedNodes,
    steps: &mut Steps<L>,
) -> Result<(), Memory>
    requires path { length path.now ≡ link.now.depth }
    requires own { link.now.version ≡ version }
    ensures lists { OnOk result ((es : Part) (before : Path → Option ℕ) → IsFreshBelow version es before link.now → out.new ≡ out.old ++ from_node link.now.depth es link.now.entries (fresh_below version path.now link.now)) }
    ensures cost { OnOk result (steps.new + length out.old ≡ steps.old + length out.new) }
{
    steps.tick();
    link.know();
    let name = NodeName {
        version,
        path: *path,
    };
    out.push(name, Some(link))?;
    if link.count() == 1 {
        return Ok(());
    }
    for n in 0..16 {
        list_fresh_at(link, version, path, Nibble::of(n), out, steps)?;
    }
    Ok(())
}

/// Appends the nodes that a landing wrote from the child of `link` at nibble `n` down; `path` leads to `link`.
#[cycle(fresh)]
pub(crate) fn list_fresh_at<L: Ledger>(
    link: &Link,
    version: u64,
    path: &NibblePath,
    n: Nibble,
    out: &mut SharedNodes,
    steps: &mut Steps<L>,
) -> Result<(), Memory>
    requires path { length path.now ≡ link.now.depth }
    ensures lists { OnOk result ((es : Part) (before : Path → Option ℕ) → IsFreshBelow version es before link.now → out.new ≡ out.old ++ listed_below link.now.depth n es link.now.entries (fresh_below version path.now link.now)) }
    ensures cost { OnOk result (steps.new + length out.old ≡ steps.old + length out.new) }
{
    match child_of(link, n) {
        None => Ok(()),
        Some(child) => {
            if child.version() != version {
                return Ok(());
            }
            list_fresh(child, version, &path.child(n), out, steps)?;
            Ok(())
        }
    }
}

/// Appends the names of the nodes from `old` down that a landing made stale; `path` leads to it. The node `new`, which
/// stands in its place, has the version of the landing, if there is one, and so `old` is the first of them. A step is a node
/// gone into, as in `list_fresh`.
#[cycle(stale)]
pub(crate) fn list_stale<L: Ledger>(
    old: &Link,
    new: Option<&Link>,
    version: u64,
    path: &NibblePath,
    out: &mut Vec<NodeName>,
    steps: &mut Steps<L>,
) -> Result<(), Memory>
    requires path { length path.now ≡ old.now.depth }
    requires new { IsAtDepth old.now.depth (option_copied new) }
    requires own { IsOfVersion version (option_copied new) }
    ensures lists { OnOk result (IsStaleBelow version old.now (option_copied new.entry) → out.new.items ≡ out.old.items ++ from_node old.now.depth (content (option_copied new.entry)) old.now.entries (name_below path.now old.now)) }
    ensures cost { OnOk result (steps.new + length out.old.items ≡ steps.old + length out.new.items) }
{
    steps.tick();
    old.know();
    out.push(NodeName {
        version: old.version(),
        path: *path,
    })?;
    if old.count() == 1 {
        return Ok(());
    }
    for n in 0..16 {
        list_stale_at(old, new, version, path, Nibble::of(n), out, steps)?;
    }
    Ok(())
}

/// Appends the names of the nodes that a landing made stale from the child of `old` at nibble `n` down; `new` stands in
/// the place of `old`, and `path` leads to it.
#[cycle(stale)]
pub(crate) fn list_stale_at<L: Ledger>(
    old: &Link,
    new: Option<&Link>,
    version: u64,
    path: &NibblePath,
    n: Nibble,
    out: &mut Vec<NodeName>,
    steps: &mut Steps<L>,
) -> Result<(), Memory>
    requires path { length path.now ≡ old.now.depth }
    requires new { IsAtDepth old.now.depth (option_copied new) }
    ensures lists { OnOk result (IsStaleBelow version old.now (option_copied new.entry) → out.new.items ≡ out.old.items ++ listed_below old.now.depth n (content (option_copied new.entry)) old.now.entries (name_below path.now old.now)) }
    ensures cost { OnOk result (steps.new + length out.old.items ≡ steps.old + length out.new.items) }
{
    match child_of(old, n) {
        None => Ok(()),
        Some(child) => {
            let there = child_in(new, n);
            if is_kept(there, version) {
                return Ok(());
            }
            list_stale(child, there, version, &path.child(n), out, steps)?;
            Ok(())
        }
    }
}
