// Nodes by themselves, as they are written: without the children that they share.
ghost use Rattle.std.specs.Prelude.{◌≡◌, ◌≤◌, [], length, IfOk, OnOk};
ghost use Rattle.jf_node.specs.Shown.{ShowsInner};
ghost use Rattle.jf_diff.specs.Plains.{plain_at, children_list};

use jf_hash::Places;
use jf_node::{Branches, Link, Seen};
use jf_path::{Bytes, Child, Children, Memory, Nibble, PlainNode};
use std::alloc::Global;

/// The children of an inner node.
pub(crate) fn branches_of(link: &Link) -> &Branches
    requires { 2 ≤ length link.now.entries }
    ensures { ShowsInner link.now result.now }
{
    match link.view() {
        Seen::Leaf { .. } => unreachable!(),
        Seen::Inner { children } => children,
    }
}

/// Makes a list what an inner node says of its children, as it is written, in place of what is there. If memory runs out, the
/// list has some of them.
pub(crate) fn children_into(link: &Link, list: &mut Children) -> Result<(), Memory>
    // The link is to an inner node.
    requires { 2 ≤ length link.now.entries }
    // After Ok, the list is what the node says of its children.
    ensures { OnOk result (list.new ≡ children_list link.now) }
{
    list.clear();
    let children = branches_of(link);
    children.know();
    for n in 0..16 {
        let nibble = Nibble::of(n);
        if let Some(child) = children.get(nibble) {
            child.know();
            let count = child.count();
            list.push(Child {
                nibble,
                version: child.version(),
                hash: child.hash(),
                leaf: count == 1,
                count,
            })?;
        }
    }
    Ok(())
}

/// What an inner node says of its children, as it is written.
fn children_of(alloc: Global, link: &Link) -> Result<Children, Memory>
    requires { 2 ≤ length link.now.entries }
    ensures { IfOk result (λ r. r ≡ children_list link.now) }
{
    let room = branches_of(link).children().rank(16);
    let mut list = Children::with_capacity(alloc, room as u64)?;
    children_into(link, &mut list)?;
    Ok(list)
}

/// The node by itself, as it is written.
pub fn plain_of(alloc: Global, link: &Link) -> Result<PlainNode, Memory>
    ensures { IfOk result (λ r. r ≡ plain_at link.now []) }
{
    match link.view() {
        Seen::Leaf { key, value, .. } => {
            let value = Bytes::copy_of(alloc, value)?;
            Ok(PlainNode::Leaf { key: *key, value })
        }
        Seen::Inner { .. } => {
            let children = children_of(alloc, link)?;
            Ok(PlainNode::Inner { children })
        }
    }
}
