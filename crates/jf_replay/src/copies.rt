// Copies of nodes that were read.
ghost use Rattle.std.specs.Prelude.{◌≡◌, IfOk};

use jf_path::{Bytes, Children, Memory, PlainNode};
use std::alloc::Global;

/// A copy of children.
fn copy_of_children(alloc: Global, children: &Children) -> Result<Children, Memory>
    ensures { IfOk result (λ c. c ≡ children.now) }
{
    let mut copy = Children::new(alloc);
    for child in children.as_slice() {
        copy.push(*child)?;
    }
    Ok(copy)
}

/// A copy of a node.
pub(crate) fn copy_of_node(alloc: Global, node: &PlainNode) -> Result<PlainNode, Memory>
    ensures { IfOk result (λ n. n ≡ node.now) }
{
    match node {
        PlainNode::Null => Ok(PlainNode::Null),
        PlainNode::Leaf { key, value } => {
            let value = Bytes::copy_of(alloc, value.as_slice())?;
            Ok(PlainNode::Leaf { key: *key, value })
        }
        PlainNode::Inner { children } => {
            let children = copy_of_children(alloc, children)?;
            Ok(PlainNode::Inner { children })
        }
    }
}
