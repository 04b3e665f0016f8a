// Nodes with their names, as they are listed: each is shared with a snapshot, and none is copied.
ghost use Rattle.std.specs.Prelude.{◌≡◌, ◌++◌, ◌∷◌, [], map, IfOk, OnOk, OnErr};
ghost use Rattle.std.specs.Option.{option_copied};
ghost use Rattle.jf_diff.specs.Plains.{plain_item, plain_under};

use jf_node::Link;
use jf_path::{Memory, NodeName};
use std::alloc::Global;
use std::marker::Model;

/// Nodes with their names. Each is the stored node of a snapshot, which is shared; the root of the empty map has none.
/// They are seen as the nodes by themselves, as they are written.
#[derive(Drop)]
pub(crate) struct SharedNodes {
    nodes: Vec<(NodeName, Option<Link>)>,
}

impl Model for SharedNodes {
    ghost use Rattle.std.specs.Prelude.{List, map};
    ghost use Rattle.jf_path.specs.declared.name.NodeName.{NodeName};
    ghost use Rattle.jf_path.specs.declared.node.PlainNode.{PlainNode};

    ghost Value = { List (NodeName × PlainNode) };

    ghost use Rattle.jf_diff.specs.Plains.{plain_item};

    ghost view = { λ l. map plain_item l.nodes.items };
}

/// The link to the node again, which is shared.
fn share_if(link: Option<&Link>) -> Result<Option<Link>, Memory>
    ensures { IfOk result (λ x. x ≡ option_copied link.entry) }
{
    match link {
        None => Ok(None),
        Some(link) => {
            let link = link.share()?;
            Ok(Some(link))
        }
    }
}

impl SharedNodes {
    /// An empty list.
    pub(crate) fn new(alloc: Global) -> SharedNodes
        ensures { result ≡ [] }
    {
        SharedNodes {
            nodes: Vec::new(alloc),
        }
    }

    /// The nodes.
    pub(crate) fn as_slice(&self) -> &[(NodeName, Option<Link>)]
        ensures { map plain_item result.now ≡ self.now }
    {
        &self.nodes
    }

    /// Adds a node, which is shared, at the end. If memory runs out, the list is unchanged.
    pub(crate) fn push(&mut self, name: NodeName, link: Option<&Link>) -> Result<(), Memory>
        ensures ok { OnOk result (self.new ≡ self.old ++ (name, plain_under (option_copied link.entry) []) ∷ []) }
        ensures err { OnErr result (self.new ≡ self.old) }
    {
        let link = share_if(link)?;
        self.nodes.push((name, link))?;
        Ok(())
    }
}
