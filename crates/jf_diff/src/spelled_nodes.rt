// Some nodes of a landing as their bytes, which are put together where they are listed.
ghost use Rattle.std.specs.Prelude.{◌≡◌, ◌++◌, flat_map, length, map, IfOk, OnOk};
ghost use Rattle.std.specs.List.{AllByRecursion};
ghost use Rattle.jf_path.specs.Names.{IsName};
ghost use Rattle.jf_codec.specs.declared.format.Format.TheVariants as format;
ghost use Rattle.jf_codec.specs.Spelling.{IsNode};
ghost use Rattle.jf_payload.specs.Spelling.{fresh_bytes};
ghost use Rattle.jf_diff.specs.Plains.{plain_item};

use crate::plain_bytes::{plain_len, put_plain};
use crate::read_nodes::node_in_front;
use crate::shared_nodes::SharedNodes;
use jf_codec::{name_len, put_name};
use jf_ghost::Remembered;
use jf_node::Link;
use jf_path::{Bytes, Children, Memory, NodeName, PlainNode, know_name};
use jf_payload::sum_within;
use std::alloc::Global;
use std::marker::Model;

/// Nodes with their names, by themselves, as the bytes that a file of format 2 has of them: each after its name.
#[derive(Drop)]
pub(crate) struct SpelledNodes {
    count: u64,
    bytes: Bytes,
    nodes: Remembered<SharedNodes>,
}

impl Model for SpelledNodes {
    ghost use Rattle.std.specs.Prelude.{List};
    ghost use Rattle.jf_path.specs.declared.name.NodeName.{NodeName};
    ghost use Rattle.jf_path.specs.declared.node.PlainNode.{PlainNode};

    ghost Value = { List (NodeName × PlainNode) };

    ghost use Rattle.jf_diff.specs.Spelled.{AreSpelled};

    ghost view = { λ s. s.nodes.value };

    ghost invariant = { λ s. AreSpelled s.nodes.value s.count s.bytes };
}

/// The number of bytes of the nodes after their names.
fn length_of(nodes: &[(NodeName, Option<Link>)]) -> Result<u64, Memory>
    ensures { IfOk result (λ n. n ≡ length (flat_map (fresh_bytes format.Two) (map plain_item nodes.now))) }
{
    let mut length = 0;
    for item in nodes {
        length = sum_within(length, name_len(&item.0))?;
        length = sum_within(length, plain_len(&item.1))?;
    }
    Ok(length)
}

/// Adds the nodes after their names. If memory runs out, some of it may follow what was in `out`.
fn put_each(
    alloc: Global,
    out: &mut Bytes,
    nodes: &[(NodeName, Option<Link>)],
) -> Result<(), Memory>
    ensures valid { OnOk result (AllByRecursion (λ x. IsName x.0 × IsNode format.Two x.1) (map plain_item nodes.now)) }
    ensures bytes { OnOk result (out.new ≡ out.old ++ flat_map (fresh_bytes format.Two) (map plain_item nodes.now)) }
{
    let mut list = Children::with_capacity(alloc, 16)?;
    for item in nodes {
        know_name(&item.0);
        put_name(out, &item.0)?;
        put_plain(out, &item.1, &mut list)?;
    }
    Ok(())
}

impl SpelledNodes {
    /// The bytes of nodes after their names.
    pub(crate) fn of(alloc: Global, nodes: &SharedNodes) -> Result<SpelledNodes, Memory>
        ensures { IfOk result (λ s. s ≡ nodes.now) }
    {
        let items = nodes.as_slice();
        let mut bytes = Bytes::with_capacity(alloc, length_of(items)?)?;
        put_each(alloc, &mut bytes, items)?;
        Ok(SpelledNodes {
            count: items.len() as u64,
            bytes,
            nodes: Remembered::of(nodes),
        })
    }

    /// The number of nodes.
    pub(crate) fn len(&self) -> u64
        ensures { result ≡ length self.now }
    {
        self.count
    }

    /// The nodes after their names, as a file of format 2 has them.
    pub(crate) fn as_slice(&self) -> &[u8]
        ensures { result.now ≡ flat_map (fresh_bytes format.Two) self.now }
    {
        self.bytes.as_slice()
    }

    /// Adds the nodes with their names to a list. They are read from the bytes.
    pub(crate) fn copy_into(
        &self,
        alloc: Global,
        out: &mut Vec<(NodeName, PlainNode)>,
    ) -> Result<(), Memory>
        ensures { OnOk result (out.new.items ≡ out.old.items ++ self.now) }
    {
        let mut rest = self.bytes.as_slice();
        for _ in 0..self.count {
            let (node, after) = node_in_front(alloc, rest)?;
            out.push(node)?;
            rest = after;
        }
        Ok(())
    }
}
