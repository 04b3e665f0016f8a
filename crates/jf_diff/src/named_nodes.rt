// The nodes that a landing writes, with their names: the bytes of each part of it, as they were put together by who listed
// the part.
ghost use Rattle.std.specs.Prelude.{◌≡◌, ◌++◌, ℕ, List, flat_map, length, map, IfOk, IfSome, IsTrue, OnOk, Ok, None};
ghost use Rattle.std.specs.List.{AllByRecursion};
ghost use Rattle.jf_path.specs.Names.{are_rising};
ghost use Rattle.jf_codec.specs.declared.format.Format.TheVariants as format;
ghost use Rattle.jf_codec.specs.Spelling.{IsNode};
ghost use Rattle.jf_codec.specs.Counted.{in_format};
ghost use Rattle.jf_payload.specs.Spelling.{fresh_bytes};
ghost use Rattle.jf_diff.specs.Spelled.{nodes_of};

use crate::shared_nodes::SharedNodes;
use crate::spelled_nodes::SpelledNodes;
use jf_codec::{Format, strip_front};
use jf_path::{Bytes, FreshList, Memory, NodeName, PlainNode};
use jf_payload::{fresh_len, put_fresh, sum_within};
use std::alloc::Global;
use std::marker::Model;

/// The nodes that a landing writes, with their names. They are kept as the bytes that a file of format 2 has of them, and seen
/// as the nodes by themselves.
#[derive(Drop)]
pub struct NamedNodes {
    count: u64,
    parts: Vec<SpelledNodes>,
}

impl Model for NamedNodes {
    ghost use Rattle.std.specs.Prelude.{◌≡◌, List, length};
    ghost use Rattle.jf_path.specs.declared.name.NodeName.{NodeName};
    ghost use Rattle.jf_path.specs.declared.node.PlainNode.{PlainNode};

    ghost Value = { List (NodeName × PlainNode) };

    ghost use Rattle.jf_diff.specs.Spelled.{nodes_of};

    ghost view = { λ l. nodes_of l.parts.items };

    ghost invariant = { λ l. l.count ≡ length (nodes_of l.parts.items) };
}

/// The number of bytes of parts.
fn length_of_parts(parts: &[SpelledNodes]) -> Result<u64, Memory>
    ensures { IfOk result (λ n. n ≡ length (flat_map (fresh_bytes format.Two) (nodes_of parts.now))) }
{
    let mut length = 0;
    for part in parts {
        length = sum_within(length, part.as_slice().len() as u64)?;
    }
    Ok(length)
}

/// Adds the bytes of parts. If memory runs out, those of some may follow what was in `out`.
fn put_parts(out: &mut Bytes, parts: &[SpelledNodes]) -> Result<(), Memory>
    ensures { OnOk result (out.new ≡ out.old ++ flat_map (fresh_bytes format.Two) (nodes_of parts.now)) }
{
    for part in parts {
        out.append(part.as_slice())?;
    }
    Ok(())
}

/// The bytes after those of parts, if bytes begin with these.
fn strip_parts<'a>(bytes: &'a [u8], parts: &[SpelledNodes]) -> Option<&'a [u8]>
    ensures found { IfSome result (λ rest. bytes.now ≡ flat_map (fresh_bytes format.Two) (nodes_of parts.now) ++ rest.now) }
    ensures none { result ≡ None → (tail : List ℕ) → bytes.now ≡ flat_map (fresh_bytes format.Two) (nodes_of parts.now) ++ tail → ⊥ }
{
    let mut rest = bytes;
    for part in parts {
        rest = strip_front(rest, part.as_slice())?;
    }
    Some(rest)
}

/// Adds the nodes of parts to a list.
fn copy_parts(
    alloc: Global,
    out: &mut Vec<(NodeName, PlainNode)>,
    parts: &[SpelledNodes],
) -> Result<(), Memory>
    ensures { OnOk result (out.new.items ≡ out.old.items ++ nodes_of parts.now) }
{
    for part in parts {
        part.copy_into(alloc, out)?;
    }
    Ok(())
}

impl NamedNodes {
    /// Nodes that are listed, as their bytes.
    pub(crate) fn of(alloc: Global, nodes: &SharedNodes) -> Result<NamedNodes, Memory>
        ensures { IfOk result (λ l. l ≡ nodes.now) }
    {
        let part = SpelledNodes::of(alloc, nodes)?;
        let count = part.len();
        let mut parts = Vec::with_capacity(alloc, 1)?;
        parts.push(part)?;
        Ok(NamedNodes { count, parts })
    }

    /// The number of nodes.
    pub fn len(&self) -> u64
        ensures { result ≡ length self.now }
    {
        self.count
    }

    /// Adds the nodes of another list at the end.
    pub(crate) fn append(&mut self, other: NamedNodes) -> Result<(), Memory>
        ensures { OnOk result (self.new ≡ self.old ++ other) }
    {
        let NamedNodes { count, mut parts } = other;
        let count = sum_within(self.count, count)?;
        self.parts.append(&mut parts)?;
        self.count = count;
        Ok(())
    }

    /// The nodes with their names, by themselves. They are read from the bytes.
    pub fn plain_nodes(&self, alloc: Global) -> Result<Vec<(NodeName, PlainNode)>, Memory>
        ensures { IfOk result (λ v. v.items ≡ self.now) }
    {
        let mut nodes = Vec::with_capacity(alloc, self.count as usize)?;
        copy_parts(alloc, &mut nodes, &self.parts)?;
        Ok(nodes)
    }

    /// As `plain_nodes`, as a list whose names rise, which they must.
    pub fn copy(&self, alloc: Global) -> Result<FreshList, Memory>
        requires { IsTrue (are_rising (map (λ x. x.0) self.now)) }
        ensures { IfOk result (λ l. l ≡ self.now) }
    {
        let nodes = self.plain_nodes(alloc)?;
        Ok(FreshList::of(nodes))
    }

    /// The number of bytes that the nodes take after their names in a file of this format. `Memory` if it is above what
    /// a number holds. What the format keeps of each node must have a spelling.
    pub fn bytes_len(&self, alloc: Global, format: Format) -> Result<u64, Memory>
        requires { AllByRecursion (λ x. IsNode format (in_format format x.1)) self.now }
        ensures { IfOk result (λ n. n ≡ length (flat_map (fresh_bytes format) self.now)) }
    {
        match format {
            Format::One => fresh_len(format, &self.plain_nodes(alloc)?),
            Format::Two => length_of_parts(&self.parts),
        }
    }

    /// Adds each node after its name, as a file of this format has them. What the format keeps of each node must have a
    /// spelling. For format 1 the nodes are read back first. If memory runs out, some of it may follow what was in `out`.
    pub fn put(&self, alloc: Global, out: &mut Bytes, format: Format) -> Result<(), Memory>
        requires { AllByRecursion (λ x. IsNode format (in_format format x.1)) self.now }
        ensures { OnOk result (out.new ≡ out.old ++ flat_map (fresh_bytes format) self.now) }
    {
        match format {
            Format::One => put_fresh(out, format, &self.plain_nodes(alloc)?),
            Format::Two => put_parts(out, &self.parts),
        }
    }

    /// The bytes after those that `put` would add, if bytes begin with these; `None` if they don't; or `Memory`.
    pub fn strip_from<'a>(
        &self,
        alloc: Global,
        bytes: &'a [u8],
        format: Format,
    ) -> Result<Option<&'a [u8]>, Memory>
        requires { AllByRecursion (λ x. IsNode format (in_format format x.1)) self.now }
        ensures found { IfOk result (λ o. IfSome o (λ rest. bytes.now ≡ flat_map (fresh_bytes format) self.now ++ rest.now)) }
        ensures none { result ≡ Ok None → (tail : List ℕ) → bytes.now ≡ flat_map (fresh_bytes format) self.now ++ tail → ⊥ }
    {
        match format {
            Format::One => {
                let mut own = Bytes::new(alloc);
                self.put(alloc, &mut own, format)?;
                Ok(strip_front(bytes, own.as_slice()))
            }
            Format::Two => Ok(strip_parts(bytes, &self.parts)),
        }
    }
}
