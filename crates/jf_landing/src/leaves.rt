// The leaves among the nodes of a landing: names and inner nodes are passed over.
ghost use Rattle.std.specs.Prelude.{◌≡◌, ◌∷◌, ◌++◌, [], ℕ, List, flat_map, length, IfOk, OnOk};
ghost use Rattle.std.specs.List.{AllByRecursion};
ghost use Rattle.jf_path.specs.Names.{IsName};
ghost use Rattle.jf_path.specs.declared.name.NodeName.{NodeName};
ghost use Rattle.jf_path.specs.declared.node.PlainNode.{PlainNode};
ghost use Rattle.jf_path.specs.declared.node.PlainNode.TheVariants as node;
ghost use Rattle.jf_codec.specs.Spelling.{IsNode, node_bytes};
ghost use Rattle.jf_payload.specs.Spelling.{fresh_bytes};
ghost use Rattle.jf_landing.specs.Scanned.{GivenMemory, AreReadEntries, leaf_alone};

use crate::inner::after_inner;
use jf_codec::{CodecFault, Format, leaf_at, name_at};
use jf_path::{Key, SharedBytes};
use jf_payload::room_for;
use std::alloc::Global;

/// The tag of the root of the empty map.
const NULL: u8 = 0;

/// The tag of a leaf.
const LEAF: u8 = 1;

// Adds the entry of a leaf whose tag was taken off. Returns the bytes after it.
fn add_leaf<'a>(
    alloc: Global,
    bytes: &'a [u8],
    leaves: &mut Vec<(Key, SharedBytes)>,
) -> Result<&'a [u8], CodecFault>
    ensures entries { OnOk result (AreReadEntries leaves.old.items → AreReadEntries leaves.new.items) }
    ensures spelled { (format : Format) (key value tail : List ℕ) → IsNode format (node.Leaf key value) → 1 ∷ bytes.now ≡ node_bytes format (node.Leaf key value) ++ tail → GivenMemory (λ rest. (rest.now ≡ tail) × (leaves.new.items ≡ leaves.old.items ++ (key, value) ∷ [])) result }
{
    let ((key, value), rest) = leaf_at(bytes)?;
    let value = SharedBytes::copy_of(alloc, value)?;
    let Ok(()) = leaves.push((*key, value)) else {
        return Err(CodecFault::Memory);
    };
    Ok(rest)
}

// Adds the entry of a node that is a leaf. Returns the bytes after it.
fn add_node<'a>(
    alloc: Global,
    format: Format,
    bytes: &'a [u8],
    leaves: &mut Vec<(Key, SharedBytes)>,
) -> Result<&'a [u8], CodecFault>
    ensures entries { OnOk result (AreReadEntries leaves.old.items → AreReadEntries leaves.new.items) }
    ensures spelled { (n : PlainNode) (tail : List ℕ) → IsNode format n → bytes.now ≡ node_bytes format n ++ tail → GivenMemory (λ rest. (rest.now ≡ tail) × (leaves.new.items ≡ leaves.old.items ++ leaf_alone n)) result }
{
    let Some((tag, rest)) = bytes.split_first() else {
        return Err(CodecFault::Short);
    };
    if *tag == NULL {
        return Ok(rest);
    }
    if *tag == LEAF {
        return add_leaf(alloc, rest, leaves);
    }
    after_inner(format, bytes)
}

// Adds the entry of a named node that is a leaf. Returns the bytes after it.
fn add_named<'a>(
    alloc: Global,
    format: Format,
    bytes: &'a [u8],
    leaves: &mut Vec<(Key, SharedBytes)>,
) -> Result<&'a [u8], CodecFault>
    ensures entries { OnOk result (AreReadEntries leaves.old.items → AreReadEntries leaves.new.items) }
    ensures spelled { (x : NodeName × PlainNode) (tail : List ℕ) → IsName x.0 → IsNode format x.1 → bytes.now ≡ fresh_bytes format x ++ tail → GivenMemory (λ rest. (rest.now ≡ tail) × (leaves.new.items ≡ leaves.old.items ++ leaf_alone x.1)) result }
{
    match name_at(bytes) {
        Ok((_, rest)) => add_node(alloc, format, rest, leaves),
        Err(fault) => Err(fault),
    }
}

/// The entries of the leaves among `count` named nodes, and the bytes after the nodes. A name has 9 bytes or more, and a leaf
/// 37.
pub(crate) fn leaves_of<'a>(
    alloc: Global,
    format: Format,
    count: u64,
    bytes: &'a [u8],
) -> Result<(Vec<(Key, SharedBytes)>, &'a [u8]), CodecFault>
    ensures entries { IfOk result (λ x. AreReadEntries x.0.items) }
    ensures spelled { (xs : List (NodeName × PlainNode)) (tail : List ℕ) → length xs ≡ count → AllByRecursion (λ x. IsName x.0 × IsNode format x.1) xs → bytes.now ≡ flat_map (fresh_bytes format) xs ++ tail → GivenMemory (λ r. (r.0.items ≡ flat_map (λ x. leaf_alone x.1) xs) × (r.1.now ≡ tail)) result }
{
    let Ok(mut leaves) = Vec::with_capacity(alloc, room_for(count, 46, bytes) as usize) else {
        return Err(CodecFault::Memory);
    };
    let mut rest = bytes;
    for _ in 0..count {
        rest = add_named(alloc, format, rest, &mut leaves)?;
    }
    Ok((leaves, rest))
}
