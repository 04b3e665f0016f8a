// A node is written in one format; in format 1 the counts of its children are left out.
ghost use Rattle.std.specs.Prelude.{◌≡◌, ◌++◌, ◌∷◌, ◌<◌, ◌≤◌, [], length, flat_map, OnOk, OnErr};
ghost use Rattle.std.specs.List.{AllByRecursion};
ghost use Rattle.jf_path.specs.Limits.{max_value};
ghost use Rattle.jf_path.specs.Numbers.{four_bytes};
ghost use Rattle.jf_path.specs.Nodes.{ChildrenRiseFrom};
ghost use Rattle.jf_path.specs.declared.node.PlainNode.TheVariants as node;
ghost use Rattle.jf_codec.specs.Adding.{Keeps};
ghost use Rattle.jf_codec.specs.Spelling.{IsNode, IsValid, spelling, node_bytes, child_bytes, count_bytes, bitmap, leaf_children, format_of, format_of_children, tag};
ghost use Rattle.jf_codec.specs.Counted.{in_format};

use crate::bitmaps::Bitmaps;
use crate::fields::{put_u16, put_u32, put_u64};
use crate::format::Format;
use crate::tags::{COUNTED, INNER, LEAF, NULL};
use jf_path::{Bytes, Child, Key, Memory, PlainNode};
use std::alloc::Global;

// The format of a node with these children: format 2 if the first of them has a count.
fn format_of_children(children: &[Child]) -> Format
    ensures { result ≡ format_of_children children.now }
{
    match children {
        [first, ..] if first.count != 0 => Format::Two,
        _ => Format::One,
    }
}

// The format of a node; format 1 if it isn't an internal node.
fn format_of(node: &PlainNode) -> Format
    ensures { result ≡ format_of node.now }
{
    match node {
        PlainNode::Inner { children } => format_of_children(children.as_slice()),
        _ => Format::One,
    }
}

// The tag of an internal node of a format.
fn tag_of(format: Format) -> u8
    ensures { result ≡ tag format }
{
    match format {
        Format::One => INNER,
        Format::Two => COUNTED,
    }
}

// The bitmaps of a node with these children.
fn bitmaps_to(children: &[Child]) -> Bitmaps
    requires sorted { ChildrenRiseFrom 0 children.now }
    requires nibbles { AllByRecursion (λ c. c.nibble < 16) children.now }
    ensures exist { result.exist ≡ bitmap children.now }
    ensures leaf { result.leaf ≡ bitmap (leaf_children children.now) }
{
    let mut bits = Bitmaps { exist: 0, leaf: 0 };
    for child in children {
        let bit = 1 << child.nibble.get();
        bits.exist += bit;
        if child.leaf {
            bits.leaf += bit;
        }
    }
    bits
}

// Adds the count of a child, if the format has counts.
#[tactic(auto, using(crate::proofs::Adding::keeps_same, crate::proofs::Adding::keeps_more))]
fn put_count(out: &mut Bytes, format: Format, count: u64) -> Result<(), Memory>
    ensures ok { OnOk result (out.new ≡ out.old ++ count_bytes format count) }
    ensures err { OnErr result (Keeps out.old out.new) }
{
    match format {
        Format::One => Ok(()),
        Format::Two => put_u64(out, count),
    }
}

// Adds a child.
#[tactic(auto, using(crate::proofs::Adding::keeps_same, crate::proofs::Adding::keeps_more))]
fn put_child(out: &mut Bytes, format: Format, child: &Child) -> Result<(), Memory>
    ensures ok { OnOk result (out.new ≡ out.old ++ child_bytes format child.now) }
    ensures err { OnErr result (Keeps out.old out.new) }
{
    put_u64(out, child.version)?;
    put_count(out, format, child.count)?;
    out.append(&child.hash)
}

// Adds each child.
#[tactic(auto, using(crate::proofs::Adding::keeps_same, crate::proofs::Adding::keeps_more))]
fn put_children(out: &mut Bytes, format: Format, children: &[Child]) -> Result<(), Memory>
    ensures ok { OnOk result (out.new ≡ out.old ++ flat_map (child_bytes format) children.now) }
    ensures err { OnErr result (Keeps out.old out.new) }
{
    for child in children {
        put_child(out, format, child)?;
    }
    Ok(())
}

/// Adds the spelling of an internal node with these children in a format; format 1 leaves out their counts. If memory runs
/// out, what was in `out` is unchanged, but a part of the node may follow it.
#[tactic(auto, using(crate::proofs::Adding::keeps_same, crate::proofs::Adding::keeps_more), unfolding(crate::specs::Spelling::node_bytes))]
pub fn put_inner(out: &mut Bytes, format: Format, children: &[Child]) -> Result<(), Memory>
    requires sorted { ChildrenRiseFrom 0 children.now }
    requires nibbles { AllByRecursion (λ c. c.nibble < 16) children.now }
    ensures ok { OnOk result (out.new ≡ out.old ++ node_bytes format (node.Inner children.now)) }
    ensures err { OnErr result (Keeps out.old out.new) }
{
    let bits = bitmaps_to(children);
    out.push(tag_of(format))?;
    put_u16(out, bits.exist)?;
    put_u16(out, bits.leaf)?;
    put_children(out, format, children)
}

/// Adds the spelling of a leaf, which both formats share. If memory runs out, what was in `out` is unchanged, but a part of
/// the leaf may follow it.
#[tactic(auto, using(crate::proofs::Adding::keeps_same, crate::proofs::Adding::keeps_more))]
pub fn put_leaf(out: &mut Bytes, key: &Key, value: &[u8]) -> Result<(), Memory>
    requires { length value.now ≤ max_value }
    ensures ok { OnOk result (out.new ≡ out.old ++ 1 ∷ key.now ++ four_bytes (length value.now) ++ value.now) }
    ensures err { OnErr result (Keeps out.old out.new) }
{
    out.push(LEAF)?;
    out.append(key)?;
    put_u32(out, value.len() as u32)?;
    out.append(value)
}

/// Adds the spelling of a node in a format; format 1 leaves out its counts. What the format keeps of the node must have
/// a spelling. If memory runs out, what was in `out` is unchanged, but a part of the node may follow it.
#[tactic(auto, using(crate::proofs::Adding::keeps_same, crate::proofs::Adding::keeps_more), unfolding(crate::specs::Spelling::node_bytes))]
pub fn put_node(out: &mut Bytes, format: Format, node: &PlainNode) -> Result<(), Memory>
    requires { IsNode format (in_format format node.now) }
    ensures ok { OnOk result (out.new ≡ out.old ++ node_bytes format node.now) }
    ensures err { OnErr result (Keeps out.old out.new) }
{
    match node {
        PlainNode::Null => out.push(NULL),
        PlainNode::Leaf { key, value } => put_leaf(out, key, value.as_slice()),
        PlainNode::Inner { children } => put_inner(out, format, children.as_slice()),
    }
}

/// Appends the spelling of a node that has one: a leaf's value has at most 4,096 bytes, and an internal node has a
/// child, no single child that is a leaf, and counts that are all 0, or all at least 1 and 1 just for leaves. If
/// memory runs out, `out` is unchanged.
pub fn encode_node(alloc: Global, node: &PlainNode, out: &mut Bytes) -> Result<(), Memory>
    requires { IsValid node.now }
    ensures ok { OnOk result (out.new ≡ out.old ++ spelling node.now) }
    ensures err { OnErr result (out.new ≡ out.old) }
{
    let mut text = Bytes::new(alloc);
    put_node(&mut text, format_of(node), node)?;
    out.append(text.as_slice())
}
