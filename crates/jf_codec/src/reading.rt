// Nodes are read from left to right: a tag, then the fields of a leaf or of an internal node.
ghost use Rattle.std.specs.Prelude.{◌≡◌, ◌⊎◌, ◌++◌, ◌<◌, List, ℕ, drop, length, IfOk, Ok, Err};
ghost use Rattle.jf_path.specs.declared.node.PlainNode.{PlainNode};
ghost use Rattle.jf_path.specs.declared.node.PlainNode.TheVariants as node;
ghost use Rattle.jf_codec.specs.Spelling.{IsValid, spelling};
ghost use Rattle.jf_codec.specs.Reading.{Reads, ReadsGivenMemory, value_at, leaf_at, count_at, child_at, children_at, inner_at, node_at, whole_in, reading_with_length};

use crate::bitmaps::{Bitmaps, bitmaps_of, has};
use crate::fault::CodecFault;
use crate::fields::{front_of, key_at, u32_at, u64_at};
use crate::format::Format;
use crate::tags::{COUNTED, INNER, LEAF, NULL};
use jf_path::{Bytes, Child, Children, Key, MAX_VALUE, Nibble, PlainNode};
use std::alloc::Global;

// A value of at most 4,096 bytes, which follows its length in four bytes.
#[tactic(auto, unfolding(crate::specs::Reading::value_at))]
fn value_of(bytes: &[u8]) -> Result<(&[u8], &[u8]), CodecFault>
    ensures { Reads (λ x. (x.0.now, x.1.now)) result (value_at bytes.now) }
{
    let (length, rest) = u32_at(bytes)?;
    if u64::from(length) > MAX_VALUE {
        return Err(CodecFault::Length);
    }
    front_of(length as usize, rest)
}

/// The key and the value of the leaf whose tag was taken off the front of `bytes`, and the bytes after it. Otherwise the first
/// fault from left to right.
#[tactic(auto, unfolding(crate::specs::Reading::leaf_at))]
pub fn leaf_at(bytes: &[u8]) -> Result<((&Key, &[u8]), &[u8]), CodecFault>
    ensures { Reads (λ x. (node.Leaf x.0.0.now x.0.1.now, x.1.now)) result (leaf_at bytes.now) }
{
    let (key, rest) = key_at(bytes)?;
    let (value, rest) = value_of(rest)?;
    Ok(((key, value), rest))
}

// The leaf after its tag.
fn leaf_of(alloc: Global, bytes: &[u8]) -> Result<(PlainNode, &[u8]), CodecFault>
    ensures { ReadsGivenMemory (λ x. (x.0, x.1.now)) result (leaf_at bytes.now) }
{
    let ((key, value), rest) = leaf_at(bytes)?;
    let value = Bytes::copy_of(alloc, value)?;
    Ok((PlainNode::Leaf { key: *key, value }, rest))
}

// The count of a child; 0 in format 1, which has no counts.
#[tactic(auto, unfolding(crate::specs::Reading::count_at))]
fn count_of(format: Format, leaf: bool, bytes: &[u8]) -> Result<(u64, &[u8]), CodecFault>
    ensures { Reads (λ x. (x.0, x.1.now)) result (count_at format leaf bytes.now) }
{
    match format {
        Format::One => Ok((0, bytes)),
        Format::Two => {
            let (count, rest) = u64_at(bytes)?;
            if count == 0 || leaf != (count == 1) {
                return Err(CodecFault::Count);
            }
            Ok((count, rest))
        }
    }
}

// The child at a nibble.
#[tactic(auto, unfolding(crate::specs::Reading::child_at))]
fn child_of(
    format: Format,
    nibble: Nibble,
    leaf: bool,
    bytes: &[u8],
) -> Result<(Child, &[u8]), CodecFault>
    ensures { Reads (λ x. (x.0, x.1.now)) result (child_at format nibble leaf bytes.now) }
{
    let (version, rest) = u64_at(bytes)?;
    let (count, rest) = count_of(format, leaf, rest)?;
    let (hash, rest) = key_at(rest)?;
    let child = Child {
        nibble,
        version,
        hash: *hash,
        leaf,
        count,
    };
    Ok((child, rest))
}

// The children that the bitmaps name, in ascending order.
fn children_of(
    alloc: Global,
    format: Format,
    bits: Bitmaps,
    bytes: &[u8],
) -> Result<(Children, &[u8]), CodecFault>
    ensures { ReadsGivenMemory (λ x. (x.0, x.1.now)) result (children_at format bits.exist bits.leaf 16 0 bytes.now) }
{
    let mut children = Children::with_capacity(alloc, u64::from(bits.exist.count_ones()))?;
    let mut rest = bytes;
    for i in 0..16 {
        if !has(bits.exist, i) {
            continue;
        }
        let Some(nibble) = Nibble::new(i as u8) else {
            unreachable!()
        };
        match child_of(format, nibble, has(bits.leaf, i), rest) {
            Ok((child, after)) => {
                children.push(child)?;
                rest = after;
            }
            Err(fault) => return Err(fault),
        }
    }
    Ok((children, rest))
}

// The internal node after its tag.
#[tactic(auto, unfolding(crate::specs::Reading::inner_at))]
fn inner_of(alloc: Global, format: Format, bytes: &[u8]) -> Result<(PlainNode, &[u8]), CodecFault>
    ensures { ReadsGivenMemory (λ x. (x.0, x.1.now)) result (inner_at format bytes.now) }
{
    let (bits, rest) = bitmaps_of(bytes)?;
    let (children, rest) = children_of(alloc, format, bits, rest)?;
    Ok((PlainNode::Inner { children }, rest))
}

/// The node at the front of `bytes`, and the bytes after it. Otherwise the first fault from left to right, or `Memory`.
#[tactic(auto, unfolding(crate::specs::Reading::node_at))]
pub fn node_at(alloc: Global, bytes: &[u8]) -> Result<(PlainNode, &[u8]), CodecFault>
    ensures { ReadsGivenMemory (λ x. (x.0, x.1.now)) result (node_at bytes.now) }
{
    match bytes {
        [] => Err(CodecFault::Short),
        [NULL, rest @ ..] => Ok((PlainNode::Null, rest)),
        [LEAF, rest @ ..] => leaf_of(alloc, rest),
        [INNER, rest @ ..] => inner_of(alloc, Format::One, rest),
        [COUNTED, rest @ ..] => inner_of(alloc, Format::Two, rest),
        _ => Err(CodecFault::Tag),
    }
}

// The node at the front of `bytes`, and its length in bytes.
fn measured_node(alloc: Global, bytes: &[u8]) -> Result<(PlainNode, usize), CodecFault>
    ensures { ReadsGivenMemory (λ x. x) result (reading_with_length bytes.now (node_at bytes.now)) }
{
    let (node, rest) = node_at(alloc, bytes)?;
    Ok((node, bytes.len() - rest.len()))
}

/// The node at the front of `bytes`, and its length in bytes. Otherwise the first fault from left to right, or
/// `Memory`.
pub fn decode_node(alloc: Global, bytes: &[u8]) -> Result<(PlainNode, usize), CodecFault>
    ensures found { IfOk result (λ x. IsValid x.0 × (bytes.now ≡ spelling x.0 ++ drop x.1 bytes.now) × (x.1 ≡ length (spelling x.0))) }
    ensures spelled { (node : PlainNode) (rest : List ℕ) → IsValid node → bytes.now ≡ spelling node ++ rest → ReadsGivenMemory (λ x. x) result (Ok (node, length (spelling node))) }
    ensures exact { ReadsGivenMemory (λ x. x) result (reading_with_length bytes.now (node_at bytes.now)) }
{
    measured_node(alloc, bytes)
}

/// The node whose spelling all of `bytes` are. Otherwise the first fault from left to right, `Rest` if bytes are left
/// over, or `Memory`.
pub fn decode_whole(alloc: Global, bytes: &[u8]) -> Result<PlainNode, CodecFault>
    ensures found { IfOk result (λ node. IsValid node × (bytes.now ≡ spelling node)) }
    ensures spelled { (node : PlainNode) → IsValid node → bytes.now ≡ spelling node → ReadsGivenMemory (λ x. x) result (Ok node) }
    ensures exact { ReadsGivenMemory (λ node. node) result (whole_in bytes.now) }
{
    whole_of(alloc, bytes)
}

// The node whose spelling all of `bytes` are.
#[tactic(auto, unfolding(crate::specs::Reading::whole_in))]
fn whole_of(alloc: Global, bytes: &[u8]) -> Result<PlainNode, CodecFault>
    ensures { ReadsGivenMemory (λ node. node) result (whole_in bytes.now) }
{
    let (node, rest) = node_at(alloc, bytes)?;
    if !rest.is_empty() {
        return Err(CodecFault::Rest);
    }
    Ok(node)
}
