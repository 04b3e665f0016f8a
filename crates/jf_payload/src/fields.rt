// A field is read from the front of a payload and returned with the bytes after it. `Bad` if the bytes begin with no
// such field.
ghost use Rattle.std.specs.Prelude.{◌≡◌};
ghost use Rattle.std.specs.Result.{result_ok};
ghost use Rattle.jf_codec.specs.Reading.{node_at};
ghost use Rattle.jf_payload.specs.Reading.{Gives, long_at, hash_at, named_at, format_node_at, counts_fit, has_counts, is_in};

use crate::fault::RecordFault;
use jf_codec::{CodecFault, Format, key_at, name_at, node_at, u64_at};
use jf_path::{Child, Key, NodeName, PlainNode};
use std::alloc::Global;

/// A number in eight bytes.
pub(crate) fn number_of(bytes: &[u8]) -> Result<(u64, &[u8]), RecordFault>
    ensures { Gives (λ x. (x.0, x.1.now)) result (long_at bytes.now) }
{
    match u64_at(bytes) {
        Ok((number, rest)) => Ok((number, rest)),
        Err(_) => Err(RecordFault::Bad),
    }
}

/// A hash of 32 bytes.
pub(crate) fn hash_of(bytes: &[u8]) -> Result<(&Key, &[u8]), RecordFault>
    ensures { Gives (λ x. (x.0.now, x.1.now)) result (hash_at bytes.now) }
{
    match key_at(bytes) {
        Ok((hash, rest)) => Ok((hash, rest)),
        Err(_) => Err(RecordFault::Bad),
    }
}

/// The name of a node.
pub(crate) fn name_of(bytes: &[u8]) -> Result<(NodeName, &[u8]), RecordFault>
    ensures { Gives (λ x. (x.0, x.1.now)) result (named_at bytes.now) }
{
    match name_at(bytes) {
        Ok((name, rest)) => Ok((name, rest)),
        Err(_) => Err(RecordFault::Bad),
    }
}

// Whether children have counts, which the first of them shows.
fn has_counts(children: &[Child]) -> bool
    ensures { result ≡ has_counts children.now }
{
    match children {
        [first, ..] => first.count != 0,
        [] => false,
    }
}

// Whether children with counts, or without, are of a format.
fn is_counted(format: Format, counts: bool) -> bool
    ensures { result ≡ counts_fit format counts }
{
    match format {
        Format::One => !counts,
        Format::Two => counts,
    }
}

// Whether a node is of the format.
fn is_in(format: Format, node: &PlainNode) -> bool
    ensures { result ≡ is_in format node.now }
{
    match node {
        PlainNode::Inner { children } => is_counted(format, has_counts(children.as_slice())),
        _ => true,
    }
}

// A node of either format.
fn any_node_of(alloc: Global, bytes: &[u8]) -> Result<(PlainNode, &[u8]), RecordFault>
    ensures { Gives (λ x. (x.0, x.1.now)) result (result_ok (node_at bytes.now)) }
{
    match node_at(alloc, bytes) {
        Ok((node, rest)) => Ok((node, rest)),
        Err(CodecFault::Memory) => Err(RecordFault::Memory),
        Err(_) => Err(RecordFault::Bad),
    }
}

/// A node of a format.
pub(crate) fn node_of(
    alloc: Global,
    format: Format,
    bytes: &[u8],
) -> Result<(PlainNode, &[u8]), RecordFault>
    ensures { Gives (λ x. (x.0, x.1.now)) result (format_node_at format bytes.now) }
{
    let (node, rest) = any_node_of(alloc, bytes)?;
    if !is_in(format, &node) {
        return Err(RecordFault::Bad);
    }
    Ok((node, rest))
}
