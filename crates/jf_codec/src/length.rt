// The number of bytes of a spelling, known before it is written, so that room for all of it can be taken at once.
ghost use Rattle.std.specs.Prelude.{◌≡◌, List, length};
ghost use Rattle.std.specs.List.{AllByRecursion};
ghost use Rattle.jf_path.specs.declared.children.Child.{Child};
ghost use Rattle.jf_path.specs.declared.node.PlainNode.TheVariants as node;
ghost use Rattle.jf_codec.specs.Spelling.{IsNode, name_bytes, node_bytes};
ghost use Rattle.jf_codec.specs.Counted.{in_format};

use crate::format::Format;
use jf_path::{NodeName, PlainNode};

/// The number of bytes of a name's spelling.
#[tactic(auto, using(crate::proofs::Lengths::name_length))]
pub fn name_len(name: &NodeName) -> u64
    ensures { result ≡ length (name_bytes name.now) }
{
    9 + (name.path.len() as u64 + 1) / 2
}

/// The number of bytes of an internal node with so many children: its tag and bitmaps, and of each child the version, the
/// hash and, in format 2, the count.
#[tactic(auto, using(crate::proofs::Lengths::inner_length))]
pub fn inner_len(format: Format, children: u32) -> u64
    // Of children whose hashes have 32 bytes, as all hashes do, the result is the number of bytes of their node.
    ensures { (cs : List Child) → length cs ≡ children → AllByRecursion (λ c. length c.hash ≡ 32) cs → result ≡ length (node_bytes format (node.Inner cs)) }
{
    let count = u64::from(children);
    match format {
        Format::One => 5 + count * 40,
        Format::Two => 5 + count * 48,
    }
}

/// The number of bytes of a node's spelling in a format; format 1 leaves out its counts. What the format keeps of the
/// node must have a spelling.
#[tactic(auto, unfolding(crate::specs::Spelling::node_bytes, jf_path::specs::Numbers::four_bytes))]
pub fn node_len(format: Format, node: &PlainNode) -> u64
    requires { IsNode format (in_format format node.now) }
    ensures { result ≡ length (node_bytes format node.now) }
{
    match node {
        PlainNode::Null => 1,
        PlainNode::Leaf { key: _, value } => 37 + value.len(),
        PlainNode::Inner { children } => inner_len(format, children.as_slice().len() as u32),
    }
}
