// A node that is read back from the bytes of nodes.
ghost use Rattle.std.specs.Prelude.{◌≡◌, ◌++◌, ℕ, List, IfOk};
ghost use Rattle.jf_path.specs.Names.{IsName};
ghost use Rattle.jf_path.specs.declared.name.NodeName.{NodeName};
ghost use Rattle.jf_path.specs.declared.node.PlainNode.{PlainNode};
ghost use Rattle.jf_codec.specs.declared.format.Format.TheVariants as format;
ghost use Rattle.jf_codec.specs.Spelling.{IsNode};
ghost use Rattle.jf_payload.specs.Spelling.{fresh_bytes};

use jf_codec::{name_at, node_at};
use jf_path::{Memory, NodeName, PlainNode};
use std::alloc::Global;

/// The node at the front of bytes, which stands after its name, with that name; and the bytes after it.
pub(crate) fn node_in_front(
    alloc: Global,
    bytes: &[u8],
) -> Result<((NodeName, PlainNode), &[u8]), Memory>
    requires { (x : NodeName × PlainNode) × (tail : List ℕ) × IsName x.0 × IsNode format.Two x.1 × (bytes.now ≡ fresh_bytes format.Two x ++ tail) }
    ensures { (x : NodeName × PlainNode) (tail : List ℕ) → IsName x.0 → IsNode format.Two x.1 → bytes.now ≡ fresh_bytes format.Two x ++ tail → IfOk result (λ r. (r.0 ≡ x) × (r.1.now ≡ tail)) }
{
    let Ok((name, rest)) = name_at(bytes) else {
        unreachable!()
    };
    // They begin with a node, so that only memory can be refused.
    let Ok((node, rest)) = node_at(alloc, rest) else {
        return Err(Memory);
    };
    Ok(((name, node), rest))
}
