// An inner node is passed over without a look at its children: how many they are follows from a bitmap.
ghost use Rattle.std.specs.Prelude.{◌≡◌, ◌++◌, ℕ, List};
ghost use Rattle.jf_path.specs.declared.children.Child.{Child};
ghost use Rattle.jf_path.specs.declared.node.PlainNode.TheVariants as node;
ghost use Rattle.jf_codec.specs.Spelling.{IsNode, node_bytes};
ghost use Rattle.jf_landing.specs.Scanned.{GivenMemory};

use jf_codec::{CodecFault, Format, front_of, inner_len, u16_at};

// The bytes after the inner node at the front.
pub(crate) fn after_inner(format: Format, bytes: &[u8]) -> Result<&[u8], CodecFault>
    ensures { (cs : List Child) (tail : List ℕ) → IsNode format (node.Inner cs) → bytes.now ≡ node_bytes format (node.Inner cs) ++ tail → GivenMemory (λ rest. rest.now ≡ tail) result }
{
    let (_, body) = front_of(1, bytes)?;
    let (exist, _) = u16_at(body)?;
    let (_, rest) = front_of(inner_len(format, exist.count_ones()) as usize, bytes)?;
    Ok(rest)
}
