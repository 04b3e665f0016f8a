// An internal node begins with two bitmaps of 16 bits: which children it has, and which of them are leaves.
ghost use Rattle.std.specs.Prelude.{◌≡◌, ◌<◌, ◌^◌, ℕ, IsTrue, not};
ghost use Rattle.jf_codec.specs.Reading.{Reads, has, are_wrong, bitmaps_at};

use crate::fault::CodecFault;
use crate::fields::u16_at;

/// Which nibbles have a child, and which of these children are leaves. The bit of nibble i has weight 2^i.
#[derive(Clone, Copy)]
pub(crate) struct Bitmaps {
    pub exist: u16,
    pub leaf: u16,
}

/// Whether a bitmap has the bit of a nibble, 0 to 15.
#[tactic(auto, unfolding(crate::specs::Reading::has))]
pub(crate) fn has(bits: u16, nibble: usize) -> bool
    requires { nibble < 16 }
    ensures { result ≡ has bits nibble }
{
    bits >> nibble & 1 == 1
}

// Whether there is no child, a leaf bit without a child, or a single child that is a leaf.
#[tactic(auto, unfolding(crate::specs::Reading::are_wrong))]
fn are_wrong(bits: Bitmaps) -> bool
    ensures { result ≡ are_wrong bits.exist bits.leaf }
{
    bits.exist == 0
        || bits.exist & bits.leaf != bits.leaf
        || bits.exist.is_power_of_two() && bits.leaf == bits.exist
}

/// The two bitmaps at the front of `bytes`, and the bytes after them. Refused as `Short` or `Bitmap`.
#[tactic(auto, unfolding(crate::specs::Reading::bitmaps_at))]
pub(crate) fn bitmaps_of(bytes: &[u8]) -> Result<(Bitmaps, &[u8]), CodecFault>
    ensures { Reads (λ x. ((x.0.exist, x.0.leaf), x.1.now)) result (bitmaps_at bytes.now) }
{
    let (exist, rest) = u16_at(bytes)?;
    let (leaf, rest) = u16_at(rest)?;
    let bits = Bitmaps { exist, leaf };
    if are_wrong(bits) {
        return Err(CodecFault::Bitmap);
    }
    Ok((bits, rest))
}
