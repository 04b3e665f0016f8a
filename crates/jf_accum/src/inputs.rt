// Two inputs of one total: what is hashed, a tag byte and then the parts.
ghost use Rattle.std.specs.Prelude.{◌≡◌, ◌≢◌, ◌∷◌, ◌++◌, IfOk, MatchOption};
ghost use Rattle.jf_hash.specs.Hashes.{IsCollision};
ghost use Rattle.jf_accum.specs.Totals.{A, B, total};

use crate::plain::plain_total;
use jf_hash::Hash;
use jf_path::{Bytes, Memory};
use std::alloc::Global;

// What the totals of two hashes hash, if these differ and the totals don't.
pub(crate) fn single_clash(
    alloc: Global,
    first: &Hash,
    second: &Hash,
) -> Result<(Bytes, Bytes), Memory>
    requires meet { A first.now ≡ A second.now }
    requires apart { first.now ≢ second.now }
    ensures { IfOk result (λ found. IsCollision found.0 found.1) }
{
    let x = tagged_input(alloc, 5, first, &[])?;
    let y = tagged_input(alloc, 5, second, &[])?;
    Ok((x, y))
}

// What the totals of two pairs of parts hash, if these totals are the same: two different inputs, or `None` if the parts'
// totals are the same.
pub(crate) fn pair_clash(
    alloc: Global,
    left: &Hash,
    right: &Hash,
    other_left: &Hash,
    other_right: &Hash,
) -> Result<Option<(Bytes, Bytes)>, Memory>
    requires { B left.now right.now ≡ B other_left.now other_right.now }
    ensures { IfOk result (λ found. MatchOption found ((left.now ≡ other_left.now) × (right.now ≡ other_right.now)) (λ inputs. IsCollision inputs.0 inputs.1)) }
{
    if left == other_left && right == other_right {
        return Ok(None);
    }
    let x = tagged_input(alloc, 6, left, right)?;
    let y = tagged_input(alloc, 6, other_left, other_right)?;
    Ok(Some((x, y)))
}

// The same for two totals and those of the two parts of a list.
pub(crate) fn parts_clash(
    alloc: Global,
    left: &Hash,
    right: &Hash,
    left_part: &[Hash],
    right_part: &[Hash],
) -> Result<Option<(Bytes, Bytes)>, Memory>
    requires { B left.now right.now ≡ B (total left_part.now) (total right_part.now) }
    ensures { IfOk result (λ found. MatchOption found ((left.now ≡ total left_part.now) × (right.now ≡ total right_part.now)) (λ inputs. IsCollision inputs.0 inputs.1)) }
{
    let left_total = plain_total(left_part);
    let right_total = plain_total(right_part);
    pair_clash(alloc, left, right, &left_total, &right_total)
}

// A tag, followed by two parts.
fn tagged_input(alloc: Global, tag: u8, first: &[u8], second: &[u8]) -> Result<Bytes, Memory>
    ensures { IfOk result (λ input. input ≡ tag ∷ first.now ++ second.now) }
{
    let mut input = Bytes::new(alloc);
    input.push(tag)?;
    input.append(first)?;
    input.append(second)?;
    Ok(input)
}
