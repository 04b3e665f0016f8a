// An accepted extension of hashes that the list doesn't begin with: two different inputs have one hash.
ghost use Rattle.std.specs.Prelude.{◌≡◌, ◌<◌, ◌≤◌, ℕ, List, Bool, None, length, reverse, IfOk, MatchResult};
ghost use Rattle.jf_hash.specs.Hashes.{IsCollision};
ghost use Rattle.jf_accum.specs.Totals.{total};
ghost use Rattle.jf_accum.specs.Extensions.{extension_count_in, extension_totals, extension_refusal};
ghost use Rattle.jf_accum.specs.Outcomes.{IsFront, IsExtensionOutcome};

use crate::extension::extension_totals;
use crate::inputs::parts_clash;
use crate::lists_clash::lists_clash;
use crate::parts::left_count;
use crate::plain::plain_total;
use jf_hash::Hash;
use jf_path::{Bytes, HashList, Memory};
use std::alloc::Global;

/// Looks at two lists of which an extension is accepted that leads from the total of the old one to that of the other.
/// Returns `None` if the other begins with the old one, otherwise two different lists of bytes with one SHA-256. Takes
/// memory only in this case.
pub fn extends_collide(
    alloc: Global,
    old: &HashList,
    list: &HashList,
    proof: &HashList,
) -> Result<Option<(Bytes, Bytes)>, Memory>
    // The proof is accepted for the total and the number of the old list and those of the other list.
    requires { extension_refusal (total old.now) (length old.now) (total list.now) (length list.now) proof.now ≡ None }
    // Returns `None` if the list begins with the old one, otherwise two different inputs of one SHA-256, or `Memory`.
    ensures { MatchResult result (IsExtensionOutcome old.now list.now) (λ _. IsFront old.now list.now → ⊥) }
{
    let olds = old.as_slice();
    let hashes = list.as_slice();
    let (front, _) = hashes.split_at(olds.len());
    if front == olds {
        return Ok(None);
    }
    let found = extension_clash(alloc, &plain_total(olds), olds, hashes, proof.as_slice())?;
    Ok(Some(found))
}

// Where the extension comes apart from the trees of the two lists: the inputs of the highest pair of totals that
// differ, or those in the trees of two parts of one length. The path stands with the lowest total first.
fn extension_clash(
    alloc: Global,
    old_total: &Hash,
    old: &[Hash],
    list: &[Hash],
    path: &[Hash],
) -> Result<(Bytes, Bytes), Memory>
    requires positive { 0 < length old.now }
    requires within { length old.now ≤ length list.now }
    requires count { (whole : Bool) × (length path.now ≡ extension_count_in (length list.now) (length old.now) whole) }
    requires old_meets { (extension_totals old_total.now (length old.now) (length list.now) (reverse path.now)).0 ≡ total old.now }
    requires meets { (extension_totals old_total.now (length old.now) (length list.now) (reverse path.now)).1 ≡ total list.now }
    requires apart { IsFront old.now list.now → ⊥ }
    ensures { IfOk result (λ found. IsCollision found.0 found.1) }
{
    if old.len() == list.len() {
        return lists_clash(alloc, old, list);
    }
    let Some((side, lower)) = path.split_last() else {
        unreachable!();
    };
    let k = left_count(list.len() as u64) as usize;
    let (left, right) = list.split_at(k);
    if old.len() <= k {
        let below = extension_totals(old_total, old.len() as u64, k as u64, lower);
        if let Some(found) = parts_clash(alloc, &below.1, side, left, right)? {
            return Ok(found);
        }
        return extension_clash(alloc, old_total, old, left, lower);
    }
    let (old_left, old_right) = old.split_at(k);
    let below = extension_totals(old_total, old_right.len() as u64, right.len() as u64, lower);
    if let Some(found) = parts_clash(alloc, side, &below.1, left, right)? {
        return Ok(found);
    }
    if let Some(found) = parts_clash(alloc, side, &below.0, old_left, old_right)? {
        return Ok(found);
    }
    if old_left != left {
        return lists_clash(alloc, old_left, left);
    }
    extension_clash(alloc, old_total, old_right, right, lower)
}
