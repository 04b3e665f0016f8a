// The totals of the full parts that end with one more hash.
ghost use Rattle.std.specs.Prelude.{◌≡◌, ◌-◌, ◌<◌, ◌≤◌, ◌∷◌, ◌++◌, [], List, ℕ, length, take, slice_index_or, OnOk, OnErr};
ghost use Rattle.jf_accum.specs.Totals.{B};
ghost use Rattle.jf_accum.specs.Inner.{inner_totals};

use crate::parts::left_count_after;
use crate::tagged::{pair, single};
use jf_hash::Hash;
use jf_path::Memory;

// Appends the totals of the full parts of `hashes` that end with one more hash, the shortest first. `inner` ends with
// the totals of the full parts without it, which stay where they are, also if memory runs out.
pub(crate) fn push_totals(hashes: &[Hash], hash: &Hash, inner: &mut Vec<Hash>) -> Result<(), Memory>
    requires { (front : List (List ℕ)) × (inner.old.items ≡ front ++ inner_totals hashes.now) }
    ensures ok { (front : List (List ℕ)) → inner.old.items ≡ front ++ inner_totals hashes.now → OnOk result (inner.new.items ≡ front ++ inner_totals (hashes.now ++ hash.now ∷ [])) }
    ensures front { take (length inner.old.items) inner.new.items ≡ inner.old.items }
{
    match hashes {
        [] => Ok(()),
        [first] => {
            inner.push(pair(&single(first), &single(hash)))?;
            Ok(())
        }
        _ => {
            let k = left_count_after(hashes.len());
            if k == hashes.len() {
                return Ok(());
            }
            let (_, right) = hashes.split_at(k);
            push_totals(right, hash, inner)?;
            if right.len() + 1 == k {
                push_own(k, inner)?;
            }
            Ok(())
        }
    }
}

// Appends the total of two full parts of `k` hashes, of which the inner totals stand last.
fn push_own(k: usize, inner: &mut Vec<Hash>) -> Result<(), Memory>
    requires positive { 0 < k }
    requires within { k ≤ length inner.old.items }
    ensures ok { OnOk result (inner.new.items ≡ inner.old.items ++ B (slice_index_or inner.old.items (length inner.old.items - k) []) (slice_index_or inner.old.items (length inner.old.items - 1) []) ∷ []) }
    ensures err { OnErr result (inner.new.items ≡ inner.old.items) }
{
    let len = inner.len();
    let own = pair(&inner[len - k], &inner[len - 1]);
    inner.push(own)?;
    Ok(())
}
