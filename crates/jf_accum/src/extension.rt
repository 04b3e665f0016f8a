// Whether a list of which only the total and the number are known begins with another one of this kind.
ghost use Rattle.std.specs.Prelude.{◌≡◌, ◌<◌, ◌≤◌, true, false, length, reverse};
ghost use Rattle.std.specs.Result.{result_err};
ghost use Rattle.jf_accum.specs.Extensions.{extension_count_in, extension_totals, extension_refusal};

use crate::fault::AccumFault;
use crate::parts::left_count;
use crate::tagged::pair;
use jf_hash::Hash;
use jf_path::HashList;

/// Whether a proof shows that `len` hashes with this total begin with the `old` hashes that have the old total. The
/// refusal is the first check that fails. Takes no memory.
#[tactic(auto, unfolding(crate::specs::Extensions::extension_refusal))]
pub fn verify_extends(
    old_total: &Hash,
    old: u64,
    total: &Hash,
    len: u64,
    proof: &HashList,
) -> Result<(), AccumFault>
    // Returns the fault of the first check that fails: range, length, old total, total. If none fails, returns Ok.
    ensures { result_err result ≡ extension_refusal old_total.now old total.now len proof.now }
{
    if old == 0 || old > len {
        return Err(AccumFault::Range);
    }
    if proof.len() != extension_count(len, old) {
        return Err(AccumFault::Length);
    }
    let totals = extension_totals(old_total, old, len, proof.as_slice());
    if totals.0 != *old_total {
        return Err(AccumFault::WrongOld);
    }
    if totals.1 != *total {
        return Err(AccumFault::WrongTotal);
    }
    Ok(())
}

// How many totals lead from the first `old` hashes, whose total is known, to all.
fn extension_count(len: u64, old: u64) -> u64
    requires positive { 0 < old }
    requires within { old ≤ len }
    ensures { result ≡ extension_count_in len old true }
{
    if old == len {
        return 0;
    }
    let k = left_count(len);
    if old <= k {
        1 + extension_count(k, old)
    } else {
        1 + rest_count(len - k, old - k)
    }
}

// How many totals lead from the first `old` hashes of a part, whose total isn't known, to all of it.
fn rest_count(len: u64, old: u64) -> u64
    requires positive { 0 < old }
    requires within { old ≤ len }
    ensures { result ≡ extension_count_in len old false }
{
    if old == len {
        return 1;
    }
    let k = left_count(len);
    if old <= k {
        1 + rest_count(k, old)
    } else {
        1 + rest_count(len - k, old - k)
    }
}

// The total of the first `old` hashes and that of all, by the totals that lead from one to the other, the lowest first.
pub(crate) fn extension_totals(old_total: &Hash, old: u64, len: u64, path: &[Hash]) -> (Hash, Hash)
    requires positive { 0 < old }
    requires within { old ≤ len }
    ensures { result ≡ extension_totals old_total.now old len (reverse path.now) }
{
    match path.split_last() {
        None => (*old_total, *old_total),
        Some((side, lower)) => {
            if old == len {
                return (*side, *side);
            }
            let k = left_count(len);
            if old <= k {
                let below = extension_totals(old_total, old, k, lower);
                (below.0, pair(&below.1, side))
            } else {
                let below = extension_totals(old_total, old - k, len - k, lower);
                (pair(side, &below.0), pair(side, &below.1))
            }
        }
    }
}
