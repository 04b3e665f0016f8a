// Claims on many keys, judged by one proof over a root alone.
ghost use Rattle.std.specs.Prelude.{◌≡◌, Some, IsSome, option_map};
ghost use Rattle.std.specs.Option.{option_copied};
ghost use Rattle.std.specs.Result.{result_err};
ghost use Rattle.jf_multi.specs.Trees.{Tree, tree_of, tree_root};
ghost use Rattle.jf_multi.specs.Verdicts.{first_missing, first_single_refusal, many_refusal};

use crate::checks::judge;
use crate::claims::Claims;
use crate::item::ManyFault;
use crate::many_proof::ManyProof;
use crate::top::root_of;
use jf_hash::Hash;
use jf_path::{Bytes, Key};

/// Whether one proof shows claims on many keys, values or absences, under the root of a map. The refusal is the first
/// check that fails. Takes no memory. Each fork and leaf of the proof is hashed once, and each value that is claimed; the
/// path of each key is walked twice, at most 257 items each time.
pub fn verify_many(root: &Hash, claims: &Claims, proof: &ManyProof) -> Result<(), ManyFault>
    // Returns the first fault: `Shape`, then the least claim's `Missing`, then the least claim's `Single`; or Ok.
    ensures { result_err result ≡ many_refusal root.now claims.now proof.now }
{
    let Some(top) = root_of(proof.as_slice()) else {
        return Err(ManyFault::Shape);
    };
    if let Err(fault) = find_ends(claims.as_slice(), proof) {
        return Err(fault);
    }
    judge_each(root, &top, claims.as_slice(), proof)
}

// Whether each key's path ends at an end.
fn find_ends(claims: &[(Key, Option<Bytes>)], proof: &ManyProof) -> Result<(), ManyFault>
    requires { IsSome (tree_of proof.now) }
    ensures { (tree : Tree) → tree_of proof.now ≡ Some tree → result_err result ≡ first_missing 0 tree claims.now }
{
    for (i, claim) in claims.iter().enumerate() {
        if proof.end_of(&claim.0).is_none() {
            return Err(ManyFault::Missing(i as u64));
        }
    }
    Ok(())
}

// The value that is claimed, or `None` if absence is.
fn value_of(claim: &Option<Bytes>) -> Option<&[u8]>
    ensures { option_copied result ≡ claim.now }
{
    match claim {
        Some(bytes) => Some(bytes.as_slice()),
        None => None,
    }
}

// Whether each claim is shown by the end of its key's path in the tree, whose root is `top`.
fn judge_each(
    root: &Hash,
    top: &Hash,
    claims: &[(Key, Option<Bytes>)],
    proof: &ManyProof,
) -> Result<(), ManyFault>
    requires { option_map tree_root (tree_of proof.now) ≡ Some top.now }
    ensures { (tree : Tree) → tree_of proof.now ≡ Some tree → result_err result ≡ first_single_refusal root.now 0 tree claims.now }
{
    for (i, claim) in claims.iter().enumerate() {
        if let Some(end) = proof.end_of(&claim.0) {
            if let Err(why) = judge(root, top, &claim.0, value_of(&claim.1), &end) {
                return Err(ManyFault::Single(i as u64, why));
            }
        }
    }
    Ok(())
}
