// A claim on a key is judged by its checks in order; the first that fails is the verdict (docs/FORMATS.md, Judging
// proofs).
ghost use Rattle.std.specs.Prelude.{◌≡◌};
ghost use Rattle.std.specs.Option.{option_copied};
ghost use Rattle.jf_evidence.specs.Proofs.{refusal};

use crate::checks::{is_wrong_leaf, is_wrong_prefix};
use crate::climbing::proof_root;
use crate::proof::ProofFault;
use jf_hash::Hash;
use jf_path::Key;

// The most siblings of a proof: one for each bit of a key.
const MAX_SIBLINGS: usize = 256;

/// Why a leaf and siblings, the lowest sibling first, don't show a claim on a key, a value or its absence, under the root
/// of a map; or `None` if they show it. The first check that fails (docs/FORMATS.md, Judging proofs). Takes no memory.
#[tactic(auto, unfolding(crate::specs::Proofs::refusal))]
pub fn refusal(
    root: &Hash,
    key: &Key,
    claim: Option<&[u8]>,
    leaf: &Option<(Key, Hash)>,
    siblings: &[Hash],
) -> Option<ProofFault>
    // The result is the first check that fails for the claim, or None if all pass.
    ensures { result ≡ refusal root.now key.now (option_copied claim.entry) (record { leaf = leaf.now; siblings = siblings.now }) }
{
    if siblings.len() > MAX_SIBLINGS {
        return Some(ProofFault::TooDeep);
    }
    if is_wrong_leaf(key, claim, leaf) {
        return Some(ProofFault::WrongLeaf);
    }
    if is_wrong_prefix(key, claim, leaf, siblings.len() as u64) {
        return Some(ProofFault::WrongPrefix);
    }
    if proof_root(key, leaf, siblings) != *root {
        return Some(ProofFault::WrongRoot);
    }
    None
}
