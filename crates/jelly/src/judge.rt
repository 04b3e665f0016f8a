// One claim, in parts as the caller has them.
ghost use Rattle.std.specs.Prelude.{◌≡◌};
ghost use Rattle.jf_hash.specs.Hashes.{K};
ghost use Rattle.jf_evidence.specs.Proofs.{refusal};
ghost use Rattle.jelly.specs.Claims.{flat_claim, flat_proof, verdict_number, IsSoundVerdict, IsFairVerdict};

use jf_ask::LookupFault;
use jf_evidence::{honest_claims_are_accepted, refusal, wrong_claims_collide};
use jf_hash::key_of;
use jf_path::know_key;

/// Judges what is claimed of a name under a root: a value, or its absence if `has_value` is 0, by the leaf on the way of its
/// key, or by none if `has_leaf` is 0, and the siblings beside the way, the lowest first. 0 is accepted; 1 to 4 is the
/// number of the first check that fails (docs/FORMATS.md, Proof blocks).
#[unsafe(no_mangle)]
pub extern "C" fn jelly_judge(
    root: &[u8; 32],
    name: &[u8],
    has_value: u32,
    value: &[u8],
    has_leaf: u32,
    leaf_key: &[u8; 32],
    leaf_hash: &[u8; 32],
    siblings: &[[u8; 32]],
) -> u32
    // The result is the number of the first check that fails, or 0.
    ensures verdict { result ≡ verdict_number (refusal root.now (K name.now) (flat_claim has_value value.now) (flat_proof has_leaf leaf_key.now leaf_hash.now siblings.now)) }
    // What is accepted under the root of a map is what the map says of the name, or two lists with one SHA-256 are at hand.
    ensures sound { IsSoundVerdict root.now name.now (flat_claim has_value value.now) (flat_proof has_leaf leaf_key.now leaf_hash.now siblings.now) result }
    // What a map says of a name is accepted under its root with its honest proof.
    ensures fair { IsFairVerdict root.now name.now (flat_claim has_value value.now) (flat_proof has_leaf leaf_key.now leaf_hash.now siblings.now) result }
{
    wrong_claims_collide();
    honest_claims_are_accepted();
    know_key(leaf_key);
    let claim = if has_value == 0 { None } else { Some(value) };
    let leaf = if has_leaf == 0 {
        None
    } else {
        Some((*leaf_key, *leaf_hash))
    };
    match refusal(root, &key_of(name), claim, &leaf, siblings) {
        None => 0,
        Some(why) => u32::from(LookupFault::Claim(why).number()),
    }
}
