// A name is looked up in the store's reply to `prove`, under a root that the caller has from elsewhere.
ghost use Rattle.std.specs.Prelude.{◌≡◌, ◌≤◌, Some};
ghost use Rattle.jf_ask.specs.Lookups.{lookup, lookup_of, lookup_number, IsSoundLookup, IsFairLookup};

use crate::block::read_block;
use crate::laws::honest_blocks_are_believed;
use jf_evidence::{ProofFault, refusal, wrong_claims_collide};
use jf_hash::{Hash, key_of};

/// What a reply shows of a name under a root.
#[derive(Clone, Copy)]
pub enum Lookup<'a> {
    /// The name has a value: its digits where they stand in the reply, two to a byte and at most 8,192. [`unhexed_count`]
    /// gives its bytes.
    ///
    /// [`unhexed_count`]: crate::unhexed_count
    Value(&'a [u8]),
    /// The name has no value.
    Absent,
    /// Nothing is shown.
    Refused(LookupFault),
}

/// Why a reply shows nothing: the first cause that holds, in this order.
#[derive(Clone, Copy, Debug, PartialEq, Eq)]
pub enum LookupFault {
    /// The reply isn't one proof block of at most 256 siblings with nothing after it.
    NoBlock,
    /// The block is on another name.
    OtherName,
    /// The block's claim isn't shown under the root. `TooDeep` doesn't occur.
    Claim(ProofFault),
}

impl LookupFault {
    /// The number of the cause, from 1 to 6: 1 to 4 for the check of the claim that fails (docs/FORMATS.md, Proof blocks), 5
    /// for a block on another name, and 6 for a reply that isn't one block.
    pub fn number(self) -> u8
        // `TooDeep`, `WrongLeaf`, `WrongPrefix` and `WrongRoot` are 1 to 4, `OtherName` is 5, and `NoBlock` is 6.
        ensures value { result ≡ lookup_number self }
        // The number is at least 1.
        ensures small { 1 ≤ result }
        // The number is at most 6.
        ensures bounded { result ≤ 6 }
    {
        match self {
            LookupFault::Claim(ProofFault::TooDeep) => 1,
            LookupFault::Claim(ProofFault::WrongLeaf) => 2,
            LookupFault::Claim(ProofFault::WrongPrefix) => 3,
            LookupFault::Claim(ProofFault::WrongRoot) => 4,
            LookupFault::OtherName => 5,
            LookupFault::NoBlock => 6,
        }
    }
}

/// What the reply to `prove` (docs/FORMATS.md, Proof blocks) shows of a name under a root. The root has to come from
/// elsewhere than the reply: any line that sets a root makes the reply `NoBlock`. Takes no memory, and of the
/// stack at most some 72 KB, with 256 siblings.
#[tactic(auto, unfolding(crate::specs::Lookups::lookup))]
pub fn look_up<'a>(root: &Hash, name: &[u8], reply: &'a [u8]) -> Lookup<'a>
    // The result is what the reply shows of the name: the digits of its value, its absence, or why it shows nothing.
    ensures answer { lookup_of result ≡ Some (lookup root.now name.now reply.now) }
    // If a map with this root says something else than is shown, two different lists with one SHA-256 are at hand.
    ensures sound { IsSoundLookup root.now name.now reply.now }
    // If the reply is that of a map with this root to `prove` of this name, the result is what the map says of the name.
    ensures fair { IsFairLookup root.now name.now reply.now }
{
    wrong_claims_collide();
    honest_blocks_are_believed();
    let mut own = [0; 128];
    let mut bytes = [0; 4096];
    let mut siblings = [[0; 32]; 256];
    let Some(parts) = read_block(reply, &mut own, &mut bytes, &mut siblings) else {
        return Lookup::Refused(LookupFault::NoBlock);
    };
    if &own[..parts.name] != name {
        return Lookup::Refused(LookupFault::OtherName);
    }
    let claim = match parts.value {
        Some((n, _)) => Some(&bytes[..n]),
        None => None,
    };
    match refusal(
        root,
        &key_of(name),
        claim,
        &parts.leaf,
        &siblings[..parts.siblings],
    ) {
        Some(why) => Lookup::Refused(LookupFault::Claim(why)),
        None => match parts.value {
            Some((_, digits)) => Lookup::Value(digits),
            None => Lookup::Absent,
        },
    }
}
