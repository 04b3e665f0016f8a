// Accepted claims by what they are on.
ghost use Rattle.std.specs.Prelude.{◌≡◌, [], IfSome, OnOk};
ghost use Rattle.std.specs.Option.{option_copied};
ghost use Rattle.jf_verify.specs.Accepted.{IsAccepted};
ghost use Rattle.jf_verify.specs.Kept.{claim_on, table_with_claim};

use crate::accepted::Accepted;
use jf_hash::Hash;
use jf_path::{Key, Memory};
use std::alloc::Global;
use std::collections::BTreeMap;
use std::marker::Model;

/// Accepted claims by root and key, at most one on each.
#[derive(Drop)]
pub struct ClaimTable {
    claims: BTreeMap<(Hash, Key), Accepted>,
}

impl Model for ClaimTable {
    ghost use Rattle.jf_verify.specs.Kept.{AcceptedClaims};
    ghost use Rattle.jf_verify.specs.Accepted.{AreAccepted};

    ghost Value = { AcceptedClaims };

    ghost view = { λ t. t.claims.entries };

    ghost invariant = { λ t. AreAccepted t.claims.entries };
}

impl ClaimTable {
    /// No claim.
    pub fn new(alloc: Global) -> ClaimTable
        ensures { result ≡ [] }
    {
        ClaimTable {
            claims: BTreeMap::new(alloc),
        }
    }

    /// The claim on a root and a key.
    #[tactic(auto, unfolding(crate::specs::Kept::claim_on))]
    pub fn get(&self, root: &Hash, key: &Key) -> Option<&Accepted>
        ensures claim { option_copied result ≡ claim_on self.now (root.now, key.now) }
        ensures accepted { IfSome result (λ claim. IsAccepted claim.now) }
    {
        self.claims.get(&(*root, *key))
    }

    /// Enters a claim on its root and key. If memory runs out, the table is unchanged.
    #[tactic(auto, unfolding(crate::specs::Kept::table_with_claim))]
    pub fn enter(&mut self, claim: Accepted) -> Result<(), Memory>
        requires { IsAccepted claim }
        ensures { OnOk result (self.new ≡ table_with_claim self.old claim) }
    {
        let root = claim.root;
        let key = claim.judged.key;
        self.claims.insert((root, key), claim)?;
        Ok(())
    }
}
