// Of the accepted claims on a root and a key at most two are kept: the first, and the first that differs from it. The
// first of all accepted claims that contradicts a later one is always one of these two.
ghost use Rattle.std.specs.Prelude.{◌≡◌, true, IfSome, OnOk};
ghost use Rattle.std.specs.Option.{option_copied};
ghost use Rattle.jf_verify.specs.Accepted.{IsAccepted};
ghost use Rattle.jf_verify.specs.Kept.{nothing_kept, claims_on, is_first_to_differ, subject_of, with_claim};
ghost use Rattle.jf_verify.specs.Verdicts.{contradicts, contradicted_claim};

use crate::accepted::Accepted;
use crate::contradiction::contradicts;
use crate::table::ClaimTable;
use jf_path::Memory;
use std::alloc::Global;
use std::marker::Model;

/// The accepted claims that are kept.
#[derive(Drop)]
pub struct KeptClaims {
    firsts: ClaimTable,
    others: ClaimTable,
}

impl Model for KeptClaims {
    ghost use Rattle.jf_verify.specs.Kept.{ClaimsBySubject};

    ghost Value = { ClaimsBySubject };

    ghost view = { λ k. record { firsts = k.firsts; others = k.others } };
}

impl KeptClaims {
    /// No claim.
    pub fn new(alloc: Global) -> KeptClaims
        ensures { result ≡ nothing_kept }
    {
        KeptClaims {
            firsts: ClaimTable::new(alloc),
            others: ClaimTable::new(alloc),
        }
    }

    /// The first kept claim that contradicts this one.
    pub fn contradicted_claim(&self, claim: &Accepted) -> Option<&Accepted>
        ensures found { option_copied result ≡ contradicted_claim claim.now (claims_on self.now (subject_of claim.now)) }
        ensures accepted { IfSome result (λ other. IsAccepted other.now) }
        ensures contradicts { IfSome result (λ other. contradicts claim.now other.now ≡ true) }
    {
        if let Some(first) = self.firsts.get(&claim.root, &claim.judged.key) {
            if contradicts(claim, first) {
                return Some(first);
            }
        }
        if let Some(other) = self.others.get(&claim.root, &claim.judged.key) {
            if contradicts(claim, other) {
                return Some(other);
            }
        }
        None
    }

    /// Keeps a claim that is the first on its root and key, or the first that differs from that one. If memory runs
    /// out, nothing more is kept.
    pub fn add(&mut self, claim: Accepted) -> Result<(), Memory>
        requires { IsAccepted claim }
        ensures { OnOk result (self.new ≡ with_claim self.old claim) }
    {
        match self.firsts.get(&claim.root, &claim.judged.key) {
            Some(first) => {
                if !self.is_first_to_differ(&claim, first) {
                    return Ok(());
                }
                self.others.enter(claim)
            }
            None => self.firsts.enter(claim),
        }
    }

    /// Whether a claim is the first that differs from the first one on its root and key.
    fn is_first_to_differ(&self, claim: &Accepted, first: &Accepted) -> bool
        ensures { result ≡ is_first_to_differ self.now claim.now first.now }
    {
        contradicts(claim, first) && self.others.get(&claim.root, &claim.judged.key).is_none()
    }
}
