// Judging a chunk by the frontier of what is known.
ghost use Rattle.std.specs.Prelude.{◌≡◌, ◌≢◌, ◌+◌, ◌*◌, ◌≤◌, MatchResult, IfErr, Some, length};
ghost use Rattle.jf_evidence.specs.Ranges.{Entries, range_refusal};
ghost use Rattle.jf_evidence.specs.declared.range_proof.RangeFault.TheVariants as fault;
ghost use Rattle.jf_range.specs.Frontiers.{frontier_of, IsAscending};
ghost use Rattle.jf_range.specs.Judgements.{IsAcceptedRange};

use crate::checks::{is_crowded, is_miscounted, rises_behind};
use crate::frontier::Frontier;
use jf_evidence::{RangeFault, RangeProof};
use jf_hash::Hash;
use jf_path::{Pairs, know_entries};
use jf_steps::Steps;
use std::sync::ledger::Ledger;

impl Frontier {
    /// Returns the frontier of the known entries with new ones, if these are accepted after them under the root of a
    /// map. They are refused by the first check that fails. A step is one hash computed: only a chunk that passes the
    /// first four checks is hashed.
    pub fn accept<L: Ledger>(
        &self,
        root: &Hash,
        fresh: &Pairs,
        proof: &RangeProof,
        steps: &mut Steps<L>,
    ) -> Result<Frontier, RangeFault>
        // If this is the frontier of ascending entries, `Ok` has that of all, which ascend; `Err` has the first check that fails.
        ensures judged { (known : Entries) → self.now ≡ frontier_of known → IsAscending known → MatchResult result (IsAcceptedRange root.now known fresh.now proof.now) (λ why. range_refusal root.now known fresh.now proof.now ≡ Some why) }
        // At most 257 steps are taken for each new entry, and 257 more.
        ensures cost { steps.new ≤ steps.old + 257 * (length fresh.now + 1) }
        // After every refusal but `WrongRoot` no step was taken.
        ensures idle { IfErr result (λ why. why ≢ fault.WrongRoot → steps.new ≡ steps.old) }
    {
        let entries = fresh.as_slice();
        know_entries(entries);
        let Some(last) = entries.last() else {
            return Err(RangeFault::Empty);
        };
        if !rises_behind(&self.last, entries) {
            return Err(RangeFault::Order);
        }
        if is_miscounted(&last.0, proof) {
            return Err(RangeFault::Count);
        }
        if is_crowded(&self.last, entries, proof.depth) {
            return Err(RangeFault::Lone);
        }
        let mut next = self.copy();
        next.extend(entries, steps);
        if next.chunk_root(proof, steps) != *root {
            return Err(RangeFault::WrongRoot);
        }
        Ok(next)
    }
}
