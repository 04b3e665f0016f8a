// Hashes with the totals of the full parts of them.
ghost use Rattle.std.specs.Prelude.{◌≡◌, ◌∷◌, ◌++◌, [], length, take, IfOk, MatchResult, OnOk, OnErr};
ghost use Rattle.jf_accum.specs.Totals.{total};
ghost use Rattle.jf_accum.specs.Inner.{inner_totals};
ghost use Rattle.jf_accum.specs.Outcomes.{IsMember, IsNoMember, IsExtension, IsNoExtension};

use crate::ask::AccumAsk;
use crate::proving::{push_extension, push_member};
use crate::pushing::push_totals;
use crate::subtree::Subtree;
use jf_hash::Hash;
use jf_path::{HashList, Memory};
use std::alloc::Global;
use std::marker::Model;

/// Hashes, in the order in which they were pushed, with one total for all of them. It keeps at most 64 bytes for each,
/// and the room that its two vectors have taken ahead: the hash, and the totals of the full parts, which are fewer. So
/// `total` and the proofs hash about one total for each bit of the number of hashes, and `push` about two on average.
#[derive(Debug, Drop)]
pub struct Accumulator {
    hashes: Vec<Hash>,
    inner: Vec<Hash>,
}

impl Model for Accumulator {
    ghost use Rattle.std.specs.Prelude.{List, ℕ, ◌≡◌};

    ghost Value = { List (List ℕ) };

    ghost use Rattle.jf_accum.specs.Inner.{inner_totals};

    ghost view = { λ a. a.hashes.items };

    ghost invariant = { λ a. a.inner.items ≡ inner_totals a.hashes.items };
}

impl Accumulator {
    /// No hash. Takes no memory.
    pub fn new(alloc: Global) -> Accumulator
        // The result has no hash.
        ensures { result ≡ [] }
    {
        Accumulator {
            hashes: Vec::new(alloc),
            inner: Vec::new(alloc),
        }
    }

    /// No hash, with the room for so many taken at once.
    pub fn with_capacity(alloc: Global, count: usize) -> Result<Accumulator, Memory>
        // After Ok, the result has no hash.
        ensures { IfOk result (λ all. all ≡ []) }
    {
        Ok(Accumulator {
            hashes: Vec::with_capacity(alloc, count)?,
            inner: Vec::with_capacity(alloc, count)?,
        })
    }

    /// The number of hashes.
    pub fn len(&self) -> u64
        // The result is the number of hashes.
        ensures { result ≡ length self.now }
    {
        self.hashes.len() as u64
    }

    /// The total of all hashes. Takes no memory.
    pub fn total(&self) -> Hash
        // The result is the total of all hashes in their order.
        ensures { result ≡ total self.now }
    {
        self.tree().total()
    }

    /// Adds a hash at the end. If memory runs out, the hashes are unchanged.
    pub fn push(&mut self, hash: &Hash) -> Result<(), Memory>
        // After Ok, the hashes are the old ones with this one at the end.
        ensures ok { OnOk result (self.new ≡ self.old ++ hash.now ∷ []) }
        // After Err, the hashes are unchanged.
        ensures err { OnErr result (self.new ≡ self.old) }
    {
        push_both(&mut self.hashes, &mut self.inner, hash)
    }

    /// The proof that a hash stands at a place, which `verify_member` accepts: the totals beside its way, the lowest
    /// first. At a place beyond the last, returns the number of hashes, and takes no memory.
    pub fn prove_member(&self, alloc: Global, index: u64) -> Result<HashList, AccumAsk>
        // Returns the honest path or `Memory` if a hash stands at the place, otherwise `Beyond` with the number of hashes.
        ensures { MatchResult result (IsMember self.now index) (IsNoMember self.now index) }
    {
        if index >= self.len() {
            return Err(AccumAsk::Beyond(self.len()));
        }
        let mut proof = HashList::new(alloc);
        push_member(&self.tree(), index, &mut proof)?;
        Ok(proof)
    }

    /// The proof that all hashes begin with the first `old`, one or more, which `verify_extends` accepts: the totals
    /// that lead from them to all, the lowest first. If `old` is 0 or there are not so many hashes, returns their number,
    /// and takes no memory.
    pub fn prove_extends(&self, alloc: Global, old: u64) -> Result<HashList, AccumAsk>
        // Returns the honest extension or `Memory` if 0 < `old` ≤ the number of hashes, otherwise `Beyond` with this number.
        ensures { MatchResult result (IsExtension self.now old) (IsNoExtension self.now old) }
    {
        if old == 0 || old > self.len() {
            return Err(AccumAsk::Beyond(self.len()));
        }
        let mut proof = HashList::new(alloc);
        push_extension(&self.tree(), old, &mut proof)?;
        Ok(proof)
    }

    // All hashes, to be cut in parts.
    fn tree(&self) -> Subtree<'_>
        ensures { result ≡ self.now }
    {
        Subtree {
            hashes: &self.hashes,
            inner: &self.inner,
        }
    }
}

// Adds a hash, and then the totals of the full parts that end with it. If memory runs out, both are unchanged.
fn push_both(hashes: &mut Vec<Hash>, inner: &mut Vec<Hash>, hash: &Hash) -> Result<(), Memory>
    requires { inner.old.items ≡ inner_totals hashes.old.items }
    ensures hashes_ok { OnOk result (hashes.new.items ≡ hashes.old.items ++ hash.now ∷ []) }
    ensures hashes_err { OnErr result (hashes.new.items ≡ hashes.old.items) }
    ensures inner { inner.new.items ≡ inner_totals hashes.new.items }
{
    let kept = inner.len();
    if push_totals(hashes, hash, inner).is_err() {
        inner.truncate(kept);
        return Err(Memory);
    }
    if hashes.push(*hash).is_err() {
        inner.truncate(kept);
        return Err(Memory);
    }
    Ok(())
}
