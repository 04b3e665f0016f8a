// The left frontier of known entries: at most 256 hashes, whatever the number of entries.
ghost use Rattle.std.specs.Prelude.{◌≡◌, ◌+◌, ◌*◌, ◌<◌, ◌≤◌, [], ◌∷◌, ◌++◌, IfSome, IsSome, Some, T, length, map, take};
ghost use Rattle.std.specs.List.{last_or};
ghost use Rattle.std.specs.declared.cmp.Ordering.TheVariants.{Less};
ghost use Rattle.jf_path.specs.Keys.{key_cmp};
ghost use Rattle.jf_path.specs.Nibbles.{common_bits};
ghost use Rattle.jf_hash.specs.Roots.{leaf_of, part_root};
ghost use Rattle.jf_evidence.specs.Proofs.{start_of};
ghost use Rattle.jf_evidence.specs.Ranges.{Entries, range_root, zero_bits};
ghost use Rattle.jf_range.specs.Ways.{padded_siblings, raised_siblings};
ghost use Rattle.jf_range.specs.Frontiers.{frontier_of, rises_after, IsAscending};

use crate::climbing::{climb, climb_between};
use crate::hashing::{Subject, hash};
use jf_evidence::RangeProof;
use jf_hash::{Hash, empty};
use jf_path::{Bytes, Key, common_bits};
use jf_steps::Steps;
use std::marker::Model;
use std::sync::ledger::Ledger;

/// What is kept of entries whose keys ascend, so that more can be added, and roots computed, without hashing them
/// again: the last one's leaf, and the hashes of what stands on the left of its way.
#[derive(Drop)]
pub struct Frontier {
    pub(crate) last: Option<(Key, Hash)>,
    lefts: [Hash; 256],
    depth: usize,
}

impl Model for Frontier {
    ghost use Rattle.std.specs.Prelude.{◌≡◌, ◌≤◌, length, take};
    ghost use Rattle.jf_range.specs.Frontiers.{FrontierValue};

    ghost Value = { FrontierValue };

    ghost view = { λ f. record { last = f.last; lefts = take f.depth f.lefts } };

    ghost use Rattle.jf_evidence.specs.Proofs.{IsLeaf};

    ghost invariant = { λ f. (f.depth ≤ 256) × IsLeaf f.last };
}

impl Frontier {
    /// The frontier of no entries.
    pub fn new() -> Frontier
        // The result is the frontier of no entries.
        ensures { result ≡ frontier_of [] }
    {
        let none = empty();
        let lefts = [none; 256];
        Frontier {
            last: None,
            lefts,
            depth: 0,
        }
    }

    // A copy of the frontier.
    pub(crate) fn copy(&self) -> Frontier
        // The result is the same frontier.
        ensures { result ≡ self.now }
    {
        Frontier {
            last: self.last,
            lefts: self.lefts,
            depth: self.depth,
        }
    }

    /// Makes this the frontier of one more entry, whose key is above all others. A step is one hash computed.
    pub fn push<L: Ledger>(&mut self, key: &Key, value: &[u8], steps: &mut Steps<L>)
        // The key is above that of the last entry, if there is one.
        requires { IfSome self.old.last (λ l. key_cmp l.0 key.now ≡ Less) }
        // If this was the frontier of entries that ascend with the new one at their end, it is now the frontier of all these.
        ensures value { (es : Entries) → self.old ≡ frontier_of es → IsAscending (es ++ (key.now, value.now) ∷ []) → self.new ≡ frontier_of (es ++ (key.now, value.now) ∷ []) }
        // The last leaf is that of the new entry.
        ensures last { self.new.last ≡ Some (leaf_of (key.now, value.now)) }
        // At most 257 steps are taken.
        ensures cost { steps.new ≤ steps.old + 257 }
    {
        if let Some(leaf) = self.last {
            let last = leaf.0;
            let value_hash = leaf.1;
            self.raise(&last, &value_hash, key, steps);
        }
        let key = *key;
        let value_hash = hash(Subject::Value(value), steps);
        self.last = Some((key, value_hash));
    }

    /// Makes this the frontier of more entries, whose keys ascend from the last one on. A step is one hash computed.
    pub fn extend<L: Ledger>(&mut self, entries: &[(Key, Bytes)], steps: &mut Steps<L>)
        // The keys of the new entries ascend strictly, from that of the last entry on.
        requires { T (rises_after self.old.last entries.now) }
        // If this was the frontier of entries that ascend with the new ones behind them, it is now the frontier of all these.
        ensures value { (es : Entries) → self.old ≡ frontier_of es → IsAscending (es ++ entries.now) → self.new ≡ frontier_of (es ++ entries.now) }
        // The last leaf is that of the last new entry, or the one from before if there is none.
        ensures last { self.new.last ≡ last_or self.old.last (map leaf_of entries.now) }
        // At most 257 steps are taken for each new entry.
        ensures cost { steps.new ≤ steps.old + 257 * length entries.now }
    {
        for entry in entries {
            let key = entry.0;
            self.push(&key, entry.1.as_slice(), steps);
        }
    }

    /// The root of all entries. A step is one hash computed: there are at most 257, however many entries there are.
    pub fn root<L: Ledger>(&self, steps: &mut Steps<L>) -> Hash
        // If this is the frontier of ascending entries, the result is their root.
        ensures value { (es : Entries) → self.now ≡ frontier_of es → IsAscending es → result ≡ part_root 0 es }
        // At most 257 steps are taken.
        ensures cost { steps.new ≤ steps.old + 257 }
    {
        let Some(last) = &self.last else {
            return empty();
        };
        let key = last.0;
        let value_hash = last.1;
        let leaf = hash(Subject::Leaf(&key, &value_hash), steps);
        climb(&key, 0, &leaf, &self.lefts[..self.depth], steps)
    }

    /// The root that all entries and a proof for a chunk that ends with the last one determine. A step is one hash
    /// computed.
    pub fn chunk_root<L: Ledger>(&self, proof: &RangeProof, steps: &mut Steps<L>) -> Hash
        // There is at least one entry.
        requires nonempty { IsSome self.now.last }
        // The depth of the proof is at most 256.
        requires depth { proof.now.depth ≤ 256 }
        // The proof has as many siblings as the last key has 0 bits among its first `depth` bits.
        requires counted { IfSome self.now.last (λ l. length proof.now.siblings ≡ zero_bits proof.now.depth 0 l.0) }
        // If this is the frontier of ascending entries, the result is the root that they and the proof determine.
        ensures value { (es : Entries) → self.now ≡ frontier_of es → IsAscending es → result ≡ range_root es proof.now }
        // At most 257 steps are taken.
        ensures cost { steps.new ≤ steps.old + 257 }
    {
        let Some(last) = &self.last else {
            unreachable!();
        };
        let key = last.0;
        let value_hash = last.1;
        let leaf = hash(Subject::Leaf(&key, &value_hash), steps);
        let depth = proof.depth as usize;
        let rights = proof.siblings.as_slice();
        climb_between(
            &key,
            0,
            depth,
            &leaf,
            &self.lefts[..self.depth],
            rights,
            steps,
        )
    }

    // Makes the hashes on the left those of the next key's way. The last of them closes the part with the last entry.
    fn raise<L: Ledger>(&mut self, last: &Key, value_hash: &Hash, key: &Key, steps: &mut Steps<L>)
        requires { common_bits last.now key.now < 256 }
        ensures lefts { self.new.lefts ≡ raised_siblings (common_bits last.now key.now) 0 last.now (start_of (Some (last.now, value_hash.now))) self.old.lefts }
        ensures cost { steps.new ≤ steps.old + 256 }
    {
        let leaf = hash(Subject::Leaf(last, value_hash), steps);
        let common = common_bits(last, key) as usize;
        let lower = self.depth.min(common + 1);
        let beside = climb(
            last,
            common + 1,
            &leaf,
            &self.lefts[lower..self.depth],
            steps,
        );
        put_beside(&mut self.lefts, self.depth, common, beside);
        self.depth = common + 1;
    }
}

// Makes the first `common` hashes those of the first `depth`, then empty hashes, and puts `beside` after them.
fn put_beside(lefts: &mut [Hash], depth: usize, common: usize, beside: Hash)
    requires depth { depth ≤ length lefts.old }
    requires common { common < length lefts.old }
    ensures { take (common + 1) lefts.new ≡ padded_siblings common (take depth lefts.old) ++ beside ∷ [] }
{
    pad(lefts, depth, common);
    lefts[common] = beside;
}

// Makes the first `count` hashes those of the first `depth`, then empty hashes.
fn pad(lefts: &mut [Hash], depth: usize, count: usize)
    requires depth { depth ≤ length lefts.old }
    requires count { count ≤ length lefts.old }
    ensures { take count lefts.new ≡ padded_siblings count (take depth lefts.old) }
{
    for i in depth..count {
        let none = empty();
        lefts[i] = none;
    }
}
