// The hashes of the ranges within a node's places, kept so that a change hashes few of them again. That of all places is
// the node's own, and stands elsewhere.
ghost use Rattle.std.specs.Prelude.{◌≡◌, ℕ, ◌+◌, ◌-◌, ◌*◌, ◌^◌, ◌<◌, ◌≤◌, true, None, List, length, replicate, take, drop, slice_index_or, IfSome, IfOk, MatchResult, option_copied};
ghost use Rattle.std.specs.List.{count_by};
ghost use Rattle.jf_path.specs.Bitmaps.{present};
ghost use Rattle.jf_hash.specs.Roots.{part_root};
ghost use Rattle.jf_hash.specs.Slots.{Part, range_hash, slots_of};
ghost use Rattle.jf_hash.specs.Ranges.{Agree, IsRange, in_range, kept_hash, kept_hashes, pairs_within, range_index};
ghost use Rattle.jf_hash.specs.declared.slot.Slot.{Slot};

use crate::occupied::Occupied;
use crate::places::Places;
use crate::refreshing::{refresh, refresh_top};
use crate::tagged::{Hash, empty};
use jf_path::{Bitmap, Memory};
use jf_steps::Steps;
use std::alloc::Global;
use std::marker::{Brand, Model};
use std::sync::ledger::{Blank, Ledger};

/// The hashes of those ranges of two to eight places of a node that hold more than one leaf, each after those of its
/// halves. Of the other ranges nothing is kept: a lone leaf has its own hash, and a node that of all places. For each of
/// the fourteen ranges a bit says whether its hash is there.
#[derive(Debug, Drop)]
pub struct Ranges {
    kept: Bitmap,
    hashes: Vec<Hash>,
}

impl Model for Ranges {
    ghost use Rattle.std.specs.Prelude.{List, Option, ℕ, ◌≡◌, length};
    ghost use Rattle.std.specs.List.{count_by};
    ghost use Rattle.jf_path.specs.Bitmaps.{spread_items};

    ghost Value = { List (Option (List ℕ)) };

    ghost view = { λ r. spread_items r.kept r.hashes.items };

    ghost invariant = { λ r. count_by (λ bit. bit) r.kept ≡ length r.hashes.items };
}

impl Ranges {
    /// The hashes of the ranges of these places, and the hash of all places.
    pub fn of<P: Places>(alloc: Global, places: &P) -> Result<(Ranges, Hash), Memory>
        // After `Ok` the first is what is kept of the ranges of these places: a hash where one holds more than one leaf.
        ensures ranges { IfOk result (λ r. r.0 ≡ kept_hashes (P.slots places.now)) }
        // After `Ok` the second is the hash of all sixteen places.
        ensures top { IfOk result (λ r. r.1 ≡ range_hash 4 (P.slots places.now)) }
    {
        Ranges::of_uncounted::<P, Brand>(alloc, places, Blank::new(1))
    }

    /// The hashes that `of` returns, with the pairs counted that are hashed: one for each range of two places or more
    /// that holds more than one leaf. If memory runs out, none is hashed.
    pub fn of_counted<P: Places, L: Ledger>(
        alloc: Global,
        places: &P,
        steps: &mut Steps<L>,
    ) -> Result<(Ranges, Hash), Memory>
        // After `Ok` the first is what is kept of the ranges of these places.
        ensures ranges { IfOk result (λ r. r.0 ≡ kept_hashes (P.slots places.now)) }
        // After `Ok` the second is the hash of all sixteen places.
        ensures top { IfOk result (λ r. r.1 ≡ range_hash 4 (P.slots places.now)) }
        // After `Ok` one step more is counted for each range of two places or more with more than one leaf; after `Err` none.
        ensures pairs { MatchResult result (λ r. steps.new ≡ steps.old + pairs_within 4 (P.slots places.now) (replicate 16 true)) (λ e. steps.new ≡ steps.old) }
        // At most fifteen steps more are counted.
        ensures cost { steps.new ≤ steps.old + 15 }
    {
        places.children().know();
        let nothing = Ranges::none(alloc);
        nothing.updated_counted(alloc, &empty(), places, Bitmap::all(), steps)
    }

    // The hashes, with the pairs counted in a ledger of their own.
    fn of_uncounted<P: Places, L: Ledger>(
        alloc: Global,
        places: &P,
        blank: Blank,
    ) -> Result<(Ranges, Hash), Memory>
        requires name { blank.name ≡ L.name }
        requires parts { blank.parts ≡ L.parts }
        requires positive { 0 < blank.parts }
        ensures ranges { IfOk result (λ r. r.0 ≡ kept_hashes (P.slots places.now)) }
        ensures top { IfOk result (λ r. r.1 ≡ range_hash 4 (P.slots places.now)) }
    {
        let mut steps = Steps::<L>::new(blank);
        Ranges::of_counted(alloc, places, &mut steps)
    }

    /// The hashes of the ranges of these places, of which only those in `changed` may differ from before, and the hash of
    /// all places; `top` is what that was before. Only ranges with a changed place are hashed again, and of these only
    /// those that hold more than one leaf.
    pub fn updated_ranges<P: Places>(
        &self,
        alloc: Global,
        top: &Hash,
        places: &P,
        changed: Bitmap,
    ) -> Result<(Ranges, Hash), Memory>
        // If `self` is of places that agree with these outside `changed`, after `Ok` the first is what is kept of these.
        ensures ranges { (olds : List Slot) → self.now ≡ kept_hashes olds → Agree olds changed (P.slots places.now) → IfOk result (λ r. r.0 ≡ kept_hashes (P.slots places.now)) }
        // If `top` is the hash of the same places, after `Ok` the second is the hash of all of these.
        ensures top { (olds : List Slot) → self.now ≡ kept_hashes olds → top.now ≡ range_hash 4 olds → Agree olds changed (P.slots places.now) → IfOk result (λ r. r.1 ≡ range_hash 4 (P.slots places.now)) }
    {
        self.updated_uncounted::<P, Brand>(alloc, top, places, changed, Blank::new(1))
    }

    /// The hashes that `updated_ranges` returns, with the pairs counted that are hashed. If memory runs out, none is hashed.
    pub fn updated_counted<P: Places, L: Ledger>(
        &self,
        alloc: Global,
        top: &Hash,
        places: &P,
        changed: Bitmap,
        steps: &mut Steps<L>,
    ) -> Result<(Ranges, Hash), Memory>
        // If `self` is of places that agree with these outside `changed`, after `Ok` the first is what is kept of these.
        ensures ranges { (olds : List Slot) → self.now ≡ kept_hashes olds → Agree olds changed (P.slots places.now) → IfOk result (λ r. r.0 ≡ kept_hashes (P.slots places.now)) }
        // If `top` is the hash of the same places, after `Ok` the second is the hash of all of these.
        ensures top { (olds : List Slot) → self.now ≡ kept_hashes olds → top.now ≡ range_hash 4 olds → Agree olds changed (P.slots places.now) → IfOk result (λ r. r.1 ≡ range_hash 4 (P.slots places.now)) }
        // After `Ok` a step is counted for each range of two or more with a changed place and over one leaf; after `Err` none.
        ensures pairs { MatchResult result (λ r. steps.new ≡ steps.old + pairs_within 4 (P.slots places.now) changed) (λ e. steps.new ≡ steps.old) }
        // At most four steps more are counted for each place in `changed`.
        ensures cost { steps.new ≤ steps.old + 4 * count_by (λ bit. bit) changed }
    {
        changed.know();
        let occupied = Occupied::of(places);
        let kept = occupied.kept_ranges();
        let count = kept.count(0, 16);
        let mut hashes = Vec::with_capacity(alloc, count)?;
        let left = refresh(
            places,
            &occupied,
            self,
            changed,
            0,
            0,
            8,
            &mut hashes,
            steps,
        );
        let right = refresh(
            places,
            &occupied,
            self,
            changed,
            7,
            8,
            8,
            &mut hashes,
            steps,
        );
        // Makes them as many as the bits say. Changes nothing if only places in `changed` differ from those that `self`
        // was made of.
        let _ = hashes.resize(count, empty());
        let top = refresh_top(places, &occupied, top, changed, &left, &right, steps);
        Ok((Ranges { kept, hashes }, top))
    }

    // The hashes, with the pairs counted in a ledger of their own.
    fn updated_uncounted<P: Places, L: Ledger>(
        &self,
        alloc: Global,
        top: &Hash,
        places: &P,
        changed: Bitmap,
        blank: Blank,
    ) -> Result<(Ranges, Hash), Memory>
        requires name { blank.name ≡ L.name }
        requires parts { blank.parts ≡ L.parts }
        requires positive { 0 < blank.parts }
        ensures ranges { (olds : List Slot) → self.now ≡ kept_hashes olds → Agree olds changed (P.slots places.now) → IfOk result (λ r. r.0 ≡ kept_hashes (P.slots places.now)) }
        ensures top { (olds : List Slot) → self.now ≡ kept_hashes olds → top.now ≡ range_hash 4 olds → Agree olds changed (P.slots places.now) → IfOk result (λ r. r.1 ≡ range_hash 4 (P.slots places.now)) }
    {
        let mut steps = Steps::<L>::new(blank);
        self.updated_counted(alloc, top, places, changed, &mut steps)
    }

    // Keeps nothing of any range.
    fn none(alloc: Global) -> Ranges
        ensures { result ≡ replicate 16 None }
    {
        Ranges {
            kept: Bitmap::none(),
            hashes: Vec::new(alloc),
        }
    }

    // The hashes that are there among `count` places from place `first` on.
    pub(crate) fn run(&self, first: usize, count: usize) -> &[Hash]
        requires { first + count ≤ 16 }
        ensures { result.now ≡ present (take count (drop first self.now)) }
    {
        let start = self.kept.rank(first);
        &self.hashes[start..start + self.kept.count(first, count)]
    }

    // The hash at a place, if it is there.
    fn at(&self, place: usize) -> Option<&Hash>
        requires { place < 16 }
        ensures { option_copied result ≡ slice_index_or self.now place None }
    {
        if self.kept.has(place) {
            Some(&self.hashes[self.kept.rank(place)])
        } else {
            None
        }
    }

    /// The hash of the range of `width` places, two to eight, from place `start` on, if the range holds more than one
    /// leaf.
    pub fn hash(&self, start: usize, width: usize) -> Option<&Hash>
        // The range has 1, 2, 4, 8 or 16 places, begins at a multiple of its width, and lies among the sixteen.
        requires range { IsRange start width }
        // The range has two places or more.
        requires wide { 2 ≤ width }
        // The range has eight places or fewer: of all sixteen nothing is kept.
        requires narrow { width ≤ 8 }
        // The result is the hash that is kept of this range, or `None` if none is kept.
        ensures entry { option_copied result ≡ slice_index_or self.now (range_index start width) None }
        // If `self` is of sixteen places, it is the hash of their range, or `None` if that holds at most one leaf.
        ensures value { (slots : List Slot) (level : ℕ) → length slots ≡ 16 → self.now ≡ kept_hashes slots → width ≡ 2 ^ level → option_copied result ≡ kept_hash level (take width (drop start slots)) }
        // For entries placed by nibble `d`, a hash is the root, from bit 4d + 4 - `level` on, of those in the range.
        ensures root { (d : ℕ) (es : Part) (level : ℕ) → d < 64 → self.now ≡ kept_hashes (slots_of d es) → width ≡ 2 ^ level → IfSome (option_copied result) (λ hash. hash ≡ part_root (4 * d + (4 - level)) (in_range d start width es)) }
    {
        self.at(start / 2 + start / 4 + start / 8 + (width - 2))
    }

    /// A copy of these hashes.
    pub fn copy(&self, alloc: Global) -> Result<Ranges, Memory>
        // After Ok, the result has the same hashes.
        ensures { IfOk result (λ r. r ≡ self.now) }
    {
        let mut hashes = Vec::with_capacity(alloc, self.hashes.len())?;
        hashes.extend_from_slice(&self.hashes)?;
        Ok(Ranges {
            kept: self.kept,
            hashes,
        })
    }
}
