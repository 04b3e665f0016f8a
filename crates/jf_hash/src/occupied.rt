// What stands in a range of places is determined by counting the bits of two maps.
ghost use Rattle.std.specs.Prelude.{◌≡◌, ℕ, ◌+◌, ◌-◌, ◌^◌, ◌==◌, ◌≤◌, ◌++◌, List, Bool, false, length, map, replicate, take, drop, is_some};
ghost use Rattle.std.specs.List.{count_by};
ghost use Rattle.jf_hash.specs.Slots.{occupants, is_occupied, holds_leaf};
ghost use Rattle.jf_hash.specs.Ranges.{is_many, kept_hashes, kept_within};
ghost use Rattle.jf_hash.specs.declared.slot.Slot.{Slot};

use crate::places::Places;
use jf_path::Bitmap;

/// At which of a node's places a child stands, and at which of them a leaf.
#[derive(Clone, Copy)]
pub struct Occupied {
    children: Bitmap,
    leaves: Bitmap,
}

impl Occupied {
    /// What these places hold.
    pub fn of<P: Places>(places: &P) -> Occupied
        // A bit of `children` is set exactly if a child stands at its place.
        ensures children { result.children ≡ map is_occupied (P.slots places.now) }
        // A bit of `leaves` is set exactly if a leaf stands at its place.
        ensures leaves { result.leaves ≡ map holds_leaf (P.slots places.now) }
        // There are sixteen places.
        ensures long { length (P.slots places.now) ≡ 16 }
    {
        let children = places.children();
        children.know();
        let leaves = places.leaves();
        Occupied { children, leaves }
    }

    /// Whether a range holds no child.
    pub fn is_empty(&self, start: usize, width: usize) -> bool
        // The range ends within the sixteen places.
        requires { start + width ≤ 16 }
        // The result is true exactly if no bit of a child is set in the range.
        ensures { result ≡ (count_by (λ bit. bit) (take width (drop start self.now.children)) == 0) }
    {
        self.children.count(start, width) == 0
    }

    /// Whether a range holds more than one leaf; an internal node counts as more.
    pub fn is_many(&self, start: usize, width: usize) -> bool
        // The range ends within the sixteen places.
        requires { start + width ≤ 16 }
        // If the bits are those of some places, the result says whether their range holds more than one leaf.
        ensures { (slots : List Slot) → self.now.children ≡ map is_occupied slots → self.now.leaves ≡ map holds_leaf slots → result ≡ is_many (occupants (take width (drop start slots))) }
    {
        let children = self.children.count(start, width);
        children > 1 || children == 1 && self.leaves.count(start, width) == 0
    }

    /// Which of the fourteen ranges of two to eight places hold more than one leaf, each after its halves.
    pub fn kept_ranges(&self) -> Bitmap
        // For the bits of sixteen places, the result has a bit set exactly where `kept_hashes` has a hash of them.
        ensures { (slots : List Slot) → length slots ≡ 16 → self.now.children ≡ map is_occupied slots → self.now.leaves ≡ map holds_leaf slots → result ≡ map is_some (kept_hashes slots) }
    {
        let mut kept = Bitmap::none();
        self.mark(0, 0, 8, &mut kept);
        self.mark(7, 8, 8, &mut kept);
        kept
    }

    // Sets the bits of the ranges within a range that hold more than one leaf, from bit `first` on.
    fn mark(&self, first: usize, start: usize, width: usize, kept: &mut Bitmap)
        requires within { start + width ≤ 16 }
        requires places { first + width ≤ 16 }
        ensures { (slots : List Slot) (level : ℕ) (before : List Bool) → level ≤ 4 → width ≡ 2 ^ level → length slots ≡ 16 → self.now.children ≡ map is_occupied slots → self.now.leaves ≡ map holds_leaf slots → length before ≡ first → kept.old ≡ before ++ replicate (16 - first) false → kept.new ≡ (before ++ map is_some (kept_within level (take width (drop start slots)))) ++ replicate (17 - (first + width)) false }
    {
        if width < 2 || !self.is_many(start, width) {
            return;
        }
        let half = width / 2;
        self.mark(first, start, half, kept);
        self.mark(first + half - 1, start + half, width - half, kept);
        kept.set(first + width - 2, true);
    }
}
