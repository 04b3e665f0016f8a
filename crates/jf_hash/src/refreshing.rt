// The hashes that are kept of a node's ranges are made anew from its places, from the smallest range on.
ghost use Rattle.std.specs.Prelude.{◌≡◌, ℕ, ◌+◌, ◌-◌, ◌^◌, ◌≤◌, ◌++◌, ◌&&◌, List, cond, length, map, take, drop, vec_capacity};
ghost use Rattle.jf_path.specs.Bitmaps.{present};
ghost use Rattle.jf_hash.specs.Hashes.{N};
ghost use Rattle.jf_hash.specs.Slots.{first_child_hash, is_occupied, holds_leaf, occupants, range_hash};
ghost use Rattle.jf_hash.specs.Ranges.{Agree, has_change, is_many, kept_within, pairs_within};
ghost use Rattle.jf_hash.specs.declared.slot.Slot.{Slot};

use crate::occupied::Occupied;
use crate::places::Places;
use crate::ranges::Ranges;
use crate::tagged::{Hash, empty, inner};
use jf_path::Bitmap;
use jf_steps::Steps;
use std::sync::ledger::Ledger;

// The hash of a pair, counted: each pair that is hashed for a node is hashed here.
fn hash_pair<L: Ledger>(left: &Hash, right: &Hash, steps: &mut Steps<L>) -> Hash
    ensures value { result ≡ N left.now right.now }
    ensures cost { steps.new ≡ steps.old + 1 }
{
    steps.tick();
    inner(left, right)
}

// The hash of the first child of a range, or that of no entry without a child.
fn first_in<P: Places>(places: &P, occupied: &Occupied, start: usize, width: usize) -> Hash
    requires within { start + width ≤ 16 }
    requires children { occupied.now.children ≡ map is_occupied (P.slots places.now) }
    ensures { result ≡ first_child_hash (take width (drop start (P.slots places.now))) }
{
    if occupied.is_empty(start, width) {
        empty()
    } else {
        places.first_hash(start)
    }
}

// The hash of a range, from the hashes that are kept of the ranges within it.
fn hash_in<P: Places>(
    places: &P,
    occupied: &Occupied,
    start: usize,
    width: usize,
    kept: &[Hash],
) -> Hash
    requires within { start + width ≤ 16 }
    requires children { occupied.now.children ≡ map is_occupied (P.slots places.now) }
    ensures { (level : ℕ) → level ≤ 4 → length (take width (drop start (P.slots places.now))) ≡ 2 ^ level → kept.now ≡ present (kept_within level (take width (drop start (P.slots places.now)))) → result ≡ range_hash level (take width (drop start (P.slots places.now))) }
{
    match kept.last() {
        Some(hash) => *hash,
        None => first_in(places, occupied, start, width),
    }
}

// Appends the hashes that are kept of the ranges within a range, and returns the hash of the whole range. `changed` says
// at which places something may have changed, `old` what was kept before, and `first` at which of its places the ranges
// within this one begin. Only a range with a changed place and more than one leaf is hashed.
pub fn refresh<P: Places, L: Ledger>(
    places: &P,
    occupied: &Occupied,
    old: &Ranges,
    changed: Bitmap,
    first: usize,
    start: usize,
    width: usize,
    out: &mut Vec<Hash>,
    steps: &mut Steps<L>,
) -> Hash
    // The range ends within the sixteen places.
    requires within { start + width ≤ 16 }
    // There are bits for the `width - 1` ranges that are kept from `first` on.
    requires places { first + width ≤ 16 }
    // The range has at least one place.
    requires positive { 1 ≤ width }
    // There are sixteen places.
    requires long { length (P.slots places.now) ≡ 16 }
    // `occupied` says at which of these places a child stands.
    requires children { occupied.now.children ≡ map is_occupied (P.slots places.now) }
    // `occupied` says at which of these places a leaf stands.
    requires leaves { occupied.now.leaves ≡ map holds_leaf (P.slots places.now) }
    // If `old` fits outside `changed` and `out` has room, the range's hash is returned and its kept ones are appended.
    ensures value { (level : ℕ) (olds : List Slot) → level ≤ 4 → width ≡ 2 ^ level → take (width - 1) (drop first old.now) ≡ kept_within level olds → Agree olds (take width (drop start changed)) (take width (drop start (P.slots places.now))) → length out.old.items + length (present (kept_within level (take width (drop start (P.slots places.now))))) ≤ vec_capacity out.old → (result ≡ range_hash level (take width (drop start (P.slots places.now)))) × (out.new.items ≡ out.old.items ++ present (kept_within level (take width (drop start (P.slots places.now))))) }
    // The capacity of `out` doesn't shrink.
    ensures capacity { vec_capacity out.old ≤ vec_capacity out.new }
    // A step is counted for each range of two places or more within this one with a changed place and over one leaf.
    ensures pairs { (level : ℕ) → level ≤ 4 → width ≡ 2 ^ level → steps.new ≡ steps.old + pairs_within level (take width (drop start (P.slots places.now))) (take width (drop start changed)) }
{
    if width == 1 {
        return first_in(places, occupied, start, width);
    }
    if changed.count(start, width) == 0 {
        let kept = old.run(first, width - 1);
        let _ = out.extend_from_slice(kept);
        return hash_in(places, occupied, start, width, kept);
    }
    if !occupied.is_many(start, width) {
        return first_in(places, occupied, start, width);
    }
    let half = width / 2;
    let left = refresh(
        places, occupied, old, changed, first, start, half, out, steps,
    );
    let right = refresh(
        places,
        occupied,
        old,
        changed,
        first + half - 1,
        start + half,
        width - half,
        out,
        steps,
    );
    let hash = hash_pair(&left, &right, steps);
    let _ = out.push(hash);
    hash
}

// The hash of all places, from those of their two halves. `changed` says at which places something may have changed, and
// `old` is what the hash was before. It is hashed only if a place changed and more than one leaf is there.
pub fn refresh_top<P: Places, L: Ledger>(
    places: &P,
    occupied: &Occupied,
    old: &Hash,
    changed: Bitmap,
    left: &Hash,
    right: &Hash,
    steps: &mut Steps<L>,
) -> Hash
    // There are sixteen places.
    requires long { length (P.slots places.now) ≡ 16 }
    // `occupied` says at which of these places a child stands.
    requires children { occupied.now.children ≡ map is_occupied (P.slots places.now) }
    // `occupied` says at which of these places a leaf stands.
    requires leaves { occupied.now.leaves ≡ map holds_leaf (P.slots places.now) }
    // There are sixteen bits.
    requires bits { length changed ≡ 16 }
    // If `old` fits outside `changed` and `left` and `right` are the hashes of the halves, the hash of all is returned.
    ensures value { (olds : List Slot) → old.now ≡ range_hash 4 olds → Agree olds changed (P.slots places.now) → left.now ≡ range_hash 3 (take 8 (P.slots places.now)) → right.now ≡ range_hash 3 (drop 8 (P.slots places.now)) → result ≡ range_hash 4 (P.slots places.now) }
    // A step is counted if a place changed and more than one leaf is there.
    ensures pairs { steps.new ≡ steps.old + cond (has_change changed && is_many (occupants (P.slots places.now))) 1 0 }
{
    if changed.count(0, 16) == 0 {
        return *old;
    }
    if !occupied.is_many(0, 16) {
        return first_in(places, occupied, 0, 16);
    }
    hash_pair(left, right, steps)
}
