// A range of a node's sixteen places has 1, 2, 4, 8 or 16 of them, from a multiple of its width on. Its hash is the
// root of the entries there.
ghost use Rattle.std.specs.Prelude.{◌≡◌, ℕ, ◌*◌, ◌^◌, ◌<◌, ◌≤◌, [], ◌∷◌, length, take, drop};
ghost use Rattle.jf_hash.specs.Hashes.{E};
ghost use Rattle.jf_hash.specs.Roots.{part_root};
ghost use Rattle.jf_hash.specs.Slots.{Part, slots_of, place_hash, range_hash};
ghost use Rattle.jf_hash.specs.Ranges.{IsRange};

use crate::occupancy::Occupancy;
use crate::slot::Slot;
use crate::tagged::{Hash, empty, inner};

// The hash of what one place holds; `none` is the hash of no entry.
fn hash_at(place: &Slot, none: &Hash) -> Hash
    requires { none.now ≡ E }
    ensures { result ≡ place_hash (place.now ∷ []) }
{
    match place {
        Slot::Absent => *none,
        Slot::Leaf(hash) | Slot::Inner(hash) => *hash,
    }
}

// The hash of all places of a range.
fn hash_of(places: &[Slot]) -> Hash
    ensures { (level : ℕ) → level ≤ 4 → length places.now ≡ 2 ^ level → result ≡ range_hash level places.now }
{
    match Occupancy::of(places) {
        Occupancy::Empty => empty(),
        Occupancy::Lone(hash) => hash,
        Occupancy::Many => {
            if places.len() == 1 {
                return hash_at(&places[0], &empty());
            }
            let (left, right) = places.split_at(places.len() / 2);
            inner(&hash_of(left), &hash_of(right))
        }
    }
}

/// The hash of a range of a node's places, which has `width` places from place `start` on: the hash of no entry if no
/// child is there; a lone leaf's own hash; an internal node's own hash if the range is just its place; otherwise the
/// hash of the pair of its halves. For all sixteen places this is the hash of the node (docs/FORMATS.md, Keys and
/// roots).
pub fn sixteen(children: &[Slot; 16], start: usize, width: usize) -> Hash
    // The range has 1, 2, 4, 8 or 16 places, begins at a multiple of its width, and lies among the sixteen.
    requires range { IsRange start width }
    // The result is the hash of the range, as `range_hash` defines it for these places.
    ensures value { (level : ℕ) → width ≡ 2 ^ level → result ≡ range_hash level (take width (drop start children.now)) }
    // For entries placed by nibble `d`, the result for all sixteen places is their root from bit 4d on.
    ensures root { (d : ℕ) (es : Part) → d < 64 → children.now ≡ slots_of d es → start ≡ 0 → width ≡ 16 → result ≡ part_root (4 * d) es }
{
    hash_of(&children[start..start + width])
}
