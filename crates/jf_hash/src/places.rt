// The sixteen places of a node, as its hashes are made from them.
ghost use Rattle.std.specs.Prelude.{◌≡◌, ◌≤◌, List, map, drop};
ghost use Rattle.jf_hash.specs.Slots.{first_child_hash, is_occupied, holds_leaf};
ghost use Rattle.jf_hash.specs.declared.slot.Slot.{Slot};

use crate::slot::Slot;
use crate::tagged::{Hash, empty};
use jf_path::Bitmap;

/// The sixteen places of a node.
pub trait Places {
    /// What stands at each of them.
    ghost slots: { Self → List Slot };

    /// At which of them a child stands.
    fn children(&self) -> Bitmap
        // The result has the bit of each place at which a child stands.
        ensures { result ≡ map is_occupied (slots self.now) };

    /// At which of them a leaf stands.
    fn leaves(&self) -> Bitmap
        // The result has the bit of each place at which a leaf stands.
        ensures { result ≡ map holds_leaf (slots self.now) };

    /// The hash of the first child from a place on, or that of no entry without a child.
    fn first_hash(&self, start: usize) -> Hash
        // The place is one of the sixteen, or the end after them.
        requires { start ≤ 16 }
        // The result is the hash of the first child at `start` or after it, or that of no entry without one.
        ensures { result ≡ first_child_hash (drop start (slots self.now)) };
}

impl Places for [Slot; 16] {
    ghost slots = { λ s. s };

    fn children(&self) -> Bitmap {
        let mut children = Bitmap::none();
        for i in 0..16 {
            children.set(i, is_occupied(&self[i]));
        }
        children
    }

    fn leaves(&self) -> Bitmap {
        let mut leaves = Bitmap::none();
        for i in 0..16 {
            leaves.set(i, holds_leaf(&self[i]));
        }
        leaves
    }

    fn first_hash(&self, start: usize) -> Hash {
        first_child_hash(&self[start..])
    }
}

// Whether a child stands at a place.
fn is_occupied(slot: &Slot) -> bool
    ensures { result ≡ is_occupied slot.now }
{
    !matches!(slot, Slot::Absent)
}

// Whether a leaf stands at a place.
fn holds_leaf(slot: &Slot) -> bool
    ensures { result ≡ holds_leaf slot.now }
{
    matches!(slot, Slot::Leaf(_))
}

// The hash of the first child of these places, or that of no entry without a child.
fn first_child_hash(places: &[Slot]) -> Hash
    ensures { result ≡ first_child_hash places.now }
{
    match places.split_first() {
        None => empty(),
        Some((Slot::Absent, rest)) => first_child_hash(rest),
        Some((Slot::Leaf(hash) | Slot::Inner(hash), _)) => *hash,
    }
}
