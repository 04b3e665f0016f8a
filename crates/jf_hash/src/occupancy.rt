// A range of places holds no leaf, one, or more; an internal node counts as more.
ghost use Rattle.std.specs.Prelude.{◌≡◌};
ghost use Rattle.jf_hash.specs.Slots.{occupants, with_leaf};
ghost use Rattle.jf_hash.specs.Ranges.{occupants_found};

use crate::slot::Slot;
use crate::tagged::Hash;

/// What a range of places holds: nothing, one leaf alone with its hash, or more.
#[derive(Clone, Copy)]
pub enum Occupancy {
    Empty,
    Lone(Hash),
    Many,
}

impl Occupancy {
    pub fn of(places: &[Slot]) -> Occupancy
        // The result is what the places hold: nothing, one leaf alone with its hash, or more.
        ensures { occupants_found result ≡ occupants places.now }
    {
        match places.split_first() {
            None => Occupancy::Empty,
            Some((Slot::Absent, rest)) => Occupancy::of(rest),
            Some((Slot::Leaf(hash), rest)) => Occupancy::of(rest).with_leaf(hash),
            Some((Slot::Inner(_), _)) => Occupancy::Many,
        }
    }

    // What the range holds with one more leaf in front of it, of this hash.
    fn with_leaf(self, hash: &Hash) -> Occupancy
        ensures { occupants_found result ≡ with_leaf hash.now (occupants_found self) }
    {
        match self {
            Occupancy::Empty => Occupancy::Lone(*hash),
            _ => Occupancy::Many,
        }
    }
}
