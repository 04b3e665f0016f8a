//! What each kind of step on the table tells the seat that takes it.
ghost use Rattle.jf_turn.specs.Steps.{turn_claim, turn_birth, turn_move, turn_release, seat_numbering, list_comparison, maker_left, seat_right, note_right, views_joined, spent_view};

use crate::entry_list::EntryList;
use crate::view::SeatView;
use atomic_table::{Join, Play, Split};

/// A turn word that is even becomes odd.
pub(crate) struct Claim;

impl<V: EntryList> Play<Option<V>, SeatView<V::Entry, V::Start>> for Claim {
    ghost then = { turn_claim V.list V.names V.start };
}

/// The first seat takes the empty slot.
pub(crate) struct Birth;

impl<V: EntryList> Play<Option<V>, SeatView<V::Entry, V::Start>> for Birth {
    ghost then = { turn_birth V.list V.names V.start };
}

/// The word of a held turn counts the entries of the value that is to come home.
pub(crate) struct Move;

impl<V: EntryList> Play<Option<V>, SeatView<V::Entry, V::Start>> for Move {
    ghost then = { turn_move V.list V.names V.start };
}

/// The word becomes even, and the value is at home in the slot.
pub(crate) struct Release;

impl<V: EntryList> Play<Option<V>, SeatView<V::Entry, V::Start>> for Release {
    ghost then = { turn_release V.list V.names V.start };
}

/// The count of numbers rises by one.
pub(crate) struct Number;

impl<V: EntryList> Play<Option<V>, SeatView<V::Entry, V::Start>> for Number {
    ghost then = { seat_numbering V.list V.names V.start };
}

/// A load, by which a joined seat learns that the shorter list begins the longer, and that no entry after it names a
/// number of the seat that had seen the shorter.
pub(crate) struct Compare;

impl<V: EntryList> Play<Option<V>, SeatView<V::Entry, V::Start>> for Compare {
    ghost then = { list_comparison V.list V.names V.start };
}

/// A load that makes a seat, for the number that the maker had.
pub(crate) struct Seating;

impl<E, O> Split<SeatView<E, O>> for Seating {
    ghost left = { maker_left };

    ghost right = { seat_right };
}

/// A load that writes down what a seat has seen, in a seat without a number.
pub(crate) struct Noting;

impl<E, O> Split<SeatView<E, O>> for Noting {
    ghost left = { λ v. v };

    ghost right = { note_right };
}

/// A load by which one seat represents the numbers of two.
pub(crate) struct Both;

impl<E, O> Join<SeatView<E, O>> for Both {
    ghost both = { views_joined };

    ghost spent = { spent_view };
}
