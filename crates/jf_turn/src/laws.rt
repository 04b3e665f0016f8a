//! What follows from the rule of a turn, whatever its seats do. These functions do nothing when they run.
ghost use Rattle.jf_turn.specs.Laws.{FreeTurnHasItsValue, OneSeatHolds, HolderKeepsTheList, SeenListsAgree, SeatsStandApart, NumbersWereGiven, OwnEntriesAreSeen};

use crate::entry_list::EntryList;

/// A turn whose word is even has at home the value of its entries, and no seat holds it.
pub fn free_turn_has_its_value<V: EntryList>()
    // The word is twice the count of these entries, and their list begins with all that any seat has seen.
    ensures { FreeTurnHasItsValue V.list V.names V.start }
{}

/// At most one seat holds the turn.
pub fn one_seat_holds<V: EntryList>()
    ensures { OneSeatHolds V.list V.names V.start }
{}

/// The word of a held turn counts the list that its holder keeps, which begins with all that any seat has seen.
pub fn holder_keeps_the_list<V: EntryList>()
    // The word is twice that list's length, and one more; the entries of the list name numbers that were given.
    ensures { HolderKeepsTheList V.list V.names V.start }
{}

/// Of what two seats have seen, one begins the other.
pub fn seen_lists_agree<V: EntryList>()
    ensures { SeenListsAgree V.list V.names V.start }
{}

/// No two seats represent one number.
pub fn seats_stand_apart<V: EntryList>()
    ensures { SeatsStandApart V.list V.names V.start }
{}

/// The numbers that seats represent and that entries name were given, and each seat has the turn's start.
pub fn numbers_were_given<V: EntryList>()
    // These numbers are below the count of numbers given, which is at most the turn's number of seats.
    ensures { NumbersWereGiven V.list V.names V.start }
{}

/// A seat that holds nothing has seen each entry that names one of its numbers.
pub fn own_entries_are_seen<V: EntryList>()
    // This is so of each entry that any seat has seen, or that is in the list of a seat that holds the turn.
    ensures { OwnEntriesAreSeen V.list V.names V.start }
{}
