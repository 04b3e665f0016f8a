//! What a seat has seen, written down: another seat of the turn can learn it, in any thread.
ghost use Rattle.std.specs.Prelude.{◌≡◌, [], length, None};
ghost use Rattle.jf_turn.specs.declared.view.Stage.TheVariants.{Idle};
ghost use Rattle.jf_turn.specs.Lists.{StartsWith};
ghost use Rattle.jf_turn.specs.Seats.{IsSeatOf, IsNoteOf, OthersFollow, note_of, learning, note_state};

use crate::entry_list::EntryList;
use crate::seat::Seat;
use crate::seating::{join, write_down};
use crate::turn::Turn;
use crate::view::SeatView;
use atomic_table::Seat as Token;
use std::marker::Model;

/// A front of a turn's list, as a seat had seen it. It represents no number, so it can be made and learned while
/// another seat holds the turn.
pub struct Note<V: EntryList> {
    token: Token<Option<V>, SeatView<V::Entry, V::Start>>,
    seen: u64,
}

impl<V: EntryList> Model for Note<V> {
    ghost use Rattle.std.specs.Prelude.{◌≡◌, [], length};
    ghost use Rattle.jf_turn.specs.declared.view.Stage.TheVariants.{Idle};
    ghost use Rattle.jf_turn.specs.Seats.{NoteState, note_state};

    ghost Value = { NoteState V.Entry V.Start };

    ghost view = { λ n. note_state n.token.table_id n.token.me.0 };

    ghost invariant = { λ n. (n.seen ≡ length n.token.me.0.seen) × (n.token.me.0.stage ≡ Idle) × (n.token.me.0.numbers ≡ []) × (n.token.me.1 ≡ []) };
}

impl<V: EntryList> Drop for Note<V> {
    fn drop(self) {
        let Self { token: _, seen: _ } = self;
    }
}

impl<V: EntryList> Note<V> {
    fn into_token(self) -> Token<Option<V>, SeatView<V::Entry, V::Start>>
        ensures { (note_state result.table_id result.me.0 ≡ self) × (result.me.0.stage ≡ Idle) × (result.me.0.numbers ≡ []) × (result.me.1 ≡ []) }
    {
        let Self { token, seen: _ } = self;
        token
    }

    /// How many entries it has.
    pub fn seen_count(&self) -> u64
        ensures { result ≡ length self.now.seen }
    {
        self.seen
    }

    /// The same note once more. It waits for nobody.
    pub fn again(&mut self, turn: &Turn<V>) -> Note<V>
        // The note is one of this turn's.
        requires own { IsNoteOf self.old turn.now }
        // This note stays as it is.
        ensures unchanged { self.new ≡ self.old }
        // The result equals this note: it has the same turn, start and entries.
        ensures note { result ≡ self.old }
    {
        Note {
            seen: self.seen,
            token: write_down(turn, &mut self.token),
        }
    }
}

impl<V: EntryList> Seat<V> {
    /// Writes down what the seat has seen. It waits for nobody.
    pub fn note(&mut self, turn: &Turn<V>) -> Note<V>
        // The seat is one of this turn's.
        requires own { IsSeatOf self.old turn.now }
        // The seat doesn't hold the turn.
        requires idle { self.old.taken ≡ None }
        // The seat stays as it is.
        ensures unchanged { self.new ≡ self.old }
        // The result is a note of this turn, and has all entries that the seat has seen.
        ensures note { result ≡ note_of self.old }
    {
        Note {
            seen: self.seen,
            token: write_down(turn, &mut self.token),
        }
    }

    /// Learns a note. Of what the seat has seen and the note, one begins the other, and the seat has then seen the
    /// longer; no entry that is new to it names a number that it represents. It waits for nobody.
    pub fn learn(&mut self, turn: &Turn<V>, note: Note<V>)
        // The seat and the note are of this turn.
        requires own { IsSeatOf self.old turn.now × IsNoteOf note turn.now }
        // The seat doesn't hold the turn.
        requires idle { self.old.taken ≡ None }
        // The seat has seen the longer of its list and the note's, and is otherwise as before.
        ensures learns { self.new ≡ learning self.old note }
        // What it has seen now begins with what it had seen before.
        ensures begins { StartsWith self.new.seen self.old.seen }
        // What it has seen now begins with the note's entries.
        ensures note_begins { StartsWith self.new.seen note.seen }
        // No entry after those that it had seen before names a number that it represents.
        ensures others { OthersFollow V.names self.old self.new.seen }
    {
        let seen = note.seen;
        join(turn, &mut self.token, note.into_token());
        if self.seen < seen {
            self.seen = seen;
        }
    }
}
