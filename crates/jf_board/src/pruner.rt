// The pruner raises the gate, scans the pins and sets the cut, below which nothing is pinned.
ghost use Rattle.std.specs.Prelude.{◌≡◌, ℕ, ◌+◌, ◌-◌, ◌*◌, ◌<◌, ◌≤◌, ◌∷◌, [], slice_index, max};
ghost use Rattle.jf_path.specs.Limits.{max_pins};
ghost use Rattle.jf_board.specs.Rule.{low_of, word_of, hold_at, Below, Has};
ghost use Rattle.jf_board.specs.Steps.{with_gate, NumbersAreGiven, with_joined};
ghost use Rattle.jf_board.specs.Scans.{IsHeld};
ghost use Rattle.jf_board.specs.States.{SameButScan, HasScanned};

use crate::board::Board;
use crate::place::Place;
use crate::scan::Scan;
use crate::scan_words::scan_words;
use crate::steps;
use crate::views::View;
use atomic_table::Seat;
use std::marker::Model;

/// The one that raises a board's gate, scans its pins and sets its cut. A board has one pruner.
#[derive(Drop)]
pub struct Pruner {
    pub(crate) seat: Seat<(), View>,
    pub(crate) gate: u64,
    pub(crate) cut: u64,
    // The last scan's low, or the gate if it was raised since.
    pub(crate) low: u64,
}

impl Model for Pruner {
    ghost use Rattle.std.specs.Prelude.{◌≡◌, ◌≤◌};
    ghost use Rattle.jf_board.specs.Rule.{low_of};
    ghost use Rattle.jf_board.specs.States.{PrunerState, pruner_of, IsPruner};

    ghost Value = { PrunerState };

    ghost view = { λ p. record { board = p.seat.table_id; known = pruner_of p.seat.me.0 } };

    ghost invariant = { λ p. IsPruner p.seat × (p.gate ≡ (pruner_of p.seat.me.0).gate) × (p.cut ≡ (pruner_of p.seat.me.0).cut) × (p.low ≡ low_of (pruner_of p.seat.me.0)) × ((pruner_of p.seat.me.0).cut ≤ (pruner_of p.seat.me.0).gate) };
}

impl Pruner {
    /// The gate, a version. No version below it can be pinned any more.
    pub fn gate(&self) -> u64
        ensures { result ≡ self.now.known.gate }
    {
        self.gate
    }

    /// Sets the gate, which never falls. A scan made before no longer counts.
    pub fn raise(&mut self, board: &Board, gate: u64)
        requires own { self.old.board ≡ board.now }
        requires up { self.old.known.gate ≤ gate }
        ensures { (self.new.board ≡ self.old.board) × (self.new.known ≡ with_gate self.old.known gate) }
    {
        steps::raise(board, &mut self.seat, gate);
        self.gate = gate;
        self.low = gate;
    }

    /// Loads every pin word, and returns the least of the gate and the versions loaded, with the first word that gave
    /// it if that is below the gate. `own` is any place of this board, and is unchanged; its own pins are among the
    /// words loaded.
    pub fn scan(&mut self, board: &Board, own: &mut Place) -> Scan
        requires pruner { self.old.board ≡ board.now }
        requires place { own.old.board ≡ board.now }
        ensures low { result.low ≡ low_of self.new.known }
        ensures gate { result.low ≤ self.new.known.gate }
        ensures held { IsHeld self.new.known result.low result.held }
        ensures scanned { HasScanned self.new }
        ensures own { own.new ≡ own.old }
        ensures words { (i : ℕ) → i < max_pins → slice_index self.new.known.loaded (max_pins * own.old.known.number + i) ≡ word_of (hold_at own.old.known i) }
        ensures pins { (i : ℕ) → i < max_pins → Below result.low (hold_at own.old.known i) }
        ensures cut { (i : ℕ) → i < max_pins → Below self.old.known.cut (hold_at own.old.known i) }
        ensures pairs { (t : ℕ × ℕ) → Has self.old.known.pairs t → Has self.new.known.pairs t }
        ensures rest { (self.new.board ≡ self.old.board) × SameButScan self.old.known self.new.known }
    {
        let lent = steps::lend(board, &mut own.seat);
        steps::join_for_scan(board, &mut self.seat, lent);
        let scan = scan_words(board, &mut self.seat, self.gate);
        own.seat = steps::part(board, &mut self.seat);
        self.low = scan.low;
        scan
    }

    /// Sets the cut to the greater of the old cut and the last scan's low, and returns it. A scan must have been made
    /// since the gate was raised. No confirmed version is below the cut.
    #[tactic(auto, using(crate::proofs::Scanning::least_le))]
    pub fn cut(&mut self, board: &Board) -> u64
        requires own { self.old.board ≡ board.now }
        requires scanned { HasScanned self.old }
        ensures cut { result ≡ max self.old.known.cut (low_of self.old.known) }
        ensures gate { result ≤ self.new.known.gate }
        ensures known { (self.new.board ≡ self.old.board) × (self.new.known ≡ record self.old.known { cut = result }) }
    {
        let cut = self.cut.max(self.low);
        steps::set_cut(board, &mut self.seat, cut);
        self.cut = cut;
        cut
    }

    /// Takes in a place, which is given up. Each version that a scan ever loaded at its number, and so each that a
    /// `held` named with it, is one that the place announced in a `pin`. The cut is at most each version that the place
    /// holds.
    pub fn join(&mut self, board: &Board, place: Place)
        requires pruner { self.old.board ≡ board.now }
        requires place { place.board ≡ board.now }
        ensures known { (self.new.board ≡ self.old.board) × (self.new.known ≡ with_joined self.old.known place.known) }
        ensures pairs { (version : ℕ) → Has self.old.known.pairs (place.known.number, version) → Has place.known.announced version }
        ensures given { NumbersAreGiven self.old.known }
        ensures below { (i : ℕ) → i < max_pins → Below self.old.known.cut (hold_at place.known i) }
    {
        let Place { seat, .. } = place;
        steps::join_for_good(board, &mut self.seat, seat);
    }
}
