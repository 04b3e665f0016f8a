// The end of a shared store.
ghost use Rattle.std.specs.Prelude.{◌≡◌, ◌⊎◌, ℕ, ◌<◌, ◌≤◌, None, Some};
ghost use Rattle.jf_turn.specs.Lists.{HasElement, StartsWith};
ghost use Rattle.jf_turn.specs.Seats.{OthersFollow, IsSeatOf};
ghost use Rattle.jf_board.specs.Rule.{Has};
ghost use Rattle.jf_store.specs.Events.{pass_named_by};
ghost use Rattle.jf_store.specs.Passes.{OthersAlone, store_of};
ghost use Rattle.jf_store.specs.Prunings.{HasConfirmed};
ghost use Rattle.jf_store.specs.Closing.{AreAllPasses, ArePassesOf, IsClosed};

use crate::boxed_vault::BoxedVault;
use crate::pass::Pass;
use crate::store::Store;
use crate::vault::Vault;
use jf_board::Board;
use jf_disk::Disk;
use jf_engine::Engine;
use jf_model::Ledger;
use jf_turn::{Seat, Turn};

/// What a store hands back: its engine, and what was done on it.
#[derive(Drop)]
pub struct Closed<D: Disk> {
    pub engine: Engine<D>,
    pub entries: Ledger,
}

// Joins the seats of passes to one, takes the value, and joins the places of these passes to its pruner.
fn end_turn<D: Disk>(
    turn: Turn<BoxedVault<D>>,
    board: &Board,
    mut passes: Vec<Pass<D>>,
    mut seat: Seat<BoxedVault<D>>,
) -> Vault<D>
    requires seat { IsSeatOf seat turn × (seat.taken ≡ None) }
    requires own { ArePassesOf (store_of turn) passes.items }
    requires gathered { (n : ℕ) → n < turn.seats → HasElement seat.numbers n ⊎ ((p : _) × HasElement passes.items p × (p.number ≡ n)) }
    requires board { board.now ≡ turn.start.board }
    ensures start { result.start ≡ turn.start }
    ensures begins { StartsWith result.events seat.seen }
    ensures others { OthersFollow pass_named_by seat result.events }
    ensures seen { (p : _) → HasElement passes.items p → StartsWith result.events p.seen × OthersAlone p result.events }
    ensures pins { (p : _) → HasElement passes.items p → (version : ℕ) → Has result.pruner.known.pairs (p.number, version) → Has p.place.announced version }
    ensures spares { (p : _) → HasElement passes.items p → (version : ℕ) → HasConfirmed p.place version → result.pruner.known.cut ≤ version }
{
    let Some(pass) = passes.pop() else {
        let BoxedVault { vault } = turn.close(seat);
        return Box::into_inner(vault);
    };
    let Pass {
        seat: other,
        pins,
        marked: _,
    } = pass;
    seat.join(&turn, other);
    let mut vault = end_turn(turn, board, passes, seat);
    vault.join(board, pins.into_place());
    vault
}

impl<D: Disk> Store<D> {
    /// Ends the store, by all of its passes. It waits for nobody and takes no memory. The pins of the passes are let go.
    pub fn close(self, mut passes: Vec<Pass<D>>) -> Closed<D>
        // The passes are of this store.
        requires own { ArePassesOf self passes.items }
        // They are all of its passes.
        requires gathered { AreAllPasses self passes.items }
        // One history begins with all that each pass has seen, and engine and ledger are what it made.
        ensures { IsClosed self.start passes.items result.entries result.engine }
    {
        let Store {
            turn,
            board,
            window: _,
        } = self;
        let Some(first) = passes.pop() else {
            unreachable!()
        };
        let Pass {
            seat,
            pins,
            marked: _,
        } = first;
        let mut vault = end_turn(turn, &board, passes, seat);
        vault.join(&board, pins.into_place());
        let (engine, _, entries) = vault.end();
        Closed { engine, entries }
    }
}
