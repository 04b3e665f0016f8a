// How a shared store starts.
ghost use Rattle.std.specs.Prelude.{◌≡◌, ℕ, ◌+◌, ◌<◌, ◌≤◌, [], length, IfOk, IfErr, IfSome, false, vec_capacity};
ghost use Rattle.jf_path.specs.Limits.{max_sessions};
ghost use Rattle.jf_turn.specs.Seats.{AreNewSeats};
ghost use Rattle.jf_board.specs.States.{AreNewPlaces};
ghost use Rattle.jf_store.specs.Starts.{start_with};
ghost use Rattle.jf_store.specs.Passes.{AreNewPasses, store_of};

use crate::boxed_vault::BoxedVault;
use crate::news::News;
use crate::pass::Pass;
use crate::pins::Pins;
use crate::start::StartNote;
use crate::store::Store;
use crate::vault::Vault;
use jf_board::{Board, Place};
use jf_disk::Disk;
use jf_engine::Engine;
use jf_turn::{Seat, Turn, TurnRefused};
use jf_window::Window;
use std::alloc::Global;

/// There was no memory. The engine comes back.
#[derive(Drop)]
pub struct StoreRefused<D: Disk> {
    pub engine: Engine<D>,
}

// A pass for each seat and its place.
fn passes_of<D: Disk>(
    turn: &Turn<BoxedVault<D>>,
    board: &Board,
    seats: Vec<Seat<BoxedVault<D>>>,
    places: Vec<Place>,
    mut all: Vec<Pass<D>>,
) -> Vec<Pass<D>>
    requires seats { AreNewSeats turn.now seats.items 0 }
    requires places { AreNewPlaces board.now places.items 0 }
    requires board { board.now ≡ turn.now.start.board }
    requires long { length places.items ≡ length seats.items }
    requires bounded { length seats.items ≤ turn.now.start.passes }
    requires empty { all.items ≡ [] }
    requires room { length seats.items ≤ vec_capacity all }
    ensures long { length result.items ≡ length seats.items }
    ensures new { AreNewPasses (store_of turn.now) result.items 0 }
{
    let _ = board;
    let mut places = places.into_iter();
    for seat in seats {
        let Some(place) = places.next() else {
            unreachable!()
        };
        let pins = Pins::new(place);
        all.push_reserved(Pass {
            seat,
            pins,
            marked: false,
        });
    }
    all
}

// Puts a vault behind a turn with so many seats. If memory runs out, its engine comes back.
fn turn_of<D: Disk>(
    alloc: Global,
    vault: Vault<D>,
    passes: u64,
) -> Result<(Turn<BoxedVault<D>>, Vec<Seat<BoxedVault<D>>>), StoreRefused<D>>
    requires passes { (1 ≤ passes) × (passes ≤ max_sessions) }
    requires new { vault.events ≡ [] }
    ensures turn { IfOk result (λ r. (r.0.seats ≡ passes) × (r.0.start ≡ vault.start)) }
    ensures seats { IfOk result (λ r. (length r.1.items ≡ passes) × AreNewSeats r.0 r.1.items 0) }
    ensures engine { IfErr result (λ e. e.engine ≡ vault.engine) }
{
    let vault = match Box::new(alloc, vault) {
        Ok(vault) => vault,
        Err(failed) => {
            let (engine, _, _) = failed.value.end();
            return Err(StoreRefused { engine });
        }
    };
    match Turn::new(alloc, BoxedVault { vault }, passes) {
        Ok(made) => Ok(made),
        Err(TurnRefused { value }) => {
            let BoxedVault { vault } = value;
            let (engine, _, _) = Box::into_inner(vault).end();
            Err(StoreRefused { engine })
        }
    }
}

// A window that shows nothing yet, if there is memory for it; one pass alone needs none.
fn window_of<D: Disk>(
    alloc: Global,
    turn: &Turn<BoxedVault<D>>,
    passes: u64,
) -> Option<Window<Turn<BoxedVault<D>>, News<D>>>
    ensures { IfSome result (λ w. w.key ≡ turn.now) }
{
    if passes < 2 {
        return None;
    }
    let nothing = News {
        seen: 0,
        shown: None,
    };
    match Window::new(alloc, turn, nothing) {
        Ok(window) => Some(window),
        Err(_) => None,
    }
}

impl<D: Disk> Store<D> {
    /// A store over an engine that isn't broken, and its passes, 1 to 16, with the numbers from 0 on. The ledger is empty,
    /// no fork is live, and the retired bound is the floor. If memory runs out, the engine is handed back unchanged.
    pub fn new(
        alloc: Global,
        engine: Engine<D>,
        passes: u64,
    ) -> Result<(Store<D>, Vec<Pass<D>>), StoreRefused<D>>
        // The engine takes changes.
        requires whole { engine.broken ≡ false }
        // There are 1 to 16 passes.
        requires passes { (1 ≤ passes) × (passes ≤ max_sessions) }
        // The store begins with what the engine shows.
        ensures start { IfOk result (λ r. r.0.start ≡ start_with engine passes r.0.start.board) }
        // There are so many passes, each of this store, and none has seen or pinned anything.
        ensures passes { IfOk result (λ r. (length r.1.items ≡ passes) × AreNewPasses r.0 r.1.items 0) }
        // After a refusal the engine is handed back, unchanged.
        ensures engine { IfErr result (λ e. e.engine ≡ engine) }
    {
        let Ok(all) = Vec::with_capacity(alloc, passes as usize) else {
            return Err(StoreRefused { engine });
        };
        let start_note = StartNote::of(&engine, passes);
        let Ok((board, places, pruner)) = Board::new(alloc, passes, engine.state().floor) else {
            return Err(StoreRefused { engine });
        };
        let vault = Vault::begin(alloc, engine, start_note, pruner);
        let (turn, seats) = turn_of(alloc, vault, passes)?;
        let all = passes_of(&turn, &board, seats, places, all);
        let window = window_of(alloc, &turn, passes);
        let store = Store {
            turn,
            board,
            window,
        };
        Ok((store, all))
    }
}
