// Making a board: its words, its numbered places and its pruner.
ghost use Rattle.std.specs.Prelude.{◌≡◌, ℕ, ◌+◌, ◌*◌, ◌<◌, ◌≤◌, ◌∷◌, ◌++◌, [], length, replicate, slice_index, IfOk, OnOk};
ghost use Rattle.jf_path.specs.Limits.{max_pins, max_sessions};
ghost use Rattle.jf_board.specs.Steps.{newly_numbered};
ghost use Rattle.jf_board.specs.States.{pruner_of, IsPruner, new_pruner, AreNewPlaces};

use crate::board::Board;
use crate::place::Place;
use crate::pruner::Pruner;
use crate::steps;
use crate::views::{Size, View};
use atomic_table::{Seat, Table};
use jf_path::{MAX_PINS, Memory};
use std::alloc::{AllocError, Global};

// Gate, cut, the count of numbers given, and eight words for each place.
fn opening_words(alloc: Global, passes: u64, gate: u64) -> Result<Vec<u64>, AllocError>
    requires { passes ≤ max_sessions }
    ensures { IfOk result (λ v. v.items ≡ gate ∷ gate ∷ replicate (max_pins * passes + 1) 0) }
{
    let mut words = Vec::new(alloc);
    words.push(gate)?;
    words.push(gate)?;
    for _ in 0..MAX_PINS * passes + 1 {
        words.push(0)?;
    }
    Ok(words)
}

// One more place, with the next number.
fn new_place(board: &Board, seat: &mut Seat<(), View>) -> Place
    requires own { seat.old.table_id ≡ board.now }
    requires pruner { IsPruner seat.old × ((pruner_of seat.old.me.0).joined ≡ []) }
    requires room { (max_pins * (pruner_of seat.old.me.0).count + max_pins + 3 ≤ board.now.words) × ((pruner_of seat.old.me.0).count < max_sessions) }
    ensures place { (result.board ≡ board.now) × (result.known ≡ newly_numbered (pruner_of seat.old.me.0).count) }
    ensures seat { (seat.new.table_id ≡ seat.old.table_id) × IsPruner seat.new }
    ensures pruner { pruner_of seat.new.me.0 ≡ record (pruner_of seat.old.me.0) { count = (pruner_of seat.old.me.0).count + 1 } }
{
    let number = steps::number(board, seat);
    Place {
        seat: steps::part(board, seat),
        number,
        pins: [None; MAX_PINS as usize],
    }
}

// All places, with the numbers from 0 on.
fn new_places(
    alloc: Global,
    board: &Board,
    seat: &mut Seat<(), View>,
) -> Result<Vec<Place>, AllocError>
    requires own { seat.old.table_id ≡ board.now }
    requires pruner { IsPruner seat.old × ((pruner_of seat.old.me.0).joined ≡ []) × ((pruner_of seat.old.me.0).count ≡ 0) }
    ensures seat { OnOk result ((seat.new.table_id ≡ seat.old.table_id) × IsPruner seat.new) }
    ensures places { IfOk result (λ v. (max_pins * length v.items + 3 ≡ board.now.words) × AreNewPlaces board.now v.items 0 × (pruner_of seat.new.me.0 ≡ record (pruner_of seat.old.me.0) { count = length v.items })) }
{
    let mut places = Vec::new(alloc);
    for _ in 0..board.passes {
        places.push(new_place(board, seat))?;
    }
    Ok(places)
}

impl Board {
    /// A new board for `passes` places, 1 to 16, with its places, numbered from 0 on, and its pruner. Gate and cut
    /// start at `gate`, a version. Refused only if it is out of memory.
    pub fn new(alloc: Global, passes: u64, gate: u64) -> Result<(Board, Vec<Place>, Pruner), Memory>
        requires { (1 ≤ passes) × (passes ≤ max_sessions) }
        ensures words { IfOk result (λ r. r.0.words ≡ max_pins * passes + 3) }
        ensures places { IfOk result (λ r. (length r.1.items ≡ passes) × AreNewPlaces r.0 r.1.items 0) }
        ensures pruner { IfOk result (λ r. (r.2.board ≡ r.0) × (r.2.known ≡ new_pruner gate passes)) }
    {
        let words = opening_words(alloc, passes, gate)?;
        let (table, mut seat) = Table::of_words(alloc, words.as_slice(), &Size { passes, gate })?;
        let board = Board { table, passes };
        let places = new_places(alloc, &board, &mut seat)?;
        let pruner = Pruner {
            seat,
            gate,
            cut: gate,
            low: gate,
        };
        Ok((board, places, pruner))
    }
}
