// One pass over all pin words.
ghost use Rattle.std.specs.Prelude.{◌≡◌, ℕ, ◌+◌, ◌-◌, ◌*◌, ◌/◌, ◌%◌, ◌<◌, ◌≤◌, [], ◌∷◌, length};
ghost use Rattle.jf_board.specs.States.{pruner_of, IsPruner};
ghost use Rattle.jf_board.specs.Scans.{Scans};

use crate::board::Board;
use crate::scan::{Held, Scan};
use crate::steps;
use crate::views::View;
use atomic_table::Seat;
use jf_path::MAX_PINS;

pub(crate) fn scan_words(board: &Board, seat: &mut Seat<(), View>, gate: u64) -> Scan
    requires own { seat.old.table_id ≡ board.now }
    requires pruner { IsPruner seat.old }
    requires new { ((pruner_of seat.old.me.0).loaded ≡ []) × ((pruner_of seat.old.me.0).gate ≡ gate) }
    ensures seat { (seat.new.table_id ≡ seat.old.table_id) × IsPruner seat.new }
    ensures scanned { length (pruner_of seat.new.me.0).loaded + 3 ≡ board.now.words }
    ensures scans { Scans (pruner_of seat.old.me.0) (pruner_of seat.new.me.0) (length (pruner_of seat.new.me.0).loaded) result.low result.held }
{
    let mut low = gate;
    let mut held = None;
    for k in 0..(MAX_PINS * board.passes) as usize {
        let word = steps::load_pin(board, seat, k);
        if word > 0 && word - 1 < low {
            low = word - 1;
            held = Some(Held {
                owner: k as u64 / MAX_PINS,
                place: k as u64 % MAX_PINS,
                version: low,
            });
        }
    }
    Scan { low, held }
}
