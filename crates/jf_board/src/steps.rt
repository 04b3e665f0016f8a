// The steps of a board, each with the view that its seat has after it.
ghost use Rattle.std.specs.Prelude.{◌≡◌, ℕ, ◌+◌, ◌-◌, ◌*◌, ◌^◌, ◌<◌, ◌≤◌, ◌≢◌, [], ◌∷◌, length, max};
ghost use Rattle.jf_path.specs.Limits.{max_pins, max_sessions};
ghost use Rattle.jf_board.specs.declared.views.Hold.TheVariants.{Free};
ghost use Rattle.jf_board.specs.declared.views.View.TheVariants.{Pins, Prunes, Spent};
ghost use Rattle.jf_board.specs.Rule.{least};
ghost use Rattle.jf_board.specs.Steps.{with_announcement, with_confirmation, with_hold, with_gate, with_number_given, with_loaded_word, JoinedHold, JoinedAnnounced, BelowJoined, NumbersAreGiven, with_own, with_joined, without_own};
ghost use Rattle.jf_board.specs.States.{place_of, pruner_of, IsPlaceSeat, IsPruner};

use crate::board::Board;
use crate::plays::{
    Announce, Confirm, Cut, JoinForGood, JoinForScan, Learn, Lend, Number, Part, Raise, Scan,
    Withdraw,
};
use crate::views::View;
use atomic_table::Seat;
use jf_path::MAX_PINS;

// Writes the version plus 1 into a pin word.
pub(crate) fn announce(
    board: &Board,
    seat: &mut Seat<(), View>,
    number: u64,
    place: usize,
    version: u64,
)
    requires own { seat.old.table_id ≡ board.now }
    requires place { IsPlaceSeat seat.old number × (place < max_pins) }
    requires room { (max_pins * number + max_pins + 3 ≤ board.now.words) × (number < max_sessions) }
    requires version { version < 2 ^ 64 - 1 }
    ensures { (seat.new.table_id ≡ seat.old.table_id) × (seat.new.me ≡ (Pins (with_announcement (place_of seat.old.me.0) place version), [])) }
{
    let word = (MAX_PINS * number) as usize + place + 3;
    board
        .table
        .shared
        .store::<Announce>(seat, word, version + 1);
}

// Writes 0, nothing pinned, into a pin word.
pub(crate) fn withdraw(board: &Board, seat: &mut Seat<(), View>, number: u64, place: usize)
    requires own { seat.old.table_id ≡ board.now }
    requires place { IsPlaceSeat seat.old number × (place < max_pins) }
    requires room { (max_pins * number + max_pins + 3 ≤ board.now.words) × (number < max_sessions) }
    ensures { (seat.new.table_id ≡ seat.old.table_id) × (seat.new.me ≡ (Pins (with_hold (place_of seat.old.me.0) place Free), [])) }
{
    let word = (MAX_PINS * number) as usize + place + 3;
    board.table.shared.store::<Withdraw>(seat, word, 0);
}

// Loads the gate.
pub(crate) fn confirm(board: &Board, seat: &mut Seat<(), View>) -> u64
    requires own { seat.old.table_id ≡ board.now }
    requires place { IsPlaceSeat seat.old (place_of seat.old.me.0).number }
    ensures { (seat.new.table_id ≡ seat.old.table_id) × (seat.new.me ≡ (Pins (with_confirmation (place_of seat.old.me.0) result), [])) }
{
    board.table.shared.load::<Confirm>(seat, 0)
}

// Sets the gate.
pub(crate) fn raise(board: &Board, seat: &mut Seat<(), View>, gate: u64)
    requires own { seat.old.table_id ≡ board.now }
    requires pruner { IsPruner seat.old }
    requires up { (pruner_of seat.old.me.0).gate ≤ gate }
    ensures { (seat.new.table_id ≡ seat.old.table_id) × (seat.new.me ≡ (Prunes (with_gate (pruner_of seat.old.me.0) gate), [])) }
{
    board.table.shared.store::<Raise>(seat, 0, gate);
}

// Sets the cut.
pub(crate) fn set_cut(board: &Board, seat: &mut Seat<(), View>, cut: u64)
    requires own { seat.old.table_id ≡ board.now }
    requires pruner { IsPruner seat.old }
    requires scanned { length (pruner_of seat.old.me.0).loaded + 3 ≡ board.now.words }
    requires up { cut ≡ max (pruner_of seat.old.me.0).cut (least (pruner_of seat.old.me.0).gate (pruner_of seat.old.me.0).loaded) }
    ensures { (seat.new.table_id ≡ seat.old.table_id) × (seat.new.me ≡ (Prunes (record (pruner_of seat.old.me.0) { cut = cut }), [])) }
{
    board.table.shared.store::<Cut>(seat, 1, cut);
}

// Gives one more number, to a place that is then joined to the pruner.
pub(crate) fn number(board: &Board, seat: &mut Seat<(), View>) -> u64
    requires own { seat.old.table_id ≡ board.now }
    requires pruner { IsPruner seat.old }
    requires room { max_pins * (pruner_of seat.old.me.0).count + max_pins + 3 ≤ board.now.words }
    ensures seat { (seat.new.table_id ≡ seat.old.table_id) × (seat.new.me ≡ (Prunes (with_number_given (pruner_of seat.old.me.0)), [])) }
    ensures number { result ≡ (pruner_of seat.old.me.0).count }
{
    board.table.shared.fetch_add::<Number>(seat, 2, 1)
}

// Loads the next pin word.
pub(crate) fn load_pin(board: &Board, seat: &mut Seat<(), View>, k: usize) -> u64
    requires own { seat.old.table_id ≡ board.now }
    requires pruner { IsPruner seat.old }
    requires next { (length (pruner_of seat.old.me.0).loaded ≡ k) × (k + 3 < board.now.words) }
    ensures seat { (seat.new.table_id ≡ seat.old.table_id) × (seat.new.me ≡ (Prunes (with_loaded_word (pruner_of seat.old.me.0) k result), [])) }
    ensures joined { JoinedHold (pruner_of seat.old.me.0).joined k result }
    ensures below { BelowJoined (pruner_of seat.old.me.0).cut (pruner_of seat.old.me.0).joined }
{
    board.table.shared.load::<Scan>(seat, k + 3)
}

// Moves the view of a place to a new seat.
pub(crate) fn lend(board: &Board, seat: &mut Seat<(), View>) -> Seat<(), View>
    requires own { seat.old.table_id ≡ board.now }
    requires place { IsPlaceSeat seat.old (place_of seat.old.me.0).number }
    ensures rest { seat.new.table_id ≡ seat.old.table_id }
    ensures lent { (result.table_id ≡ seat.old.table_id) × (result.me ≡ seat.old.me) }
{
    board.table.shared.split_seat::<Lend>(seat)
}

// The pruner takes in the view of a place, and begins a scan.
pub(crate) fn join_for_scan(board: &Board, seat: &mut Seat<(), View>, place: Seat<(), View>)
    requires own { (seat.old.table_id ≡ board.now) × (place.table_id ≡ board.now) }
    requires seats { IsPruner seat.old × IsPlaceSeat place (place_of place.me.0).number }
    ensures { (seat.new.table_id ≡ seat.old.table_id) × (seat.new.me ≡ (Prunes (with_own (pruner_of seat.old.me.0) (place_of place.me.0)), [])) }
{
    board.table.shared.join_seat::<JoinForScan>(seat, place);
}

// The pruner takes in the view of a place for good. The place announced all that the pruner loaded at its number, and the
// cut is at most each version that it has confirmed.
pub(crate) fn join_for_good(board: &Board, seat: &mut Seat<(), View>, place: Seat<(), View>)
    requires own { (seat.old.table_id ≡ board.now) × (place.table_id ≡ board.now) }
    requires seats { IsPruner seat.old × IsPlaceSeat place (place_of place.me.0).number }
    ensures seat { (seat.new.table_id ≡ seat.old.table_id) × (seat.new.me ≡ (Prunes (with_joined (pruner_of seat.old.me.0) (place_of place.me.0)), [])) }
    ensures announced { JoinedAnnounced (pruner_of seat.old.me.0).pairs (place_of place.me.0 ∷ []) }
    ensures given { NumbersAreGiven (pruner_of seat.old.me.0) }
    ensures below { BelowJoined (pruner_of seat.old.me.0).cut (place_of place.me.0 ∷ []) }
{
    board.table.shared.join_seat::<JoinForGood>(seat, place);
    board.table.shared.load::<Learn>(seat, 0);
}

// Moves the place that joined last to a new seat.
pub(crate) fn part(board: &Board, seat: &mut Seat<(), View>) -> Seat<(), View>
    requires own { seat.old.table_id ≡ board.now }
    requires pruner { IsPruner seat.old × (0 < length (pruner_of seat.old.me.0).joined) }
    ensures seat { (seat.new.table_id ≡ seat.old.table_id) × (seat.new.me ≡ (Prunes (without_own (pruner_of seat.old.me.0)), [])) }
    ensures place { (result.table_id ≡ seat.old.table_id) × (result.me ≡ (Pins (place_of result.me.0), [])) × ((pruner_of seat.old.me.0).joined ≡ place_of result.me.0 ∷ (without_own (pruner_of seat.old.me.0)).joined) }
{
    board.table.shared.split_seat::<Part>(seat)
}
