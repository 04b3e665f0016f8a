//! How seats are made, and how two become one.
ghost use Rattle.std.specs.Prelude.{◌≡◌, ℕ, ◌+◌, ◌<◌, true, [], ◌∷◌, length};
ghost use mathlib.Core.Option.{some};
ghost use lib.ListN.{get_elem?};
ghost use Rattle.jf_turn.specs.declared.view.Stage.TheVariants.{Idle};
ghost use Rattle.jf_turn.specs.Lists.{HasElement, StartsWith};
ghost use Rattle.jf_turn.specs.Steps.{minted_view, maker_left, seat_right, note_right, views_joined};

use crate::entry_list::EntryList;
use crate::steps::{Both, Compare, Noting, Number, Seating};
use crate::turn::Turn;
use crate::view::SeatView;
use atomic_table::Seat as Token;

/// Draws one more number for the maker, and makes a seat for the one that the maker had.
pub(crate) fn make_seat<V: EntryList>(
    turn: &Turn<V>,
    token: &mut Token<Option<V>, SeatView<V::Entry, V::Start>>,
) -> Token<Option<V>, SeatView<V::Entry, V::Start>>
    requires own { token.old.table_id ≡ turn.now.id }
    requires idle { (token.old.me.0.stage ≡ Idle) × (token.old.me.1 ≡ []) }
    requires maker { (token.old.me.0.is_maker ≡ true) × (token.old.me.0.numbers ≡ token.old.me.0.number ∷ []) × (token.old.me.0.number < token.old.me.0.given) }
    requires room { token.old.me.0.given < turn.now.seats }
    ensures maker { (token.new.table_id ≡ token.old.table_id) × (token.new.me ≡ (maker_left (minted_view token.old.me.0), [])) }
    ensures seat { (result.table_id ≡ token.old.table_id) × (result.me ≡ (seat_right (minted_view token.old.me.0), [])) }
{
    turn.table.shared.fetch_add::<Number>(token, 1, 1);
    turn.table.shared.split_seat::<Seating>(token)
}

/// Makes a token without a number, which has seen what this one has seen.
pub(crate) fn write_down<V: EntryList>(
    turn: &Turn<V>,
    token: &mut Token<Option<V>, SeatView<V::Entry, V::Start>>,
) -> Token<Option<V>, SeatView<V::Entry, V::Start>>
    requires own { token.old.table_id ≡ turn.now.id }
    requires idle { token.old.me.0.stage ≡ Idle }
    ensures unchanged { (token.new.table_id ≡ token.old.table_id) × (token.new.me ≡ token.old.me) }
    ensures note { (result.table_id ≡ token.old.table_id) × (result.me ≡ (note_right token.old.me.0, [])) }
{
    turn.table.shared.split_seat::<Noting>(token)
}

/// Makes one token of two, which represents the numbers of both.
pub(crate) fn join<V: EntryList>(
    turn: &Turn<V>,
    token: &mut Token<Option<V>, SeatView<V::Entry, V::Start>>,
    other: Token<Option<V>, SeatView<V::Entry, V::Start>>,
)
    requires own { (token.old.table_id ≡ turn.now.id) × (other.table_id ≡ turn.now.id) }
    requires idle { (token.old.me.0.stage ≡ Idle) × (token.old.me.1 ≡ []) × (other.me.0.stage ≡ Idle) × (other.me.1 ≡ []) }
    ensures joined { (token.new.table_id ≡ token.old.table_id) × (token.new.me ≡ (views_joined token.old.me.0 other.me.0, [])) }
    ensures prefix { StartsWith (views_joined token.old.me.0 other.me.0).seen (views_joined token.old.me.0 other.me.0).other_seen }
    ensures others { (n : ℕ) → HasElement (views_joined token.old.me.0 other.me.0).other_numbers n → (k : ℕ) (e : V.Entry) → get_elem? (views_joined token.old.me.0 other.me.0).seen k ≡ some e → V.names e ≡ n → k < length (views_joined token.old.me.0 other.me.0).other_seen }
{
    turn.table.shared.join_seat::<Both>(token, other);
    turn.table.shared.load::<Compare>(token, 0);
}
