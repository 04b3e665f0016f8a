//! How a value is brought home, and the turn becomes free.
ghost use Rattle.std.specs.Prelude.{◌≡◌, ◌+◌, ◌*◌, ◌≤◌, [], ◌∷◌, ◌++◌, length, Some, None};
ghost use Rattle.jf_turn.specs.declared.view.Stage.TheVariants.{Opening, Holding};
ghost use Rattle.jf_turn.specs.Lists.{HasElement};
ghost use Rattle.jf_turn.specs.Steps.{at_stage, released_seat};

use crate::entry_list::EntryList;
use crate::steps::{Birth, Move, Release};
use crate::turn::Turn;
use crate::view::SeatView;
use atomic_table::Seat as Token;

/// Puts the value into the slot that the token has.
fn put_in<V: EntryList>(
    turn: &Turn<V>,
    token: &mut Token<Option<V>, SeatView<V::Entry, V::Start>>,
    value: V,
)
    requires own { token.old.table_id ≡ turn.now.id }
    requires empty { token.old.me.1 ≡ (0, None) ∷ [] }
    ensures { (token.new.table_id ≡ token.old.table_id) × (token.new.me ≡ (token.old.me.0, (0, Some value) ∷ [])) }
{
    let found = turn.table.shared.exchange(token, 0, Some(value));
    let None = found else { unreachable!() };
}

/// The first seat takes the slot, which is empty.
pub(crate) fn begin<V: EntryList>(
    turn: &Turn<V>,
    token: &mut Token<Option<V>, SeatView<V::Entry, V::Start>>,
)
    requires own { token.old.table_id ≡ turn.now.id }
    requires opening { (token.old.me.0.stage ≡ Opening) × (token.old.me.1 ≡ []) }
    ensures { (token.new.table_id ≡ token.old.table_id) × (token.new.me ≡ (at_stage token.old.me.0 (Holding []), (0, None) ∷ [])) }
{
    turn.table.shared.load::<Birth>(token, 0);
}

/// Brings home a value whose list goes on from that of the value taken, and wakes a thread that waits; with one seat
/// nobody can wait, and the system isn't asked.
pub(crate) fn bring<V: EntryList>(
    turn: &Turn<V>,
    token: &mut Token<Option<V>, SeatView<V::Entry, V::Start>>,
    value: V,
)
    requires own { token.old.table_id ≡ turn.now.id }
    requires holds { (l : _) × (more : _) × (token.old.me.0.stage ≡ Holding l) × (V.list value ≡ l ++ more) × ((e : V.Entry) → HasElement more e → V.names e ≡ token.old.me.0.number) }
    requires empty { (token.old.me.1 ≡ (0, None) ∷ []) × HasElement token.old.me.0.numbers token.old.me.0.number }
    requires start { token.old.me.0.start ≡ Some (V.start value) }
    requires bounded { length (V.list value) ≤ 4611686018427387904 }
    ensures { (token.new.table_id ≡ token.old.table_id) × (token.new.me ≡ (released_seat token.old.me.0 (V.list value), [])) }
{
    let count = value.entry_count();
    put_in(turn, token, value);
    turn.table.shared.store::<Move>(token, 0, 2 * count + 1);
    turn.table.shared.store::<Release>(token, 0, 2 * count);
    if turn.seats > 1 {
        turn.table.shared.wake_one(0);
    }
}
