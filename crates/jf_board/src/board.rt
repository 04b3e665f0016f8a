// A board is one table of atomic 64-bit words: gate, cut, the count of numbers given, then eight pin words a place.
use crate::rule::BoardRule;
use crate::views::{Size, View};
use atomic_table::Table;
use std::alloc::Global;
use std::marker::Model;

/// A board: the gate, the cut, the count of numbers given, and eight pin words for each of its places. A pin word is 0
/// if nothing is pinned, otherwise the version plus 1. Any thread may use it through a `&`, each with a place or the
/// pruner of its own.
#[derive(Drop)]
pub struct Board {
    pub(crate) table: Table<(), View, Size, BoardRule, Global>,
    pub(crate) passes: u64,
}

impl Model for Board {
    ghost use Rattle.std.specs.Prelude.{◌≡◌, ◌+◌, ◌*◌, ◌≤◌};
    ghost use Rattle.jf_path.specs.Limits.{max_pins, max_sessions};
    ghost use Rattle.atomic_table.specs.Seated.{TableId, table_id_coded};

    ghost Value = { TableId };

    ghost coded = { table_id_coded };

    ghost view = { λ b. b.table.shared.table_id };

    ghost invariant = { λ b. (b.table.shared.table_id.words ≡ max_pins * b.passes + 3) × (b.table.shared.key.passes ≡ b.passes) × (b.passes ≤ max_sessions) };
}
