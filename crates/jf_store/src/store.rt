// A store that passes share.
use crate::boxed_vault::BoxedVault;
use crate::news::News;
use jf_board::Board;
use jf_disk::Disk;
use jf_turn::Turn;
use jf_window::Window;
use std::marker::Model;

/// A store that 1 to 16 passes share, in any threads. What was done through it is kept until it is closed.
pub struct Store<D: Disk> {
    pub(crate) turn: Turn<BoxedVault<D>>,
    pub(crate) board: Board,
    // None if one pass is alone, or if there was no memory for it.
    pub(crate) window: Option<Window<Turn<BoxedVault<D>>, News<D>>>,
}

impl<D: Disk> Model for Store<D> {
    ghost use Rattle.std.specs.Prelude.{◌≡◌, ◌≤◌, ◌+◌, ◌*◌, IfSome};
    ghost use Rattle.std.specs.Coded.{codes};
    ghost use Rattle.jf_path.specs.Limits.{max_pins};
    ghost use Rattle.jf_hash.specs.Codes.{map_code};
    ghost use Rattle.jf_model.specs.States.{IsState};
    ghost use Rattle.jf_store.specs.Passes.{Store, store_of};

    ghost Value = { Store };

    ghost coded = { Prim.hlevel (codes, map_code) };

    ghost view = { λ s. store_of s.turn };

    ghost invariant = { λ s. (s.turn.seats ≡ s.turn.start.passes) × (1 ≤ s.turn.seats) × IsState s.turn.start.state × (s.board ≡ s.turn.start.board) × (s.board.words ≡ max_pins * s.turn.start.passes + 3) × IfSome s.window (λ w. w.key ≡ s.turn) };
}
