//! The right to put a value back.
use crate::fits::Fits;
use crate::view::WindowView;
use atomic_table::Seat as Token;
use std::marker::Model;

/// Whoever took the value out of a window has this, until a value is put back.
pub struct Grip<K, T: Fits<K>> {
    pub(crate) token: Token<Option<T>, WindowView<K>>,
}

impl<K, T: Fits<K>> Model for Grip<K, T> {
    ghost use Rattle.std.specs.Prelude.{◌≡◌, [], ◌∷◌, None};
    ghost use Rattle.atomic_table.specs.Seated.{TableId};
    ghost use Rattle.jf_window.specs.declared.view.Grasp.TheVariants.{Full};

    ghost Value = { TableId };

    ghost view = { λ g. g.token.table_id };

    ghost invariant = { λ g. (g.token.me.0.grasp ≡ Full) × (g.token.me.1 ≡ (0, None) ∷ []) };
}
