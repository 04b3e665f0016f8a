//! The rule of a window, `IsWindow` of `specs/Rule.antt`, as its table asks for it.
use crate::fits::Fits;
use crate::view::WindowView;
use atomic_table::TableRule;

pub struct WindowRule;

impl<K, T: Fits<K>> TableRule<Option<T>, WindowView<K>, K> for WindowRule {
    ghost use Rattle.jf_window.specs.Rule.{IsWindow, newcomer};

    ghost holds = { λ key. IsWindow T.fits key };

    ghost first = { λ key. newcomer key };
}
