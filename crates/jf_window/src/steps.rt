//! What each kind of step on the table tells the one who takes it.
ghost use Rattle.jf_window.specs.Steps.{window_entered, window_claimed, window_released};

use crate::fits::Fits;
use crate::view::WindowView;
use atomic_table::Play;

/// A load, by which one more comes to the window.
pub(crate) struct Enter;

impl<K, T: Fits<K>> Play<Option<T>, WindowView<K>> for Enter {
    ghost then = { window_entered T.fits };
}

/// A word that was 0 rises.
pub(crate) struct Claim;

impl<K, T: Fits<K>> Play<Option<T>, WindowView<K>> for Claim {
    ghost then = { window_claimed T.fits };
}

/// The word becomes 0, and the value is at home in the slot.
pub(crate) struct Release;

impl<K, T: Fits<K>> Play<Option<T>, WindowView<K>> for Release {
    ghost then = { window_released T.fits };
}
