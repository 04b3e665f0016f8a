//! What a value must say of itself to be shown in a window.

/// A value that fits keys: what is known of whatever a window hands out.
pub trait Fits<K> {
    // Whether it fits a key.
    ghost fits: { K → Self → Type 0 };
}
