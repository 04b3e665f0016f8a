// The first byte of a node's spelling, its tag, says which node it is.

/// The root of the empty map.
pub(crate) const NULL: u8 = 0;
/// A leaf.
pub(crate) const LEAF: u8 = 1;
/// An internal node without counts.
pub(crate) const INNER: u8 = 2;
/// An internal node with counts.
pub(crate) const COUNTED: u8 = 3;
