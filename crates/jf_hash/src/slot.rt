// A node has sixteen places, one for each nibble that may follow.
use crate::tagged::Hash;

/// What stands at one place of a node: nothing, a leaf with its hash, or an internal node with its hash.
#[derive(Clone, Copy, Debug, PartialEq, Eq)]
pub enum Slot {
    Absent,
    Leaf(Hash),
    Inner(Hash),
}
