// A node by itself: what it says of its children, without the children themselves.
use crate::bytes::Bytes;
use crate::children::Children;
use crate::key::Key;

/// A node without the nodes below it.
#[derive(Debug, Drop)]
pub enum PlainNode {
    /// The root of the empty map.
    Null,
    /// One entry.
    Leaf { key: Key, value: Bytes },
    /// Two entries or more: a child for each nibble that comes next in their keys.
    Inner { children: Children },
}
