// A checkpoint that is read is lent by the record that was decoded, and not copied.
use jf_hash::Hash;
use jf_path::{NodeName, PlainNode};

/// A checkpoint that is read: its versions from base, floor and head on, the roots from the base to the head, the oldest
/// first, and its nodes in the order of their names, each with the version since which it is stale, 2^64 - 1 for none.
#[derive(Clone, Copy, Debug)]
pub(crate) struct CheckpointRef<'a> {
    pub base: u64,
    pub floor: u64,
    pub head: u64,
    pub roots: &'a [Hash],
    pub nodes: &'a [(NodeName, PlainNode, u64)],
}
