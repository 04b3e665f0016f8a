// What a link shows of its node: an entry or children.
use crate::link::Branches;
use jf_hash::Hash;
use jf_path::Key;

/// What a link shows of its node: its one entry and the hash of its value, or its children.
#[derive(Clone, Copy)]
pub enum Seen<'a> {
    Leaf {
        key: &'a Key,
        value: &'a [u8],
        value_hash: &'a Hash,
    },
    Inner {
        children: &'a Branches,
    },
}
