// A block comes line by line. Between two lines a judge keeps what it has read of the block.
use crate::many_stage::ManyHeading;
use jf_collide::Judged;
use jf_hash::Hash;
use jf_multi::{Claims, ItemList};
use jf_path::{Bytes, Key};

/// What is known of a block since its first line.
#[derive(Clone, Copy, Debug)]
pub struct Heading {
    /// The root that the block is judged under.
    pub root: Hash,
    /// How many of its siblings are still to come.
    pub missing: u64,
}

/// How far a block is read, and what was read of it.
#[derive(Debug, Drop)]
pub enum Stage {
    /// No block has started.
    Between,
    /// The name comes next.
    Name(Heading),
    /// The claim comes next, on this key.
    Claim(Heading, Key),
    /// The leaf comes next.
    Leaf(Heading, Key, Option<Bytes>),
    /// A sibling comes next.
    Sides(Heading, Judged),
    /// A claim comes next, of many.
    ManyClaims(ManyHeading, Claims),
    /// An item comes next, of a proof of many keys.
    ManyItems(ManyHeading, Claims, ItemList),
}
