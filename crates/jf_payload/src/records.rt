// The records of a journal of nodes (docs/FORMATS.md, "Records of nodes in bytes").
use crate::commits::Commits;
use jf_path::{FreshList, HashList, LiveList, NameList};

/// One landing: its version and root, the nodes that it writes, and the names of the nodes that it marks stale.
#[derive(Debug, Drop)]
pub struct Commit {
    pub version: u64,
    pub root: [u8; 32],
    pub fresh: FreshList,
    pub stale: NameList,
}

/// One record of a journal.
#[derive(Debug, Drop)]
pub enum Record {
    /// A later floor: the versions below it are no longer kept.
    Floor(u64),
    /// A landing.
    NodeCommit(Commit),
    /// All nodes that are kept, and the roots from the base to the head, the oldest first. `nodes` are in the order of
    /// their names, each with the version since which it is stale, 2^64 - 1 if it isn't.
    Checkpoint {
        generation: u64,
        base: u64,
        floor: u64,
        head: u64,
        roots: HashList,
        nodes: LiveList,
    },
    /// Landings whose versions rise by one.
    Group(Commits),
}
