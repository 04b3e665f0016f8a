// Why a landing isn't followed.
use jf_hash::Hash;

/// Why a follower refuses an announced landing.
#[derive(Clone, Copy, Debug, PartialEq, Eq)]
pub enum FollowFault {
    /// An earlier call on the follower's store met a fault of the disk.
    Broken,
    /// The version is below the first whose root is recorded, which is this one.
    Below(u64),
    /// The root that is recorded for the version, or to which the batch comes, isn't the announced one.
    Differs {
        version: u64,
        announced: Hash,
        found: Hash,
    },
    /// The version is above the next one. The head is this version.
    Gap(u64),
    /// The head is version 2^64 - 2, or its map has more than 2^62 entries.
    Last,
    /// A call on the disk failed. The store is broken from then on.
    DiskFault,
    /// Memory ran out.
    Memory,
}
