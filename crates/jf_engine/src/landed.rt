// What a landing made.
use jf_hash::Hash;

/// What a landing made: the last version, its root, and the disk's moment when it was acknowledged.
#[derive(Clone, Copy, Debug, PartialEq, Eq)]
pub struct Landed {
    pub version: u64,
    pub root: Hash,
    pub moment: u64,
}
