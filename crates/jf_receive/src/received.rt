// How the restore of a version from an input ends.
use jf_hash::Hash;
use jf_restore::RangeFault;

/// Why no version was restored. Lines are numbered from 1.
#[derive(Clone, Copy, Debug, PartialEq, Eq)]
pub enum RestoreFault {
    /// The store isn't new: its head is this version, or version 0 with an entry.
    NotEmpty(u64),
    /// The line with this number doesn't match, or the input ends before it in the middle of a block.
    Line(u64),
    /// The block whose first line has this number isn't accepted after those before it.
    Chunk(u64, RangeFault),
    /// The root of all entries isn't the announced one: the announced root, and the one that was found.
    NotWhole(Hash, Hash),
    /// The generation of the files is 2^64 - 2, or there are more than 2^62 entries.
    Last,
}

/// How the restore of a version ended.
#[derive(Clone, Copy, Debug, PartialEq, Eq)]
pub enum Received {
    /// The version was restored, and the line that tells of it was written.
    Done,
    /// The source failed.
    ReadFault,
    /// The version was restored, and the sink failed.
    WriteFault,
    /// The disk failed in the import.
    DiskFault,
    /// Out of memory.
    Memory,
    /// The input, or the store, was refused.
    Refused(RestoreFault),
}
