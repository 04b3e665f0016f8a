// A reply is one line of output for a line of a script (docs/FORMATS.md, Replies).
use jf_path::Bytes;

/// Why a command is refused, with the number that the reply gives.
#[derive(Clone, Copy, Debug, PartialEq, Eq)]
pub enum Refusal {
    /// The line isn't in the grammar, or isn't answered yet.
    Syntax,
    /// The line has more than 8,500 bytes.
    Long,
    /// The key is new, and 10,000 are pending.
    Pending,
    Unknown,
    Gone,
    Keys(u64),
    /// The version is above the newest one, which is this.
    Future(u64),
    Retired(u64),
    PinsFull,
    NoPin,
    ForksFull,
    /// The start of a chunk isn't below this number of entries.
    Range(u64),
    /// No next version can be made (docs/FORMATS.md, Replies).
    Last,
}

/// The reply to a line. `Proof` and `Chunk` are the first line of a block.
#[derive(Debug, Drop)]
pub enum Reply {
    Pending {
        count: u64,
    },
    Commit {
        version: u64,
        root: [u8; 32],
    },
    Fork {
        id: u64,
        root: [u8; 32],
    },
    Land {
        version: u64,
        root: [u8; 32],
    },
    Drop {
        count: u64,
    },
    Value {
        value: Option<Bytes>,
    },
    Root {
        root: [u8; 32],
    },
    Proof {
        siblings: u64,
    },
    Chunk {
        entries: u64,
        depth: u64,
        siblings: u64,
    },
    Count {
        count: u64,
    },
    Nth {
        key: [u8; 32],
        value: Bytes,
    },
    Pin {
        place: u64,
    },
    Unpin {
        version: u64,
    },
    Prune {
        bound: u64,
        floor: u64,
    },
    Compact {
        generation: u64,
    },
    Status {
        base: u64,
        floor: u64,
        retired: u64,
        head: u64,
        kept: u64,
        forks: u64,
        generation: u64,
    },
    No(Refusal),
}
