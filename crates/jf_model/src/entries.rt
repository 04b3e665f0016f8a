// The entries of a run: what each event records.
use crate::batch_note::BatchNote;

/// What a fork stands on: the head, or another fork by its number.
#[derive(Clone, Copy, Debug, PartialEq, Eq)]
pub enum Parent {
    Head,
    Fork(u64),
}

/// What is landed: a batch on the head, or a fork with its ancestors.
#[derive(Debug, Drop)]
pub enum Landing {
    Direct(BatchNote),
    Fork(u64),
}

/// One event. `owner` is the number of the session that made it.
#[derive(Debug, Drop)]
pub enum Entry {
    /// A fork was made, with this root.
    Made {
        owner: u64,
        fork: u64,
        parent: Parent,
        batch: BatchNote,
        root: [u8; 32],
    },
    /// A version was landed, with this root. `moment` is that of the disk when the landing was acknowledged.
    Landed {
        owner: u64,
        version: u64,
        how: Landing,
        root: [u8; 32],
        moment: u64,
    },
    /// A fork was dropped, with all forks that stand on it.
    Dropped {
        owner: u64,
        fork: u64,
    },
    /// The versions below `bound` were retired, and those below `floor` are gone.
    Retired {
        owner: u64,
        bound: u64,
        floor: u64,
    },
    /// A new generation was written.
    Compacted {
        owner: u64,
        generation: u64,
    },
}
