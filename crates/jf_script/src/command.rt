// A command is what a line of a script asks for (docs/FORMATS.md, Scripts).
use jf_model::Parent;
use jf_path::Bytes;

/// A stored map: that of the newest version, of the version of a number, or of the version pinned at a place.
#[derive(Clone, Copy, Debug, PartialEq, Eq)]
pub enum Base {
    /// The newest version: `head`.
    Head,
    /// The version of this number: `vN`.
    Version(u64),
    /// The version pinned at this place: `pN`.
    Place(u64),
}

/// What a read asks of a stored map.
#[derive(Debug, Drop)]
pub enum Question {
    Get { name: Bytes },
    Root,
    Prove { name: Bytes },
    Chunk { start: u64, count: u64 },
    Count,
    Nth { place: u64 },
}

/// What a read asks of a fork's map.
#[derive(Debug, Drop)]
pub enum ForkQuestion {
    Get { name: Bytes },
    Root,
}

/// A command on what the session keeps for itself: its pending batch and its pins.
#[derive(Debug, Drop)]
pub enum OwnCommand {
    Put { name: Bytes, value: Bytes },
    Del { name: Bytes },
    Unpin { place: u64 },
}

/// A command that gives an entry.
#[derive(Clone, Copy, Debug, PartialEq, Eq)]
pub enum Change {
    Commit,
    Fork { on: Parent },
    Land { id: u64 },
    Drop { id: u64 },
    Prune { upto: u64 },
    Compact,
}

/// What a line of a script asks for, with its names, values and numbers as they were written.
#[derive(Debug, Drop)]
pub enum Command {
    Own(OwnCommand),
    Read { base: Base, question: Question },
    ReadFork { id: u64, question: ForkQuestion },
    /// The numbers of the store: `status`.
    Look,
    Pin { version: u64 },
    Change(Change),
}
