//! The directory of a store: the versions from floor to head as snapshots, and the named nodes that they keep.
#![tactic(auto)]

mod counting;
mod directory;
mod front;
mod listing;
mod next_version;
mod restoring;
mod roots;
mod spelled_commit;
mod stale_counts;

pub use directory::Directory;
pub use next_version::NextVersion;
pub use restoring::restored_from;
pub use spelled_commit::SpelledCommit;
