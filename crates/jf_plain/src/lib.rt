//! The plain store: each version as a whole map, with its root. It is short, and a faster store must return what this
//! one returns.
#![tactic(auto)]

mod map;
mod versions;

pub use map::PlainMap;
pub use versions::PlainVersions;
