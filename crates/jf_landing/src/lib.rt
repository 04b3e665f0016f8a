//! A landing in bytes: what it changes is read off them. `specs/` says what is read off.
#![tactic(auto)]

mod inner;
mod leaves;
mod scanning;

pub use scanning::{ScannedLanding, scan_landing};
