//! Shared by the tests of a store that passes share: a store with its passes over an engine, batches, calls of a pass of which only this
//! is stated, that the pass stays one of its store, and such calls as rows of a table.
#![tactic(auto)]

pub mod asking;
pub mod batches;
pub mod passes;
pub mod stores;
