//! Tests of followers: the result of an input of landing blocks over a store in memory, what a source that fails leaves, and
//! what a disk that fails leaves.
#![tactic(auto)]

#[cfg(test)]
mod crashes;
#[cfg(test)]
mod inputs;
#[cfg(test)]
mod pieces;
#[cfg(test)]
mod rows;
