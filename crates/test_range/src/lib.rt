//! Tests of chunks with their proofs, of restores that take them, and of two maps of one root.
#![tactic(auto)]

#[cfg(test)]
mod deep_keys;
#[cfg(test)]
mod forty;
#[cfg(test)]
mod given;
#[cfg(test)]
mod maps;
#[cfg(test)]
mod thousand;
#[cfg(test)]
mod two_entries;
