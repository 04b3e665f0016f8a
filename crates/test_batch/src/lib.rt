//! Tests of batches, of the changes that are pending for one, and of the pieces that a batch falls into.
#![tactic(auto)]

#[cfg(test)]
mod batches;
#[cfg(test)]
mod pendings;
#[cfg(test)]
mod pieces;
#[cfg(test)]
mod words;
