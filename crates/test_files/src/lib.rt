//! Tests of gated files, and of names and nodes in bytes.
#![tactic(auto)]

#[cfg(test)]
mod frames;
#[cfg(test)]
mod nodes;
