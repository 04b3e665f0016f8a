//! Tests of trimming: the side that isn't live is cut to its closed gate.
#![tactic(auto)]

#[cfg(test)]
mod files;
#[cfg(test)]
mod words;
