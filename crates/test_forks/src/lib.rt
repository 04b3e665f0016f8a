//! Tests of speculative trees, and of tables of forks.
#![tactic(auto)]

#[cfg(test)]
mod landings;
#[cfg(test)]
mod limits;
#[cfg(test)]
mod rows;
#[cfg(test)]
mod trees;
