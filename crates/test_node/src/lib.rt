//! Tests of nodes and snapshots, of pieces of work, and of marks of stale nodes.
#![tactic(auto)]

#[cfg(test)]
mod marks;
#[cfg(test)]
mod nodes;
#[cfg(test)]
mod pieces;
