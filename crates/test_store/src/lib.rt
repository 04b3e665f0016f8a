//! Tests of a store of one pass: its calls in turn, and faults of the disk.
#![tactic(auto)]

#[cfg(test)]
mod calls;
#[cfg(test)]
mod closing;
#[cfg(test)]
mod faults;
