//! Tests of landings: their roots, the nodes that they write, a snapshot that is built anew, and entries found by their
//! places.
#![tactic(auto)]

#[cfg(test)]
mod landings;
#[cfg(test)]
mod many_keys;
#[cfg(test)]
mod places;
#[cfg(test)]
mod restoring;
#[cfg(test)]
mod roots;
#[cfg(test)]
mod two_calls;
