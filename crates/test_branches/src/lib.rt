//! Tests of the commands on forks: how they are made, read, landed with those below them, and dropped, and how many may live.
#![tactic(auto)]

#[cfg(test)]
mod bounds;
#[cfg(test)]
mod forks;
#[cfg(test)]
mod landings;
