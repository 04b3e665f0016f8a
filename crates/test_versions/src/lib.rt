//! Tests of long runs, over a disk in memory: many versions of a large state, and blocks of accounts.
#![tactic(auto)]

#[cfg(test)]
mod accounts;
#[cfg(test)]
mod large_state;
