//! Tests of the pin board and of the turn, with threads that meet.
#![tactic(auto)]

#[cfg(test)]
mod boards;
#[cfg(test)]
mod turns;
