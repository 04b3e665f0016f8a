//! Tests of the top call in the mode `resume`.
#![tactic(auto)]

#[cfg(test)]
mod resuming;
