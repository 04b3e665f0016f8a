//! Tests of the top call in the mode `many`, and of `verify` over what it writes.
#![tactic(auto)]

#[cfg(test)]
mod blocks;
#[cfg(test)]
mod inputs;
#[cfg(test)]
mod stores;
#[cfg(test)]
mod verdicts;
