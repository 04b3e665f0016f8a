//! The example of docs/CALLERS.md.
#![tactic(auto)]

#[cfg(test)]
mod example;
