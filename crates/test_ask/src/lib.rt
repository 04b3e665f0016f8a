//! Tests of names looked up in replies to `prove`.
#![tactic(auto)]

#[cfg(test)]
mod digits;
#[cfg(test)]
mod lookups;
