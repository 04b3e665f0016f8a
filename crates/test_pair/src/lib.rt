//! Tests of pairs of files of records, one of which is live.
#![tactic(auto)]

#[cfg(test)]
mod pairs;
