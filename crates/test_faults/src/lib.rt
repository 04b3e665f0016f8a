//! Tests of the top call over a source and a sink that fail.
#![tactic(auto)]

#[cfg(test)]
mod ends;
