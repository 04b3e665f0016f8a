//! Tests of proofs, of two claims under one root, and of proof texts: how they are written, and what is said of them.
//! Blocks of many claims are among these texts.
#![tactic(auto)]

#[cfg(test)]
mod audits;
#[cfg(test)]
mod many_verdicts;
#[cfg(test)]
mod proofs;
#[cfg(test)]
mod small_maps;
#[cfg(test)]
mod two_entries;
#[cfg(test)]
mod verdicts;
