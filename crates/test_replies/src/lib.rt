//! Tests of the replies to the lines of a script, and of the verdicts on proofs, against values from outside.
#![tactic(auto)]

#[cfg(test)]
mod nodes;
#[cfg(test)]
mod places;
#[cfg(test)]
mod proofs;
#[cfg(test)]
mod reads;
#[cfg(test)]
mod refusals;
#[cfg(test)]
mod verdicts;
