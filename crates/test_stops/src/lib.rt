//! Tests of what is left when a run stops: after crashes at any moment, and after calls of the disk that fail.
#![tactic(auto)]

#[cfg(test)]
mod starts;
#[cfg(test)]
mod stops;
#[cfg(test)]
mod twice;
