//! Tests of the records of a journal of nodes.
#![tactic(auto)]

#[cfg(test)]
mod fields;
#[cfg(test)]
mod groups;
#[cfg(test)]
mod parts;
#[cfg(test)]
mod records;
#[cfg(test)]
mod refused;
