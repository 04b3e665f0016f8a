//! Tests of inputs that are cut into scripts, and of the report that is written in the end.
#![tactic(auto)]

#[cfg(test)]
mod cuts;
#[cfg(test)]
mod entries;
#[cfg(test)]
mod limits;
#[cfg(test)]
mod outputs;
#[cfg(test)]
mod sources;
