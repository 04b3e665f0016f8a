//! Tests of the top call in the mode `follow`.
#![tactic(auto)]

#[cfg(test)]
mod devices;
#[cfg(test)]
mod leaders;
#[cfg(test)]
mod refusals;
#[cfg(test)]
mod rows;
#[cfg(test)]
mod samples;
#[cfg(test)]
mod stops;
