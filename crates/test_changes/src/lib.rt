//! Tests of one script that makes every sort of change to the files: a commit, a fork that lands, a floor below a pin, and a new
//! generation. It is stopped at every moment, and fails in every call.
#![tactic(auto)]

#[cfg(test)]
mod ends;
#[cfg(test)]
mod images;
#[cfg(test)]
mod one_fault;
#[cfg(test)]
mod script;
#[cfg(test)]
mod stops;
#[cfg(test)]
mod twice;
