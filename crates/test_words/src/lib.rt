//! Tests of the words of a command line, and of the number of workers that they ask for.
#![tactic(auto)]

#[cfg(test)]
mod modes;
#[cfg(test)]
mod words;
#[cfg(test)]
mod workers;
