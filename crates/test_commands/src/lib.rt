//! Tests of the commands that a script has: pins, versions that are retired, new generations of the files, and the store's
//! numbers.
#![tactic(auto)]

#[cfg(test)]
mod files;
#[cfg(test)]
mod generations;
#[cfg(test)]
mod numbers;
#[cfg(test)]
mod pins;
#[cfg(test)]
mod pruning;
#[cfg(test)]
mod reopened;
