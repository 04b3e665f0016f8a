//! Tests of chunk blocks as text: how they are written, the result of reading them line by line, and the
//! replies of a run to `chunk`.
#![tactic(auto)]

#[cfg(test)]
mod close_keys;
#[cfg(test)]
mod reading;
#[cfg(test)]
mod runs;
#[cfg(test)]
mod texts;
#[cfg(test)]
mod writing;
