//! Tests of the mode `restore` of the top call: what it writes and leaves in the files, how it is refused, and how much of its
//! input it takes then.
#![tactic(auto)]

#[cfg(test)]
mod copying;
#[cfg(test)]
mod records;
#[cfg(test)]
mod refusals;
#[cfg(test)]
mod restoring;
#[cfg(test)]
mod taking;
