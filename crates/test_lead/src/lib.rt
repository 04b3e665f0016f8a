//! Tests of landing blocks as text: how they are written, and the result of reading them line by line.
#![tactic(auto)]

#[cfg(test)]
mod again;
#[cfg(test)]
mod reading;
#[cfg(test)]
mod samples;
#[cfg(test)]
mod texts;
#[cfg(test)]
mod writing;
