//! Tests of the store over two files: what a crash leaves after each call of the disk, and after each that fails.
#![tactic(auto)]

#[cfg(test)]
mod crashes;
#[cfg(test)]
mod openings;
#[cfg(test)]
mod steps;
