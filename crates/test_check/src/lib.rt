//! Tests of what files show: bytes laid out by hand, and stores on disks in memory.
#![tactic(auto)]

#[cfg(test)]
mod files;
#[cfg(test)]
mod parts;
#[cfg(test)]
mod stores;
