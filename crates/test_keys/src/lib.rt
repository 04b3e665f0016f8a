//! Tests of keys, paths, lists and hashes.
#![tactic(auto)]

#[cfg(test)]
mod bitmaps;
#[cfg(test)]
mod hashes;
#[cfg(test)]
mod lists;
#[cfg(test)]
mod paths;
#[cfg(test)]
mod ranges;
#[cfg(test)]
mod shared_bytes;
