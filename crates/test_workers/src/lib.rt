//! Tests of landings by several workers, and of the versions that landings make.
#![tactic(auto)]

#[cfg(test)]
mod by_workers;
#[cfg(test)]
mod lists;
#[cfg(test)]
mod versions;
