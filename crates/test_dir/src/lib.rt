//! Tests of the directory of a store: roots and numbers of nodes after landings, undoing and pruning.
#![tactic(auto)]

#[cfg(test)]
mod by_workers;
#[cfg(test)]
mod histories;
#[cfg(test)]
mod landing;
#[cfg(test)]
mod listing;
