//! Tests of the top call in the mode `judge`.
#![tactic(auto)]

#[cfg(test)]
mod devices;
#[cfg(test)]
mod replies;
#[cfg(test)]
mod stores;
