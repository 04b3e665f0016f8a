//! Tests of what is made of lines at hand before they are taken.
#![tactic(auto)]

#[cfg(test)]
mod fronts;
#[cfg(test)]
mod reads;
