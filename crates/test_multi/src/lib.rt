//! Tests of one proof for many keys: its items, and how claims are judged by it.
#![tactic(auto)]

#[cfg(test)]
mod forty;
#[cfg(test)]
mod given;
#[cfg(test)]
mod judged;
#[cfg(test)]
mod proved;
#[cfg(test)]
mod rows;
