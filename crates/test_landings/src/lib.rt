//! Tests of landings, on the store over two files and on whole maps: their roots and values, what they return, how many bytes
//! they take, and scripts of them on both.
#![tactic(auto)]

#[cfg(test)]
mod landings;
#[cfg(test)]
mod scripts;
#[cfg(test)]
mod sizes;
#[cfg(test)]
mod versions;
