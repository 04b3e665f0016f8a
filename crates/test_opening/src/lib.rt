//! Tests of what the top call finds in files: where damage is reported, which of two files counts, and what records of each
//! kind and format hold.
#![tactic(auto)]

#[cfg(test)]
mod damage;
#[cfg(test)]
mod found;
#[cfg(test)]
mod groups;
#[cfg(test)]
mod openings;
#[cfg(test)]
mod records;
#[cfg(test)]
mod sides;
