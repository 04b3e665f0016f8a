//! Tests of the store over two files: files byte by byte, damage, generations, and what each call refuses.
#![tactic(auto)]

#[cfg(test)]
mod damage;
#[cfg(test)]
mod existing;
#[cfg(test)]
mod generations;
#[cfg(test)]
mod histories;
#[cfg(test)]
mod records;
#[cfg(test)]
mod refusals;
