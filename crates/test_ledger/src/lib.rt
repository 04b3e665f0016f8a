//! Tests of the mode `serve` of the top call by its ledger: what sessions write and leave in the files while one of them is read, two
//! write, or the disk fails, as far as each text shows it.
#![tactic(auto)]

#[cfg(test)]
mod disk_faults;
#[cfg(test)]
mod lines;
#[cfg(test)]
mod writers;
