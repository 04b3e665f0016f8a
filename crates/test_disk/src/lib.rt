//! Tests of disks, over real files and in memory.
#![tactic(auto)]

#[cfg(test)]
mod beginnings;
#[cfg(test)]
mod causes;
#[cfg(test)]
mod file_disks;
#[cfg(test)]
mod held_files;
#[cfg(test)]
mod mem_disks;
#[cfg(test)]
mod readings;
