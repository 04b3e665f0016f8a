//! Tests of the top call: scripts run over a disk in memory and over a folder.
#![tactic(auto)]

#[cfg(test)]
mod bounds;
#[cfg(test)]
mod folders;
#[cfg(test)]
mod gathered;
#[cfg(test)]
mod lines_at_hand;
#[cfg(test)]
mod runs;
