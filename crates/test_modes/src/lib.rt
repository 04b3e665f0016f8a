//! Tests of the top call in the modes `generate`, `verify` and `check`, and of the effect of a fault on `generate` and
//! `restore`: of the disk, of the source and of the sink.
#![tactic(auto)]

#[cfg(test)]
mod checking;
#[cfg(test)]
mod disk_faults;
#[cfg(test)]
mod generating;
#[cfg(test)]
mod images;
#[cfg(test)]
mod judging;
#[cfg(test)]
mod stream_faults;
