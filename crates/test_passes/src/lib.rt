//! Tests of a store of two passes. In two threads: both commit and read back; one pins beside the prunings of the other; one looks
//! while a landing of the other is held. In one thread: a pin of one pass holds the floor beside prunings of the other; a look
//! after a landing at which the disk failed.
#![tactic(auto)]

#[cfg(test)]
mod beside;
#[cfg(test)]
mod closing;
#[cfg(test)]
mod held;
mod scene;
#[cfg(test)]
mod shown;
#[cfg(test)]
mod signals;
#[cfg(test)]
mod steps;
#[cfg(test)]
mod threads;
#[cfg(test)]
mod writers;
