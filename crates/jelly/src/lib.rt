//! What C and hosts of WebAssembly call: a name looked up in a store's reply, a claim judged, a root and the hashes that it
//! is made of. No call takes memory, and none requires more than pointers that are valid for their lengths, also for
//! length 0, and that what is written overlaps nothing else.
#![tactic(auto)]

mod ask;
mod hashes;
mod judge;
mod root;
#[cfg(test)]
mod tests;
