//! Tests of the mode `serve` of the top call: several sessions over one store, what they write, that they run at the same time, inputs
//! that are too large, and the effect of a fault of the source or of the sink on them.
#![tactic(auto)]

#[cfg(test)]
mod full;
#[cfg(test)]
mod meeting;
#[cfg(test)]
mod pins;
#[cfg(test)]
mod serving;
#[cfg(test)]
mod sessions;
#[cfg(test)]
mod stream_faults;
