//! Tests of replies to `prove` that are judged from a source into a sink.
#![tactic(auto)]

#[cfg(test)]
mod devices;
#[cfg(test)]
mod lengths;
#[cfg(test)]
mod lines;
#[cfg(test)]
mod replies;
