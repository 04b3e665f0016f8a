//! Tests of text: sources and sinks, lines of input, and the commands and replies that lines hold.
#![tactic(auto)]

#[cfg(test)]
mod commands;
#[cfg(test)]
mod lines;
#[cfg(test)]
mod replies;
#[cfg(test)]
mod sinks;
#[cfg(test)]
mod sources;
