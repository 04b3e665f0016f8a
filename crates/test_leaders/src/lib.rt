//! Tests of the top call in the mode `lead`.
#![tactic(auto)]

#[cfg(test)]
mod devices;
#[cfg(test)]
mod live;
#[cfg(test)]
mod samples;
#[cfg(test)]
mod stops;
#[cfg(test)]
mod texts;
