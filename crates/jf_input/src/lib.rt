//! One loop over the lines of an input: it hands each line of a source to a machine, and writes into a sink what the
//! machine adds there, before it asks the source for more. A fault of the sink ends it (`feed`), or doesn't
//! (`feed_through`).
#![tactic(auto)]

mod feeding;
mod feeding_through;
mod machine;

pub use feeding::{Feeding, feed};
pub use feeding_through::{FedThrough, feed_through};
pub use machine::{AtHand, LineMachine};
