//! What a version says of a name, read from the store's reply to `prove` by somebody who has the version's root from
//! elsewhere. Nothing takes memory.
#![tactic(auto)]

mod block;
mod hexadecimal;
mod laws;
mod line;
mod lookup;
mod parts;

pub use hexadecimal::unhexed_count;
pub use laws::honest_blocks_are_believed;
pub use lookup::{Lookup, LookupFault, look_up};
