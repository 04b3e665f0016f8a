//! What a version says of a name, judged from the store's reply to `prove` on a source, under a root that the caller has
//! from elsewhere, and written into a sink as one line.
#![tactic(auto)]

mod judging;
mod reading;
mod verdict;

pub use judging::{Judged, judge_reply};
pub use reading::MAX_REPLY;
