//! Two gated files of records, of which one is live and the other takes the next checkpoint. `specs/` says what the files
//! hold, which side is live, in which order damage is looked for, and what a crash may leave.
#![tactic(auto)]

mod checkpoint;
mod fault;
mod judging;
mod laws;
mod opening;
mod pair;

pub use fault::PairFault;
pub use laws::{
    crashes_leave_live_records, files_hold_one_list, live_side_is_the_pairs,
    undamaged_files_hold_records,
};
pub use pair::Pair;
