//! Several sessions over one store: an input is cut into their scripts, each runs its script in a thread of its own, and
//! a report says what each wrote and which entries all of them made.
#![tactic(auto)]

mod cutting;
mod entry;
mod gathered;
mod held_text;
mod line;
mod one_session;
mod outputs;
mod reading;
mod report;
mod scripts;
mod serving;
mod side_by_side;
mod whole_input;

pub use jf_history::End;
pub use outputs::{Ends, Outputs};
pub use reading::{InputFault, MAX_INPUT, read_scripts};
pub use report::{ReportFault, write_served};
pub use scripts::Scripts;
pub use serving::{ServeRefused, Served, serve};
