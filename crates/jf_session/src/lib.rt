//! One script over a pass of a shared store: its lines are answered one after another, and a line that may change the
//! store is done once the replies before it are written.
#![tactic(auto)]

mod ahead;
mod answer;
mod changing;
mod compacting;
mod forking;
mod landing;
mod laws;
mod leader;
mod leading;
mod leading_lines;
mod looking;
mod obeying;
mod pending;
mod pinning;
mod prepared_put;
mod prepared_reply;
mod preparing;
mod pruning;
mod questions;
mod quiet;
mod reading;
mod refusing;
mod running;
mod session;
mod status;
mod stop;
mod taking;
mod telling;

pub use jf_history::End;
pub use laws::{one_lead_tells_all, one_pass_leads_all};
pub use leading::{Led, lead};
pub use running::{Ran, run};
pub use session::Session;
pub use stop::Stop;
