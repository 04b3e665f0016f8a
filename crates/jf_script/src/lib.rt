//! The text of a script: lines as commands, and replies as lines. `specs/` has the grammar.
#![tactic(auto)]

mod base;
mod command;
mod fault;
mod laws;
mod question;
mod reading;
mod reply;
mod writing;

pub use command::{Base, Change, Command, ForkQuestion, OwnCommand, Question};
pub use fault::LineFault;
pub use laws::reply_texts_are_distinct;
pub use reading::read_line;
pub use reply::{Refusal, Reply};
pub use writing::write_reply;
