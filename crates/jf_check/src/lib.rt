//! What the two files of a store show, without a store being opened over them: each file by itself, and what both stand
//! for, or where they are damaged first, as an opening finds it. It works on bytes in memory, and changes no file.
#![tactic(auto)]

mod check;
mod checkpoint;
mod fault;
mod first;
mod laws;
mod numbers;
mod reading;
mod side_check;
mod store_check;
mod writing;

pub use check::{Check, check_disk, check_files};
pub use fault::Unchecked;
pub use laws::{files_show_one_thing, live_numbers_are_the_versions, sizes_add_up};
pub use numbers::SideNumbers;
pub use side_check::SideCheck;
pub use store_check::StoreCheck;
