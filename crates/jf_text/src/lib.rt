//! The words of a line: numbers in decimal and bytes in hexadecimal, read and written. `specs/` says what each word
//! represents.
#![tactic(auto)]

mod hexadecimal;
mod limits;
mod number;
mod word;
mod writing;

pub use hexadecimal::{hash_of, name_of, unhex_into, value_of};
pub use limits::{MAX_CHUNK, MAX_LINE, MAX_NAME};
pub use number::{number_from, number_of};
pub use word::{is_word, split_word};
pub use writing::{write_hex, write_number};
