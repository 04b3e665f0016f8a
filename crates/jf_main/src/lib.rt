//! What the program does: it reads the words of its command line, opens the disk that the first word names, runs the
//! other words over it, standard input and standard output, and tells on standard error of an end that isn't a good one.
//! One word alone, `--help` or `--version`, asks for a text.
//! Words that ask for a check are run over what the files hold: these are read, and not opened as a disk.
#![tactic(auto)]

mod asked;
mod checking;
mod command_line;
mod ending;
mod ending_text;
mod help;
mod note;
mod place;
mod program;
mod status_line;

pub use asked::Asked;
pub use checking::{SeenFiles, seen_at};
pub use command_line::CommandLine;
pub use ending::Ending;
pub use ending_text::EndingText;
pub use help::{OwnText, more_usage_text, write_text};
pub use note::CallNote;
pub use place::disk_at;
pub use program::run;
pub use status_line::StatusLine;
