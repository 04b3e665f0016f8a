//! A disk over two files of a folder, and one that is either that or a disk in memory; and the bytes of both files, read
//! beside a run that has them open.
#![tactic(auto)]

mod any;
mod cause;
mod counted;
mod file;
mod folder;
mod found;
mod pieces;
mod reading;
mod seen;
mod side_file;
mod two_files;

pub use any::AnyDisk;
pub use cause::FaultCause;
pub use file::{FileDisk, FileRefused};
pub use reading::FolderBytes;
pub use seen::{Seen, store_refusal};
