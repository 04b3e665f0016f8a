// Opening and making the files of a folder, before their calls are counted.
use crate::cause::FaultCause;
use crate::file::FileRefused;
use std::fs::{self, File, OpenOptions};
use std::io;
use std::io::ErrorKind;
use std::os::fd::AsRawFd;
use std::os::unix::fs::{MetadataExt, OpenOptionsExt};
use std::rt::Files;

// The mode of a new file: its owner may read and write it, and nobody else.
const OWNER_ALONE: u32 = 0o600;

// The greatest descriptor of a standard stream.
const LAST_STREAM: i32 = 2;

/// Whether a file took the place of a standard stream that was closed. What is written to that stream would go into the
/// file, and what is read from it would come out of the file.
pub(crate) fn is_stream(file: &File) -> bool {
    file.as_raw_fd() <= LAST_STREAM
}

/// Opens the file at a path to read and write, if there is one. It has to be a regular file, and the path no link to a
/// missing one.
pub(crate) fn open_there<H: Files<File = File>>(
    rt: &H,
    path: &str,
) -> Result<Option<File>, FileRefused> {
    match OpenOptions::new().read(true).write(true).open(rt, path) {
        Ok(file) => Ok(Some(checked_file(file)?)),
        Err(e) if e.kind() == ErrorKind::NotFound => none_there(rt, path),
        Err(e) => Err(e.into()),
    }
}

/// Opens the file at a path to read it alone, if there is one. It has to be a regular file, and the path no link to a
/// missing one. It is looked at first: an open of a pipe would wait.
pub(crate) fn open_to_read<H: Files<File = File>>(
    rt: &H,
    path: &str,
) -> Result<Option<File>, FileRefused> {
    match fs::metadata(rt, path) {
        Ok(found) if found.is_file() => Ok(Some(checked_file(File::open(rt, path)?)?)),
        Ok(_) => Err(FileRefused::DiskFailed(FaultCause::NotAStore)),
        Err(e) if e.kind() == ErrorKind::NotFound => none_there(rt, path),
        Err(e) => Err(e.into()),
    }
}

// Refuses a path that is a link to a missing file.
fn none_there<H: Files<File = File>>(rt: &H, path: &str) -> Result<Option<File>, FileRefused> {
    match fs::symlink_metadata(rt, path) {
        Ok(_) => Err(FileRefused::DiskFailed(FaultCause::FileMissing)),
        Err(e) if e.kind() == ErrorKind::NotFound => Ok(None),
        Err(e) => Err(e.into()),
    }
}

/// Makes the file at a path, which was missing, empty and for its owner alone, and locks it.
pub(crate) fn make<H: Files<File = File>>(rt: &H, path: &str) -> Result<File, FileRefused> {
    match OpenOptions::new()
        .read(true)
        .write(true)
        .create_new(true)
        .mode(OWNER_ALONE)
        .open(rt, path)
    {
        Ok(file) => locked_file(checked_file(file)?),
        // Another run has made it meanwhile.
        Err(e) if e.kind() == ErrorKind::AlreadyExists => {
            Err(FileRefused::DiskFailed(FaultCause::InUse))
        }
        Err(e) => Err(e.into()),
    }
}

/// Locks a file for this process. It is refused if another process or another open of it holds the lock.
pub(crate) fn locked_file(file: File) -> Result<File, FileRefused> {
    match file.try_lock() {
        Ok(()) => Ok(file),
        Err(e) => Err(io::Error::from(e).into()),
    }
}

/// Whether these are two files, not one under two names. A file that is missing is apart from any.
pub(crate) fn are_apart(a: &Option<File>, b: &Option<File>) -> Result<bool, FileRefused> {
    match (a, b) {
        (Some(a), Some(b)) => {
            let (a, b) = (a.metadata()?, b.metadata()?);
            Ok(a.dev() != b.dev() || a.ino() != b.ino())
        }
        _ => Ok(true),
    }
}

// The file, if it is regular and no standard stream.
fn checked_file(file: File) -> Result<File, FileRefused> {
    if is_stream(&file) {
        return Err(FileRefused::DiskFailed(FaultCause::ClosedStream));
    }
    if !file.metadata()?.is_file() {
        return Err(FileRefused::DiskFailed(FaultCause::NotAStore));
    }
    Ok(file)
}
