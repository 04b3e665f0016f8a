// Over which files a store may be opened, and that a refusal leaves a folder as it was, to the byte.
use jf_folder::{FaultCause, FileDisk, FileRefused, Seen, store_refusal};
use std::io::ErrorKind;
use std::os::unix::fs::symlink;
use std::test::Fail;
use std::{fs, io};

// What is seen of two files, and why no store is opened over them.
type Sight = (Seen, Seen, Option<FaultCause>);

const SIGHTS: &[Sight] = &[
    (Seen::Missing, Seen::Missing, None),
    (Seen::Missing, Seen::There(0, 0), None),
    (Seen::There(1, 7), Seen::Missing, None),
    (Seen::There(1, 1), Seen::Missing, None),
    (
        Seen::There(2, 0),
        Seen::Missing,
        Some(FaultCause::FileMissing),
    ),
    (
        Seen::Missing,
        Seen::There(2, 1),
        Some(FaultCause::FileMissing),
    ),
    (
        Seen::Missing,
        Seen::There(102, 7),
        Some(FaultCause::FileMissing),
    ),
    (Seen::There(0, 0), Seen::There(0, 0), None),
    (Seen::There(101, 0), Seen::There(0, 0), None),
    (Seen::There(101, 7), Seen::There(101, 0), None),
    (
        Seen::There(102, 0),
        Seen::There(0, 0),
        Some(FaultCause::NotAStore),
    ),
    (
        Seen::There(1, 7),
        Seen::There(102, 7),
        Some(FaultCause::NotAStore),
    ),
    (Seen::There(102, 1), Seen::There(102, 7), None),
    (Seen::There(102, 7), Seen::There(2, 1), None),
];

#[test]
fn stores_are_opened_over_what_a_store_may_leave(_rt: HostRuntime) -> Result<(), Fail> {
    for (a, b, want) in SIGHTS {
        if store_refusal(*a, *b) != *want {
            return Err(Fail::new("another refusal"));
        }
    }
    Ok(())
}

const FOLDER: &str = "jf_disk_beginnings";

const LINKED: &str = "jf_disk_linked";

const A: &str = "jf_disk_beginnings/a.jf";

const B: &str = "jf_disk_beginnings/b.jf";

// The bytes of a file, if there is one.
type Bytes = Option<&'static [u8]>;

// What lies in a folder, and why no store is opened over it.
type Beginning = (Bytes, Bytes, Option<FaultCause>);

const EMPTY: Bytes = Some(b"");

const ZERO: Bytes = Some(&[0]);

const TWO: Bytes = Some(&[1, 5]);

const ZEROS_101: Bytes = Some(&[0; 101]);

const ZEROS_102: Bytes = Some(&[0; 102]);

const ONES_102: Bytes = Some(&[1; 102]);

const SEVENS_102: Bytes = Some(&[7; 102]);

const BEGINNINGS: &[Beginning] = &[
    (None, None, None),
    (EMPTY, None, None),
    (None, ZERO, None),
    (TWO, None, Some(FaultCause::FileMissing)),
    (None, ZEROS_101, Some(FaultCause::FileMissing)),
    (None, ONES_102, Some(FaultCause::FileMissing)),
    (ZEROS_101, EMPTY, None),
    (ZEROS_102, EMPTY, Some(FaultCause::NotAStore)),
    (TWO, SEVENS_102, None),
    (ZERO, SEVENS_102, Some(FaultCause::NotAStore)),
    (ONES_102, EMPTY, None),
];

// Puts bytes into a file, if there are any.
fn put(rt: &HostRuntime, path: &str, bytes: Bytes) -> io::Result<()> {
    match bytes {
        Some(bytes) => fs::write(rt, path, bytes),
        None => Ok(()),
    }
}

// Whether there is no file.
fn is_missing(rt: &HostRuntime, path: &str) -> bool {
    match fs::metadata(rt, path) {
        Ok(_) => false,
        Err(e) => e.kind() == ErrorKind::NotFound,
    }
}

// Whether a file has these bytes, or is missing.
fn has(rt: &HostRuntime, path: &str, want: Bytes) -> io::Result<bool> {
    match want {
        Some(want) => Ok(fs::read(rt, path)?.as_slice() == want),
        None => Ok(is_missing(rt, path)),
    }
}

// Whether the folder has what it had, and after an opening both files.
fn is_left(rt: &HostRuntime, a: Bytes, b: Bytes, is_opened: bool) -> io::Result<bool> {
    if is_opened {
        return Ok(has(rt, A, a.or(EMPTY))? && has(rt, B, b.or(EMPTY))?);
    }
    Ok(has(rt, A, a)? && has(rt, B, b)?)
}

// Why a folder isn't opened, if it isn't.
fn refusal(rt: &HostRuntime, folder: &str) -> Option<FaultCause> {
    match FileDisk::at(rt, rt.alloc(), folder) {
        Ok(_) => None,
        Err(FileRefused::DiskFailed(cause)) => Some(cause),
        Err(FileRefused::Memory) => Some(FaultCause::InputOutput),
    }
}

// Whether a folder of these files is opened or refused as it should be, and left so.
fn begins_so(rt: &HostRuntime, beginning: Beginning) -> Result<bool, Fail> {
    let (a, b, want) = beginning;
    let _ = fs::remove_dir_all(rt, FOLDER);
    fs::create_dir(rt, FOLDER)?;
    put(rt, A, a)?;
    put(rt, B, b)?;
    let found = refusal(rt, FOLDER);
    let is_left = is_left(rt, a, b, want.is_none())?;
    fs::remove_dir_all(rt, FOLDER)?;
    Ok(found == want && is_left)
}

#[test]
fn a_refusal_leaves_the_folder_as_it_was(rt: HostRuntime) -> Result<(), Fail> {
    for beginning in BEGINNINGS {
        if !begins_so(&rt, *beginning)? {
            return Err(Fail::new("another outcome"));
        }
    }
    Ok(())
}

// Why a folder isn't opened whose side B is a link to a missing file, if no side A was made.
fn refusal_with_link(rt: &HostRuntime) -> Result<Option<FaultCause>, Fail> {
    let _ = fs::remove_dir_all(rt, LINKED);
    fs::create_dir(rt, LINKED)?;
    symlink(rt, "nowhere", "jf_disk_linked/b.jf")?;
    let found = refusal(rt, LINKED);
    let is_made = fs::metadata(rt, "jf_disk_linked/a.jf").is_ok();
    fs::remove_dir_all(rt, LINKED)?;
    if is_made {
        return Err(Fail::new("side A was made"));
    }
    Ok(found)
}

#[test]
fn a_link_to_a_missing_file_is_no_new_file(rt: HostRuntime) -> Result<(), Fail> {
    match refusal_with_link(&rt)? {
        Some(FaultCause::FileMissing) => Ok(()),
        _ => Err(Fail::new("another outcome")),
    }
}
