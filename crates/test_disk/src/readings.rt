// What is read of a folder's files, also beside a disk that has them open, and that the folder is left as it was.
use jf_folder::{FaultCause, FileDisk, FolderBytes};
use std::io::ErrorKind;
use std::test::Fail;
use std::{fs, io};

const FOLDER: &str = "jf_disk_readings";

const A: &str = "jf_disk_readings/a.jf";

const B: &str = "jf_disk_readings/b.jf";

// The bytes of a file, if there is one.
type Bytes = Option<&'static [u8]>;

// Both files of a folder, and why no store would be opened over them.
type Reading = (Bytes, Bytes, Option<FaultCause>);

const EMPTY: Bytes = Some(b"");

const ONE: Bytes = Some(&[1]);

const ONES_102: Bytes = Some(&[1; 102]);

const SEVENS_102: Bytes = Some(&[7; 102]);

const READINGS: &[Reading] = &[
    (None, None, None),
    (ONE, None, None),
    (ONES_102, EMPTY, None),
    (ONES_102, None, Some(FaultCause::FileMissing)),
    (None, SEVENS_102, Some(FaultCause::FileMissing)),
    (EMPTY, SEVENS_102, Some(FaultCause::NotAStore)),
];

fn put(rt: &HostRuntime, path: &str, bytes: Bytes) -> io::Result<()> {
    match bytes {
        Some(bytes) => fs::write(rt, path, bytes),
        None => Ok(()),
    }
}

fn make(rt: &HostRuntime, a: Bytes, b: Bytes) -> Result<(), Fail> {
    let _ = fs::remove_dir_all(rt, FOLDER);
    fs::create_dir(rt, FOLDER)?;
    put(rt, A, a)?;
    put(rt, B, b)?;
    Ok(())
}

// Whether these bytes were read, or none.
fn is_same(found: &Option<Vec<u8>>, want: Bytes) -> bool {
    match (found, want) {
        (Some(found), Some(want)) => found.as_slice() == want,
        (None, None) => true,
        _ => false,
    }
}

// Whether a file is there exactly if it was.
fn is_left(rt: &HostRuntime, path: &str, was: Bytes) -> bool {
    match fs::metadata(rt, path) {
        Ok(found) => was.is_some() && found.len() == was.unwrap_or(b"").len() as u64,
        Err(e) => was.is_none() && e.kind() == ErrorKind::NotFound,
    }
}

// Whether these files are read in the folder.
fn are_read(rt: &HostRuntime, reading: &Reading) -> Result<bool, Fail> {
    let found = FolderBytes::read(rt, rt.alloc(), FOLDER)?;
    Ok(
        is_same(&found.a, reading.0)
            && is_same(&found.b, reading.1)
            && found.refusal() == reading.2
            && is_left(rt, A, reading.0)
            && is_left(rt, B, reading.1),
    )
}

fn reads_so(rt: &HostRuntime, reading: &Reading) -> Result<bool, Fail> {
    make(rt, reading.0, reading.1)?;
    let is_read = are_read(rt, reading)?;
    fs::remove_dir_all(rt, FOLDER)?;
    Ok(is_read)
}

// Whether a disk that has both files open hinders the reading.
fn reads_beside_a_disk(rt: &HostRuntime) -> Result<bool, Fail> {
    make(rt, ONES_102, EMPTY)?;
    let disk = FileDisk::at(rt, rt.alloc(), FOLDER)?;
    let disk = Box::new(rt.alloc(), disk)?;
    let is_read = are_read(rt, &(ONES_102, EMPTY, None))?;
    drop(disk);
    fs::remove_dir_all(rt, FOLDER)?;
    Ok(is_read)
}

#[test]
fn a_folder_is_read_and_left_as_it_was(rt: HostRuntime) -> Result<(), Fail> {
    for reading in READINGS {
        if !reads_so(&rt, reading)? {
            return Err(Fail::new("another reading"));
        }
    }
    if reads_beside_a_disk(&rt)? {
        Ok(())
    } else {
        Err(Fail::new("another reading beside a disk"))
    }
}
