// Disks over real files: what a folder must be, what is read back, and what a failed sync does.
use crate::mem_disks::Step;
use jf_disk::{Disk, DiskFailed, MemDisk, Side};
use jf_folder::{AnyDisk, FaultCause, FileDisk, FileRefused};
use std::alloc::Global;
use std::fs;
use std::os::unix::fs::{MetadataExt, symlink};
use std::test::Fail;

// Makes an empty folder.
fn make(rt: &HostRuntime, folder: &str) -> Result<(), Fail> {
    let _ = fs::remove_dir_all(rt, folder);
    fs::create_dir(rt, folder)?;
    Ok(())
}

// Removes the folder of a test, and fails if something in the folder was not as it should be.
fn end(rt: &HostRuntime, folder: &'static str, passed: bool) -> Result<(), Fail> {
    if !passed {
        return Err(Fail::new(folder));
    }
    fs::remove_dir_all(rt, folder)?;
    Ok(())
}

// The disk over a folder.
fn open(rt: &HostRuntime, folder: &str) -> Result<Box<FileDisk>, Fail> {
    let disk = FileDisk::at(rt, rt.alloc(), folder)?;
    Ok(Box::new(rt.alloc(), disk)?)
}

// Makes a folder with the two files of a new disk.
fn make_files(rt: &HostRuntime, folder: &str) -> Result<(), Fail> {
    make(rt, folder)?;
    drop(open(rt, folder)?);
    Ok(())
}

// Whether opening a folder is refused for this cause.
fn is_refused(rt: &HostRuntime, folder: &str, cause: FaultCause) -> bool {
    FileDisk::at(rt, rt.alloc(), folder).err() == Some(FileRefused::DiskFailed(cause))
}

// What a call returns: a length, or how many bytes were read.
fn take_step(disk: &mut FileDisk, step: Step) -> Result<u64, DiskFailed> {
    match step {
        Step::Put(side, at, bytes) => disk.write_at(side, at, bytes).map(|_| 0),
        Step::Cut(side, len) => disk.cut(side, len).map(|_| 0),
        Step::Sync(side) => disk.sync(side).map(|_| 0),
        Step::Len(side) => disk.len(side),
        Step::Read(side, at) => disk.read(side, at, &mut [0; 4]).map(|n| n as u64),
    }
}

// A call, and what it should return.
type Taken = (Step, Result<u64, DiskFailed>);

// Whether these calls, one after another, return what they should.
fn takes(disk: &mut FileDisk, steps: &[Taken]) -> bool {
    for (step, want) in steps {
        if take_step(disk, *step) != *want {
            return false;
        }
    }
    true
}

// Whether a disk has made this many calls, and this many of them failed.
fn has_made(disk: &FileDisk, calls: u64, faults: u64) -> bool {
    disk.moment() == calls && disk.faults() == faults
}

// Empties a side, writes it anew and syncs it, and returns its length.
fn rewrite<D: Disk>(disk: &mut D, side: Side, bytes: &[u8]) -> Result<u64, DiskFailed> {
    disk.cut(side, 0)?;
    disk.write_at(side, 0, bytes)?;
    disk.sync(side)?;
    disk.len(side)
}

// A side, the bytes written to it, an offset, and nine bytes read from there; those past the end stay dots.
type Rewriting = (Side, &'static [u8], u64, &'static [u8]);

const REWRITINGS: &[Rewriting] = &[
    (Side::A, b"good morning", 5, b"morning.."),
    (Side::B, b"hello", 0, b"hello...."),
    (Side::A, b"good", u64::MAX, b"........."),
];

fn is_read_back<D: Disk>(disk: &mut D, rewriting: Rewriting) -> bool {
    let (side, bytes, at, want) = rewriting;
    let mut buf = [b'.'; 9];
    rewrite(disk, side, bytes) == Ok(bytes.len() as u64)
        && disk.read(side, at, &mut buf).is_ok()
        && buf.as_slice() == want
}

fn reads_back<D: Disk>(disk: &mut D) -> bool {
    for rewriting in REWRITINGS {
        if !is_read_back(disk, *rewriting) {
            return false;
        }
    }
    disk.moment() == 15 && disk.faults() == 0
}

fn disk_in_memory(alloc: Global) -> Result<Box<AnyDisk>, Fail> {
    let a = b"old".to_vec(alloc)?;
    let disk = MemDisk::new(alloc, a, Vec::new(alloc), 20, 40, Vec::new(alloc))?;
    Ok(Box::new(alloc, AnyDisk::Mem(disk))?)
}

fn disk_over_files(rt: &HostRuntime, folder: &str) -> Result<Box<AnyDisk>, Fail> {
    let disk = FileDisk::at(rt, rt.alloc(), folder)?;
    Ok(Box::new(rt.alloc(), AnyDisk::File(disk))?)
}

fn both_read_back(rt: &HostRuntime, folder: &str) -> Result<bool, Fail> {
    let mut memory = disk_in_memory(rt.alloc())?;
    let mut files = disk_over_files(rt, folder)?;
    Ok(reads_back::<AnyDisk>(&mut memory) && reads_back::<AnyDisk>(&mut files))
}

#[test]
fn both_kinds_read_back_what_was_written(rt: HostRuntime) -> Result<(), Fail> {
    let folder = "jf_disk_both_kinds";
    make(&rt, folder)?;
    let read = both_read_back(&rt, folder)?;
    end(&rt, folder, read)
}

const NEW: &[Taken] = &[
    (Step::Len(Side::A), Ok(0)),
    (Step::Len(Side::B), Ok(0)),
    (Step::Cut(Side::B, 0), Ok(0)),
    (Step::Put(Side::B, 0, b"kept"), Ok(0)),
    (Step::Sync(Side::B), Ok(0)),
    (Step::Len(Side::B), Ok(4)),
    (Step::Put(Side::B, u64::MAX, b"kept"), Err(DiskFailed)),
    (Step::Cut(Side::B, u64::MAX), Err(DiskFailed)),
];

// Whether a read at an offset gives these eight bytes, the first `count` of which are the side's.
fn gives(disk: &mut FileDisk, side: Side, at: u64, count: usize, want: [u8; 8]) -> bool {
    let mut buf = [0; 8];
    disk.read(side, at, &mut buf) == Ok(count) && buf == want
}

fn is_made_empty_and_written(rt: &HostRuntime, folder: &str) -> Result<bool, Fail> {
    let mut disk = open(rt, folder)?;
    Ok(takes(&mut disk, NEW) && has_made(&disk, 8, 2))
}

fn is_as_it_was_written(rt: &HostRuntime, folder: &str) -> Result<bool, Fail> {
    let mut disk = open(rt, folder)?;
    Ok(gives(&mut disk, Side::B, 1, 3, *b"ept\0\0\0\0\0") && disk.len(Side::A) == Ok(0))
}

// Whether opening a folder is refused after it was removed.
fn is_refused_without_it(rt: &HostRuntime, folder: &str) -> bool {
    let _ = fs::remove_dir_all(rt, folder);
    is_refused(rt, folder, FaultCause::NoSuchFolder)
}

fn is_written_and_opened_again(rt: &HostRuntime, folder: &str) -> Result<bool, Fail> {
    Ok(is_made_empty_and_written(rt, folder)? && is_as_it_was_written(rt, folder)?)
}

#[test]
fn files_are_made_empty_and_keep_their_bytes(rt: HostRuntime) -> Result<(), Fail> {
    let folder = "jf_disk_files";
    let refused = is_refused_without_it(&rt, folder);
    make(&rt, folder)?;
    let kept = is_written_and_opened_again(&rt, folder)?;
    end(&rt, folder, refused && kept)
}

// Whether only the owner of a file may read and write it.
fn is_for_its_owner_alone(rt: &HostRuntime, file: &str) -> Result<bool, Fail> {
    Ok(fs::metadata(rt, file)?.mode() & 0o777 == 0o600)
}

fn are_for_their_owner_alone(rt: &HostRuntime, a: &str, b: &str) -> Result<bool, Fail> {
    Ok(is_for_its_owner_alone(rt, a)? && is_for_its_owner_alone(rt, b)?)
}

#[test]
fn new_files_are_for_their_owner_alone(rt: HostRuntime) -> Result<(), Fail> {
    let folder = "jf_disk_modes";
    make_files(&rt, folder)?;
    let alone = are_for_their_owner_alone(&rt, "jf_disk_modes/a.jf", "jf_disk_modes/b.jf")?;
    end(&rt, folder, alone)
}

// Whether a folder is refused as long as a disk holds it.
fn is_held(rt: &HostRuntime, folder: &str) -> Result<bool, Fail> {
    let held = open(rt, folder)?;
    let refused = is_refused(rt, folder, FaultCause::InUse);
    drop(held);
    Ok(refused)
}

fn is_held_twice(rt: &HostRuntime, folder: &str) -> Result<bool, Fail> {
    Ok(is_held(rt, folder)? && is_held(rt, folder)?)
}

// The lock belongs to the opened file, so that a second opening meets what another process would.
#[test]
fn a_folder_is_opened_once_at_a_time(rt: HostRuntime) -> Result<(), Fail> {
    let folder = "jf_disk_held";
    make(&rt, folder)?;
    let held = is_held_twice(&rt, folder)?;
    end(&rt, folder, held)
}

// Whether a folder is refused after a link was put in place of a file.
fn is_refused_with_link(
    rt: &HostRuntime,
    folder: &str,
    to: &str,
    file: &str,
) -> Result<bool, Fail> {
    fs::remove_file(rt, file)?;
    symlink(rt, to, file)?;
    Ok(is_refused(rt, folder, FaultCause::NotAStore))
}

// Whether a folder is refused after a folder was put in place of a file.
fn is_refused_with_folder(rt: &HostRuntime, folder: &str, file: &str) -> Result<bool, Fail> {
    fs::remove_file(rt, file)?;
    fs::create_dir(rt, file)?;
    Ok(is_refused(rt, folder, FaultCause::NotAStore))
}

// Whether a folder is refused with a link to its side A in place of a file, one to a device, and a folder.
fn is_refused_with_each(rt: &HostRuntime, folder: &str, file: &str) -> Result<bool, Fail> {
    Ok(
        is_refused_with_link(rt, folder, "a.jf", file)?
            && is_refused_with_link(rt, folder, "/dev/null", file)?
            && is_refused_with_folder(rt, folder, file)?,
    )
}

#[test]
fn files_that_are_no_two_sides_are_refused(rt: HostRuntime) -> Result<(), Fail> {
    let folder = "jf_disk_refused";
    make_files(&rt, folder)?;
    let refused = is_refused_with_each(&rt, folder, "jf_disk_refused/b.jf")?;
    end(
        &rt,
        folder,
        refused && is_refused(&rt, "", FaultCause::NoSuchFolder),
    )
}

const PAST_THE_END: &[Taken] = &[
    (Step::Put(Side::A, 0, b"kept"), Ok(0)),
    (Step::Sync(Side::A), Ok(0)),
    (Step::Len(Side::A), Ok(4)),
    (Step::Put(Side::A, 5, b"x"), Err(DiskFailed)),
    (Step::Cut(Side::A, 5), Err(DiskFailed)),
    (Step::Len(Side::A), Ok(4)),
    (Step::Put(Side::A, 4, b"x"), Ok(0)),
    (Step::Cut(Side::A, 5), Ok(0)),
    (Step::Len(Side::A), Ok(5)),
];

fn takes_nothing_past_the_end(rt: &HostRuntime, folder: &str) -> Result<bool, Fail> {
    let mut disk = open(rt, folder)?;
    Ok(takes(&mut disk, PAST_THE_END))
}

#[test]
fn a_file_gets_no_hole_and_is_not_lengthened(rt: HostRuntime) -> Result<(), Fail> {
    let folder = "jf_disk_no_hole";
    make(&rt, folder)?;
    let taken = takes_nothing_past_the_end(&rt, folder)?;
    end(&rt, folder, taken)
}

const LOST: &[Taken] = &[
    (Step::Sync(Side::A), Err(DiskFailed)),
    (Step::Len(Side::A), Err(DiskFailed)),
    (Step::Read(Side::A, 0), Err(DiskFailed)),
    (Step::Put(Side::A, 0, b""), Err(DiskFailed)),
    (Step::Cut(Side::A, 0), Err(DiskFailed)),
    (Step::Sync(Side::A), Err(DiskFailed)),
];

fn is_lost(disk: &mut FileDisk) -> bool {
    disk.len(Side::A).is_ok()
        && disk.cause().is_none()
        && takes(disk, LOST)
        && has_made(disk, 7, 6)
        && disk.cause() == Some(FaultCause::InputOutput)
}

// Makes a folder whose side A is a link to `to`.
fn make_link(rt: &HostRuntime, folder: &str, to: &str, a: &str) -> Result<(), Fail> {
    make(rt, folder)?;
    symlink(rt, to, a)?;
    Ok(())
}

fn loses_a_side_alone(rt: &HostRuntime, folder: &str) -> Result<bool, Fail> {
    let mut disk = open(rt, folder)?;
    Ok(is_lost(&mut disk) && rewrite::<FileDisk>(&mut disk, Side::B, b"kept") == Ok(4))
}

// A file of the system that can be opened, but not synced, acts as a device that fails.
#[test]
fn a_side_is_lost_after_a_failed_sync(rt: HostRuntime) -> Result<(), Fail> {
    let folder = "jf_disk_lost";
    make_link(&rt, folder, "/proc/self/comm", "jf_disk_lost/a.jf")?;
    let lost = loses_a_side_alone(&rt, folder)?;
    end(&rt, folder, lost)
}
