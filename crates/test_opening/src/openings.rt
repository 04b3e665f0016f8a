// Files that are opened, with some of their bytes changed, and the damage that is reported.
use jf_disk::{Disk, MemDisk, Side};
use jf_play::files::{CHECKPOINT, END, File, LANDING, LANDING_OF_NOTHING, file_bytes};
use jf_play::play::{NO_FAULTS, Played, disk_of, has_ended, play};
use jf_run::status::Status;
use std::alloc::Global;
use std::sync::Wait;
use std::test::Fail;
use std::thread::Threads;

// A new store.
pub(crate) const NEW: File = &[CHECKPOINT, END];

// After the landing of `put 61 =31`: gates at 0, 100 and 222, and 223 bytes.
pub(crate) const LANDED: File = &[CHECKPOINT, LANDING, END];

// After a landing of nothing as well: gates at 0, 100, 222 and 344, and 345 bytes.
pub(crate) const LANDED_TWICE: File = &[CHECKPOINT, LANDING, LANDING_OF_NOTHING, END];

// The first gate of a landing: the checkpoint of a new store has 100 bytes with its gate.
pub(crate) const FIRST_LANDING: u64 = 100;

// Bytes by their offsets.
pub(crate) type Change = (usize, u8);

// The first `len` bytes of a file, with other bytes at some offsets.
pub(crate) fn changed_file(
    alloc: Global,
    file: File,
    len: usize,
    changes: &[Change],
) -> Result<Vec<u8>, Fail> {
    let mut bytes = file_bytes(alloc, file)?;
    bytes.truncate(len);
    for (at, byte) in changes {
        if let Some(there) = bytes.get_mut(*at) {
            *there = *byte;
        }
    }
    Ok(bytes)
}

// The two files of a disk.
#[derive(Drop)]
pub(crate) struct Files {
    pub a: Vec<u8>,
    pub b: Vec<u8>,
}

// Runs a script over these files. The calls whose numbers are in `failing` fail.
pub(crate) fn opened_run<H: Threads + Wait + Sync>(
    rt: &H,
    alloc: Global,
    files: &Files,
    script: &[u8],
    failing: &[u64],
) -> Result<Played<MemDisk>, Fail> {
    let disk = disk_of(alloc, &files.a, &files.b, failing)?;
    play(rt, alloc, disk, "run", script, NO_FAULTS)
}

// Whether both sides of a disk hold these files.
pub(crate) fn holds(disk: &MemDisk, files: &Files) -> bool {
    disk.bytes(Side::A) == files.a.as_slice() && disk.bytes(Side::B) == files.b.as_slice()
}

// Whether a run opened nothing and wrote nothing, and the files are unchanged.
fn is_refused(played: &Played<MemDisk>, files: &Files) -> bool {
    let refused = has_ended(played, played.status, None, b"") && played.entries == 0;
    refused && holds(&played.disk, files)
}

// Whether a run ended with a disk fault if its disk failed, and with this damage if it didn't.
fn is_cause(played: &Played<MemDisk>, side: Side, offset: u64) -> bool {
    if played.disk.faults() == 0 {
        played.status == Status::Damaged { side, offset }
    } else {
        played.status == Status::DiskFault
    }
}

// Opens files on a disk that fails in this call; returns whether the call was made.
fn has_failed<H: Threads + Wait + Sync>(
    rt: &H,
    alloc: Global,
    files: &Files,
    side: Side,
    offset: u64,
    failing: u64,
) -> Result<bool, Fail> {
    let played = opened_run(rt, alloc, files, b"put 61 =31\ncommit", &[failing])?;
    if !is_refused(&played, files) {
        return Err(Fail::new("a refused opening changed the files"));
    }
    if !is_cause(&played, side, offset) {
        return Err(Fail::new("a refused opening has another cause"));
    }
    Ok(played.disk.faults() > 0)
}

// Opens files on disks that fail in the first call, in the second and so on, up to one that never fails. Whether each is
// refused, the last one with this damage, and none changes the files. At least two calls are made: each side is synced.
pub(crate) fn is_damaged<H: Threads + Wait + Sync>(
    rt: &H,
    alloc: Global,
    files: &Files,
    side: Side,
    offset: u64,
) -> Result<bool, Fail> {
    for failing in 0..100 {
        if !has_failed(rt, alloc, files, side, offset, failing)? {
            return Ok(failing >= 2);
        }
    }
    Err(Fail::new("an opening without end"))
}
