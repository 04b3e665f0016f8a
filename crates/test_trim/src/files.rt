// Two files byte by byte, the result of trimming them, and what a crash in it leaves. The bytes are from outside (jf_play's
// files).
use jf_disk::{Disk, MemDisk, Side};
use jf_pair::PairFault;
use jf_play::files::{CHECKPOINT, COMPACTED, END, File, LANDING, LANDING_OF_NOTHING, file_bytes};
use jf_play::images::{CRASHES, Crash, image_of};
use jf_play::play::{NO_FAULTS, disk_of, has_ended, play};
use jf_run::status::Status;
use jf_trim::{Trimmed, trim};
use std::alloc::Global;
use std::sync::Wait;
use std::test::Fail;
use std::thread::Threads;

// A store of three versions in generation 1, and the same in generation 2.
const FIRST: File = &[CHECKPOINT, LANDING, LANDING_OF_NOTHING, END];

const SECOND: File = &[COMPACTED, END];

// Both files, the side that is trimmed and how many bytes it gives back, and both files after that.
struct Row {
    files: (File, File),
    side: Side,
    bytes: u64,
    left: (File, File),
}

const ROWS: &[Row] = &[
    // After a checkpoint of the next generation.
    Row {
        files: (FIRST, SECOND),
        side: Side::A,
        bytes: 344,
        left: (&[END], SECOND),
    },
    Row {
        files: (SECOND, FIRST),
        side: Side::B,
        bytes: 344,
        left: (SECOND, &[END]),
    },
    // After one that broke off, with the gate that it closed, and with a closed gate of another byte.
    Row {
        files: (FIRST, &[&[b"\0\x05\0\0\0\0"]]),
        side: Side::B,
        bytes: 5,
        left: (FIRST, &[END]),
    },
    Row {
        files: (&[&[b"\x5a\x05\0"]], FIRST),
        side: Side::A,
        bytes: 2,
        left: (&[&[b"\x5a"]], FIRST),
    },
    // A side of at most one byte is short already.
    Row {
        files: (FIRST, &[]),
        side: Side::B,
        bytes: 0,
        left: (FIRST, &[]),
    },
    Row {
        files: (&[&[b"\x01"]], FIRST),
        side: Side::A,
        bytes: 0,
        left: (&[&[b"\x01"]], FIRST),
    },
    // Without a record no side is live, and the first checkpoint goes to A.
    Row {
        files: (&[], &[]),
        side: Side::A,
        bytes: 0,
        left: (&[], &[]),
    },
    Row {
        files: (&[&[b"\0\x05"]], &[&[b"\0\x05"]]),
        side: Side::A,
        bytes: 1,
        left: (&[END], &[&[b"\0\x05"]]),
    },
];

// A disk that holds these files.
fn holding(alloc: Global, files: (File, File), failing: &[u64]) -> Result<Box<MemDisk>, Fail> {
    let a = file_bytes(alloc, files.0)?;
    let b = file_bytes(alloc, files.1)?;
    disk_of(alloc, &a, &b, failing)
}

// Whether a disk holds these files.
fn holds(alloc: Global, disk: &MemDisk, files: (File, File)) -> Result<bool, Fail> {
    let a = file_bytes(alloc, files.0)?;
    let b = file_bytes(alloc, files.1)?;
    Ok(disk.bytes(Side::A) == a.as_slice() && disk.bytes(Side::B) == b.as_slice())
}

// Whether trimming a row's files gives back what the row says.
fn is_trimmed(alloc: Global, row: &Row) -> Result<bool, Fail> {
    let mut disk = holding(alloc, row.files, &[])?;
    let trimmed = Trimmed {
        side: row.side,
        bytes: row.bytes,
    };
    Ok(trim(alloc, &mut *disk) == Ok(trimmed) && holds(alloc, &disk, row.left)?)
}

#[test]
fn the_side_that_is_not_live_is_cut(rt: HostRuntime) -> Result<(), Fail> {
    for row in ROWS {
        assert!(rt; is_trimmed(rt.alloc(), row)?, "of {:?}", row.files);
    }
    Ok(())
}

// Files that hold no live records, and the side whose first byte is the place of damage.
const DAMAGED: &[((File, File), Side)] = &[
    ((&[&[b"\x01\x07"]], FIRST), Side::A),
    ((FIRST, &[&[b"\x01\x07"]]), Side::B),
    ((FIRST, FIRST), Side::B),
];

// Whether damaged files are refused, and unchanged.
fn is_refused(alloc: Global, files: (File, File), side: Side) -> Result<bool, Fail> {
    let mut disk = holding(alloc, files, &[])?;
    let damage = PairFault::Damaged { side, offset: 0 };
    Ok(trim(alloc, &mut *disk) == Err(damage) && holds(alloc, &disk, files)?)
}

#[test]
fn damaged_files_are_unchanged(rt: HostRuntime) -> Result<(), Fail> {
    for (files, side) in DAMAGED {
        assert!(rt; is_refused(rt.alloc(), *files, *side)?, "of {files:?}");
    }
    Ok(())
}

// What a run over the store answers: the numbers of generation 2, and the root of its newest version, by Python's `hashlib`.
const SCRIPT: &[u8] = b"status\nroot head\n";

const REPLIES: &[u8] = b"0 ok status base 0 floor 0 retired 0 head 2 kept 3 forks 0 generation 2\n\
    0 ok root 9bb72c39f13d2b512ea34eae99a28f6d807a134ab125e89172310c6f6ea72f8f\n";

// Whether what a crash leaves at a moment opens as the store.
fn opens<H: Threads + Wait + Sync>(
    rt: &H,
    alloc: Global,
    disk: &MemDisk,
    moment: u64,
    crash: Crash,
) -> Result<bool, Fail> {
    let image = image_of(alloc, disk, moment, crash)?;
    let played = play(rt, alloc, image, "run", SCRIPT, NO_FAULTS)?;
    Ok(has_ended(&played, Status::Done, Some(2), REPLIES))
}

// Whether all that a crash leaves at a moment opens as the store.
fn all_open<H: Threads + Wait + Sync>(
    rt: &H,
    alloc: Global,
    disk: &MemDisk,
    moment: u64,
) -> Result<bool, Fail> {
    for crash in CRASHES {
        if !opens(rt, alloc, disk, moment, *crash)? {
            return Ok(false);
        }
    }
    Ok(true)
}

// The number of calls that trimming makes: both sides synced, and the length and the bytes of each; the length of the side that
// isn't live, which is then read with its length; its length and first gate, the gate closed, sync, cut, sync.
const CALLS: u64 = 15;

// Whether a call that fails ends the trimming, and all that a crash leaves then opens as the store.
fn stops_well<H: Threads + Wait + Sync>(rt: &H, alloc: Global, failing: u64) -> Result<bool, Fail> {
    let mut disk = holding(alloc, (FIRST, SECOND), &[failing])?;
    let ended = trim(alloc, &mut *disk);
    let moment = disk.moment();
    let stopped = ended == Err(PairFault::DiskFault) && failing.checked_add(1) == Some(moment);
    Ok(stopped && all_open(rt, alloc, &disk, moment)?)
}

#[test]
fn a_fault_of_any_call_leaves_the_store(rt: HostRuntime) -> Result<(), Fail> {
    for failing in 0..CALLS {
        assert!(rt; stops_well(&rt, rt.alloc(), failing)?, "at {failing}");
    }
    Ok(())
}

// Trimming that no fault ends, and a disk after it.
fn trimmed_disk(alloc: Global) -> Result<Box<MemDisk>, Fail> {
    let mut disk = holding(alloc, (FIRST, SECOND), &[CALLS])?;
    match trim(alloc, &mut *disk) {
        Ok(_) => Ok(disk),
        Err(_) => Err(Fail::new("not trimmed")),
    }
}

#[test]
fn a_crash_at_any_moment_leaves_the_store(rt: HostRuntime) -> Result<(), Fail> {
    let disk = trimmed_disk(rt.alloc())?;
    for moment in 0..=CALLS {
        assert!(rt; all_open(&rt, rt.alloc(), &disk, moment)?, "at {moment}");
    }
    Ok(())
}
