// The mode `trim` over stores that a script left.
use jf_disk::{Disk, MemDisk, Side};
use jf_play::files::{CHECKPOINT, COMPACTED, END, File, LANDING, LANDING_OF_NOTHING, file_bytes};
use jf_play::play::{Faults, NO_FAULTS, NO_INPUT, Played, disk_of, has_ended, play, play_after};
use jf_run::status::Status;
use std::alloc::Global;
use std::sync::Wait;
use std::test::Fail;
use std::thread::Threads;

// A script over a new store, the newest version after it, and the line that `trim` writes then. The lengths are those of the
// records: 100 bytes, 122 for each of two landings, and 274 for the checkpoint of all three versions.
const ROWS: &[(&str, u64, &[u8])] = &[
    ("", 0, b"trimmed b 0\n"),
    ("put 61 =31\ncommit\ncommit\n", 2, b"trimmed b 0\n"),
    (
        "put 61 =31\ncommit\ncommit\ncompact\n",
        2,
        b"trimmed a 344\n",
    ),
    (
        "put 61 =31\ncommit\ncommit\ncompact\ncompact\n",
        2,
        b"trimmed b 274\n",
    ),
];

// Whether `trim` writes a row's line, and then that there is nothing more to cut on that side.
fn is_as_expected<H: Threads + Wait + Sync>(
    rt: &H,
    alloc: Global,
    row: &(&str, u64, &[u8]),
) -> Result<bool, Fail> {
    let first = play_after(rt, alloc, row.0, "trim", b"", NO_INPUT)?;
    let told = has_ended(&first, Status::Done, Some(row.1), row.2) && first.entries == 0;
    let again = play(rt, alloc, first.disk, "trim", b"", NO_INPUT)?;
    let rest = if row.2.starts_with(b"trimmed a") {
        b"trimmed a 0\n"
    } else {
        b"trimmed b 0\n"
    };
    Ok(told && has_ended(&again, Status::Done, Some(row.1), rest))
}

#[test]
fn the_side_and_its_bytes_are_told(rt: HostRuntime) -> Result<(), Fail> {
    for row in ROWS {
        assert!(rt; is_as_expected(&rt, rt.alloc(), row)?, "after {}", row.0);
    }
    Ok(())
}

// A store of three versions in generation 1, and the same in generation 2.
const FIRST: File = &[CHECKPOINT, LANDING, LANDING_OF_NOTHING, END];

const SECOND: File = &[COMPACTED, END];

// `trim` over both files, with these calls of the disk and of the sink failing.
fn trimmed_with<H: Threads + Wait + Sync>(
    rt: &H,
    alloc: Global,
    failing: &[u64],
    faults: Faults,
) -> Result<Played<MemDisk>, Fail> {
    let a = file_bytes(alloc, FIRST)?;
    let b = file_bytes(alloc, SECOND)?;
    let disk = disk_of(alloc, &a, &b, failing)?;
    play(rt, alloc, disk, "trim", b"", faults)
}

// The second call of the sink fails, which takes 7 bytes in a call.
const CUT_OFF: Faults = Faults {
    piece: 100,
    source: &[],
    sink: &[1],
};

// Calls of the disk that fail, of six for the opening and fifteen for the trimming; the faults of the sink; the status, what is
// written, and how many bytes side A has then.
const FAULTS: &[(&[u64], Faults, Status, &[u8], usize)] = &[
    (&[], NO_FAULTS, Status::Done, b"trimmed a 344\n", 1),
    (&[], CUT_OFF, Status::WriteFault, b"trimmed", 1),
    (&[5], NO_FAULTS, Status::DiskFault, b"", 345),
    (&[6], NO_FAULTS, Status::DiskFault, b"", 345),
    (&[17], NO_FAULTS, Status::DiskFault, b"", 345),
    (&[19], NO_FAULTS, Status::DiskFault, b"", 345),
    (&[20], NO_FAULTS, Status::DiskFault, b"", 1),
    (&[21], NO_FAULTS, Status::Done, b"trimmed a 344\n", 1),
];

// Whether the live side of both files has its bytes.
fn keeps_live(alloc: Global, disk: &MemDisk) -> Result<bool, Fail> {
    let live = file_bytes(alloc, SECOND)?;
    Ok(disk.bytes(Side::B) == live.as_slice())
}

// Whether a run with a row's faults ends so, leaves side A so long, and the live side as it was.
fn ends_so<H: Threads + Wait + Sync>(
    rt: &H,
    alloc: Global,
    row: &(&[u64], Faults, Status, &[u8], usize),
) -> Result<bool, Fail> {
    let played = trimmed_with(rt, alloc, row.0, row.1)?;
    let ended = played.status == row.2 && played.text.as_slice() == row.3;
    let cut = played.disk.bytes(Side::A).len() == row.4;
    Ok(ended && cut && keeps_live(alloc, &played.disk)?)
}

#[test]
fn faults_of_devices_are_told(rt: HostRuntime) -> Result<(), Fail> {
    for row in FAULTS {
        assert!(rt; ends_so(&rt, rt.alloc(), row)?, "of {:?}", row.0);
    }
    Ok(())
}
