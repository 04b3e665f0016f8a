// Restores that are refused: for what, and that the files stay as they were. The hashes are from Python's `hashlib`.
use crate::records::LAST;
use jf_disk::{MemDisk, Side};
use jf_evidence::RangeFault;
use jf_hash::Hash;
use jf_play::blocks::{
    EMPTY_SIDE, FIRST_BLOCK, FIRST_ENTRY, Parts, RESTORE_PAIR, SECOND_BLOCK, SECOND_ENTRY,
};
use jf_play::files::{CHECKPOINT, END, File, bytes_of, file_bytes};
use jf_play::play::{Faults, NO_FAULTS, Played, disk_of, has_ended, new_disk, play_line};
use jf_run::RestoreFault;
use jf_run::status::Status;
use std::alloc::Global;
use std::sync::Wait;
use std::test::Fail;
use std::thread::Threads;

// The root of the map of `put 61 =31` and `put 62 =32`, of `put 61 =31` alone, and of no entry.
const OF_BOTH: Hash = [
    62, 146, 183, 122, 111, 74, 125, 204, 66, 111, 19, 75, 52, 21, 243, 175, 126, 179, 158, 92,
    138, 199, 89, 156, 148, 245, 163, 200, 63, 224, 116, 37,
];

const OF_ONE: Hash = [
    155, 183, 44, 57, 241, 61, 43, 81, 46, 163, 78, 174, 153, 162, 143, 109, 128, 122, 19, 74, 177,
    37, 232, 145, 114, 49, 12, 111, 110, 167, 47, 143,
];

const OF_NONE: Hash = [
    110, 52, 11, 156, 255, 179, 122, 152, 156, 165, 68, 230, 187, 120, 10, 44, 120, 144, 29, 63,
    179, 55, 56, 118, 133, 17, 163, 6, 23, 175, 160, 29,
];

// A line of one byte more than may be read.
const LONG: &[u8] = &[b'0'; 8501];

// Inputs of `RESTORE_PAIR` over a new store, and why they are refused.
const INPUTS: &[(Parts, RestoreFault)] = &[
    // A block that is refused by each of the checks.
    (
        &[b"chunk 0 0 0\n"],
        RestoreFault::Chunk(1, RangeFault::Empty),
    ),
    (
        &[b"chunk 2 0 0\n", SECOND_ENTRY, FIRST_ENTRY],
        RestoreFault::Chunk(1, RangeFault::Order),
    ),
    (
        &[b"chunk 2 257 0\n", FIRST_ENTRY, SECOND_ENTRY],
        RestoreFault::Chunk(1, RangeFault::Count),
    ),
    (
        &[b"chunk 2 1 1\n", FIRST_ENTRY, SECOND_ENTRY, EMPTY_SIDE],
        RestoreFault::Chunk(1, RangeFault::Lone),
    ),
    (
        &[SECOND_BLOCK],
        RestoreFault::Chunk(1, RangeFault::WrongRoot),
    ),
    // The same block again.
    (
        &[FIRST_BLOCK, FIRST_BLOCK],
        RestoreFault::Chunk(5, RangeFault::Order),
    ),
    // Another value.
    (
        &[
            b"chunk 2 2 1\n",
            FIRST_ENTRY,
            b"entry 6fe4ff1a836fcb881bbe03ff848bb731a5584708153d9bc6dc1d6430579a6a12 =33\n",
            EMPTY_SIDE,
        ],
        RestoreFault::Chunk(1, RangeFault::WrongRoot),
    ),
    // Lines that don't match, and lines that are missing.
    (&[b"chunk 1001 0 0\n"], RestoreFault::Line(1)),
    (&[b"chunk 1 0 0\n"], RestoreFault::Line(2)),
    (&[b"chunk 1 2 2\n", FIRST_ENTRY], RestoreFault::Line(3)),
    (&[FIRST_BLOCK, b"\n"], RestoreFault::Line(5)),
    (
        &[FIRST_BLOCK, b"chunk 1 2 1\n", EMPTY_SIDE],
        RestoreFault::Line(6),
    ),
    (&[LONG], RestoreFault::Line(1)),
    (
        &[
            b"1 ok root 3e92b77a6f4a7dcc426f134b3415f3af7eb39e5c8ac7599c94f5a3c83fe07425\n",
            FIRST_BLOCK,
            SECOND_BLOCK,
        ],
        RestoreFault::Line(1),
    ),
    // The earlier block decides.
    (
        &[SECOND_BLOCK, b"chunk\n"],
        RestoreFault::Chunk(1, RangeFault::WrongRoot),
    ),
    // Entries of another root.
    (&[FIRST_BLOCK], RestoreFault::NotWhole(OF_BOTH, OF_ONE)),
    (&[], RestoreFault::NotWhole(OF_BOTH, OF_NONE)),
];

// The bytes of both sides of a disk.
type Sides = (Vec<u8>, Vec<u8>);

fn sides_of(alloc: Global, disk: &MemDisk) -> Result<Sides, Fail> {
    let a = disk.bytes(Side::A).to_vec(alloc)?;
    let b = disk.bytes(Side::B).to_vec(alloc)?;
    Ok((a, b))
}

// Whether both sides still have these bytes.
fn has_sides(disk: &MemDisk, sides: &Sides) -> bool {
    disk.bytes(Side::A) == sides.0.as_slice() && disk.bytes(Side::B) == sides.1.as_slice()
}

// Whether `RESTORE_PAIR` over this disk, which opens the store at this version, is refused so, writes nothing, and leaves both sides as
// they are.
fn is_refused<H: Threads + Wait + Sync>(
    rt: &H,
    alloc: Global,
    disk: Box<MemDisk>,
    input: Parts,
    faults: Faults,
    wanted: (u64, RestoreFault),
) -> Result<bool, Fail> {
    let sides = sides_of(alloc, &disk)?;
    let input = bytes_of(alloc, input)?;
    let played = play_line(rt, alloc, disk, RESTORE_PAIR, &input, faults)?;
    Ok(has_refused(&played, wanted.0, wanted.1) && has_sides(&played.disk, &sides))
}

// Whether a run that opened the store at this version was refused so, and wrote nothing.
fn has_refused(played: &Played<MemDisk>, head: u64, why: RestoreFault) -> bool {
    has_ended(played, Status::Refused(why), Some(head), b"") && played.entries == 0
}

// A disk with these records on side A.
fn disk_over(alloc: Global, a: File) -> Result<Box<MemDisk>, Fail> {
    let a = file_bytes(alloc, a)?;
    disk_of(alloc, &a, b"", &[])
}

fn input_is_refused<H: Threads + Wait + Sync>(
    rt: &H,
    alloc: Global,
    row: &(Parts, RestoreFault),
) -> Result<bool, Fail> {
    let disk = disk_over(alloc, &[CHECKPOINT, END])?;
    is_refused(rt, alloc, disk, row.0, NO_FAULTS, (0, row.1))
}

#[test]
fn an_input_is_refused_by_its_first_fault(rt: HostRuntime) -> Result<(), Fail> {
    for (number, row) in INPUTS.iter().enumerate() {
        assert!(rt; input_is_refused(&rt, rt.alloc(), row)?, "of {number}");
    }
    Ok(())
}

// Inputs of `RESTORE_PAIR` over a new store in the last generation, and why they are refused: there is no next generation, but that
// is looked for last.
const IN_LAST: &[(Parts, RestoreFault)] = &[
    (&[FIRST_BLOCK, SECOND_BLOCK], RestoreFault::Last),
    (&[FIRST_BLOCK], RestoreFault::NotWhole(OF_BOTH, OF_ONE)),
    (
        &[SECOND_BLOCK],
        RestoreFault::Chunk(1, RangeFault::WrongRoot),
    ),
    (&[b"chunk\n"], RestoreFault::Line(1)),
];

fn last_is_refused<H: Threads + Wait + Sync>(
    rt: &H,
    alloc: Global,
    row: &(Parts, RestoreFault),
) -> Result<bool, Fail> {
    let disk = disk_over(alloc, &[LAST, END])?;
    is_refused(rt, alloc, disk, row.0, NO_FAULTS, (0, row.1))
}

#[test]
fn the_last_generation_takes_no_version(rt: HostRuntime) -> Result<(), Fail> {
    for (number, row) in IN_LAST.iter().enumerate() {
        assert!(rt; last_is_refused(&rt, rt.alloc(), row)?, "of {number}");
    }
    Ok(())
}

// The first call of the source and of the sink fails: a store in use is refused before either is asked.
const UNTOUCHED: Faults = Faults {
    piece: 100,
    source: &[0],
    sink: &[0],
};

// Words and their input over a new store, and the version that results.
const IN_USE: &[(&str, Parts, u64)] = &[
    ("run", &[b"commit\n"], 1),
    ("run", &[b"put 61 =31\ncommit\n"], 1),
    (
        "run",
        &[b"put 61 =31\ncommit\ncommit\nprune 2\ncompact\n"],
        2,
    ),
    (RESTORE_PAIR, &[FIRST_BLOCK, SECOND_BLOCK], 1),
    // An empty map as a later version, and entries as version 0.
    (
        "restore 5 6e340b9cffb37a989ca544e6bb780a2c78901d3fb33738768511a30617afa01d",
        &[],
        5,
    ),
    (
        "restore 0 3e92b77a6f4a7dcc426f134b3415f3af7eb39e5c8ac7599c94f5a3c83fe07425",
        &[FIRST_BLOCK, SECOND_BLOCK],
        0,
    ),
];

// The disk that words and their input over a new store leave.
fn left_by<H: Threads + Wait + Sync>(
    rt: &H,
    alloc: Global,
    line: &str,
    input: Parts,
) -> Result<Box<MemDisk>, Fail> {
    let input = bytes_of(alloc, input)?;
    let disk = new_disk(alloc, b"", &[])?;
    Ok(play_line(rt, alloc, disk, line, &input, NO_FAULTS)?.disk)
}

fn use_is_refused<H: Threads + Wait + Sync>(
    rt: &H,
    alloc: Global,
    row: &(&str, Parts, u64),
) -> Result<bool, Fail> {
    let disk = left_by(rt, alloc, row.0, row.1)?;
    let wanted = (row.2, RestoreFault::NotEmpty(row.2));
    is_refused(
        rt,
        alloc,
        disk,
        &[FIRST_BLOCK, SECOND_BLOCK],
        UNTOUCHED,
        wanted,
    )
}

#[test]
fn a_store_in_use_takes_no_version(rt: HostRuntime) -> Result<(), Fail> {
    for row in IN_USE {
        assert!(rt; use_is_refused(&rt, rt.alloc(), row)?, "after {}", row.0);
    }
    Ok(())
}

// Words and their input that leave a store as new as it was.
const STILL_NEW: &[(&str, Parts)] = &[
    ("run", &[]),
    (
        "run",
        &[b"put 61 =31\nfork head\nroot f0\nprune 0\ncompact\n"],
    ),
    (
        "restore 0 6e340b9cffb37a989ca544e6bb780a2c78901d3fb33738768511a30617afa01d",
        &[],
    ),
    (RESTORE_PAIR, &[FIRST_BLOCK]),
];

// Whether the pair is restored after these words.
fn is_still_new<H: Threads + Wait + Sync>(
    rt: &H,
    alloc: Global,
    row: &(&str, Parts),
) -> Result<bool, Fail> {
    let disk = left_by(rt, alloc, row.0, row.1)?;
    let input = bytes_of(alloc, &[FIRST_BLOCK, SECOND_BLOCK])?;
    let played = play_line(rt, alloc, disk, RESTORE_PAIR, &input, NO_FAULTS)?;
    Ok(played.status == Status::Done && played.start == Some(0))
}

#[test]
fn a_store_without_a_landing_takes_a_version(rt: HostRuntime) -> Result<(), Fail> {
    for row in STILL_NEW {
        assert!(rt; is_still_new(&rt, rt.alloc(), row)?, "after {}", row.0);
    }
    Ok(())
}
