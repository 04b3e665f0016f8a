// Sources, sinks and disks that fail while three blocks are followed: how it ends, what was written, and what the files hold.
use crate::samples::THREE;
use jf_disk::MemDisk;
use jf_play::play::{Faults, Played, answers, new_disk, play};
use jf_play::roots::with_roots;
use jf_run::status::Status;
use std::alloc::Global;
use std::sync::Wait;
use std::test::Fail;
use std::thread::Threads;

// How many bytes the source gives in a call; the calls of source, sink and disk that fail; how it ends, how many bytes are
// written, and how many landings are made.
struct Row {
    piece: usize,
    source: &'static [u64],
    sink: &'static [u64],
    disk: &'static [u64],
    status: Status,
    output: usize,
    landings: u64,
}

// A block has 150 bytes, and the line about the newest version 76, which the sink takes by 7. An opening makes 13 calls on
// the disk, and a landing 4.
const ROWS: &[Row] = &[
    // Each block whose last byte was given has landed.
    Row {
        piece: 150,
        source: &[0],
        sink: &[],
        disk: &[],
        status: Status::ReadFault,
        output: 0,
        landings: 0,
    },
    Row {
        piece: 149,
        source: &[1],
        sink: &[],
        disk: &[],
        status: Status::ReadFault,
        output: 0,
        landings: 0,
    },
    Row {
        piece: 150,
        source: &[1],
        sink: &[],
        disk: &[],
        status: Status::ReadFault,
        output: 0,
        landings: 1,
    },
    Row {
        piece: 299,
        source: &[1],
        sink: &[],
        disk: &[],
        status: Status::ReadFault,
        output: 0,
        landings: 1,
    },
    Row {
        piece: 150,
        source: &[2],
        sink: &[],
        disk: &[],
        status: Status::ReadFault,
        output: 0,
        landings: 2,
    },
    Row {
        piece: 1_000,
        source: &[1],
        sink: &[],
        disk: &[],
        status: Status::ReadFault,
        output: 0,
        landings: 3,
    },
    // It landed before the source was asked for more: the disk fails first.
    Row {
        piece: 150,
        source: &[1],
        sink: &[0],
        disk: &[13],
        status: Status::DiskFault,
        output: 0,
        landings: 0,
    },
    Row {
        piece: 150,
        source: &[2],
        sink: &[0],
        disk: &[20],
        status: Status::DiskFault,
        output: 0,
        landings: 1,
    },
    // It didn't before the last byte was given: the source fails first.
    Row {
        piece: 149,
        source: &[1],
        sink: &[0],
        disk: &[13],
        status: Status::ReadFault,
        output: 0,
        landings: 0,
    },
    // A sink that fails changes nothing in the files.
    Row {
        piece: 100,
        source: &[],
        sink: &[0],
        disk: &[],
        status: Status::WriteFault,
        output: 0,
        landings: 3,
    },
    Row {
        piece: 100,
        source: &[],
        sink: &[1],
        disk: &[],
        status: Status::WriteFault,
        output: 7,
        landings: 3,
    },
    Row {
        piece: 100,
        source: &[],
        sink: &[10],
        disk: &[],
        status: Status::WriteFault,
        output: 70,
        landings: 3,
    },
    // No call comes after these.
    Row {
        piece: 100,
        source: &[6],
        sink: &[11],
        disk: &[25],
        status: Status::Done,
        output: 76,
        landings: 3,
    },
];

// The result of the blocks on devices that fail so.
fn followed_run<H: Threads + Wait + Sync>(
    rt: &H,
    alloc: Global,
    row: &Row,
) -> Result<Played<MemDisk>, Fail> {
    let disk = new_disk(alloc, b"", row.disk)?;
    let faults = Faults {
        piece: row.piece,
        source: row.source,
        sink: row.sink,
    };
    play(rt, alloc, disk, "follow", THREE, faults)
}

// Whether a run ended as its row says.
fn has_ended_so(alloc: Global, played: &Played<MemDisk>, row: &Row) -> Result<bool, Fail> {
    let output = with_roots(alloc, "followed 3 T\n")?;
    let is_front = output.starts_with(&played.text) && played.text.len() == row.output;
    let ended = played.status == row.status && played.start == Some(0);
    Ok(ended && is_front && played.entries == row.landings)
}

// Fails unless a disk on which no call fails opens with a row's landings.
fn is_opened<H: Threads + Wait + Sync>(
    rt: &H,
    alloc: Global,
    played: Played<MemDisk>,
    row: &Row,
) -> Result<(), Fail> {
    if !row.disk.is_empty() {
        return Ok(());
    }
    let _ = answers(rt, alloc, played.disk, b"", row.landings, b"")?;
    Ok(())
}

fn ends_so<H: Threads + Wait + Sync>(rt: &H, alloc: Global, row: &Row) -> Result<bool, Fail> {
    let played = followed_run(rt, alloc, row)?;
    let ended = has_ended_so(alloc, &played, row)?;
    is_opened(rt, alloc, played, row)?;
    Ok(ended)
}

#[test]
fn a_device_that_fails_is_told_and_what_was_landed_stays(rt: HostRuntime) -> Result<(), Fail> {
    for (number, row) in ROWS.iter().enumerate() {
        assert!(rt; ends_so(&rt, rt.alloc(), row)?, "of {number}");
    }
    Ok(())
}
