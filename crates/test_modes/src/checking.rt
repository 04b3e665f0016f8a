// What the mode `check` tells of two files, how it ends, and what it leaves of them if a call of the disk or of the sink fails.
ghost use Rattle.std.specs.Prelude.{◌<◌};

use jf_disk::{Disk, MemDisk, Side};
use jf_play::files::{CHECKPOINT, END, File, LANDING, SECOND, file_bytes};
use jf_play::play::{Faults, NO_FAULTS, NO_INPUT, Played, disk_of, has_ended, play_line};
use jf_run::status::Status;
use std::alloc::Global;
use std::sync::Wait;
use std::test::Fail;
use std::thread::Threads;

// A sink whose third call fails. It takes 7 bytes in a call.
const CUT: Faults = Faults {
    piece: 100,
    source: &[],
    sink: &[2],
};

// Two files, the status of a check of them, and the lines that it writes.
type Row = (File, File, Status, &'static str);

const ROWS: &[Row] = &[
    (
        &[],
        &[],
        Status::Done,
        "a.jf size 0 records 0 behind 0\n\
         b.jf size 0 records 0 behind 0\n\
         live none kept 1 checkpoint 101\n",
    ),
    (
        &[CHECKPOINT, LANDING, END],
        &[],
        Status::Done,
        "a.jf size 223 generation 1 base 0 floor 0 head 1 records 222 behind 0\n\
         b.jf size 0 records 0 behind 0\n\
         live a kept 2 checkpoint 188\n",
    ),
    (
        &[CHECKPOINT, END],
        &[SECOND],
        Status::Damaged {
            side: Side::B,
            offset: 0,
        },
        "a.jf size 101 generation 1 base 0 floor 0 head 0 records 100 behind 0\n\
         b.jf size 100 damaged 0\n\
         damaged b 0\n",
    ),
];

// The result of a check of two files, whose calls on the disk with these numbers fail.
fn play_check<H: Threads + Wait + Sync>(
    rt: &H,
    alloc: Global,
    row: &Row,
    failing: &[u64],
    faults: Faults,
) -> Result<Played<MemDisk>, Fail> {
    let (a, b) = (file_bytes(alloc, row.0)?, file_bytes(alloc, row.1)?);
    let disk = disk_of(alloc, &a, &b, failing)?;
    play_line(rt, alloc, disk, "check", b"", faults)
}

// Whether a disk holds these files still, after so many calls.
fn is_left(alloc: Global, disk: &MemDisk, row: &Row, calls: u64) -> Result<bool, Fail> {
    let (a, b) = (file_bytes(alloc, row.0)?, file_bytes(alloc, row.1)?);
    let same = disk.bytes(Side::A) == a.as_slice() && disk.bytes(Side::B) == b.as_slice();
    Ok(same && disk.moment() == calls)
}

// Whether files are reported so, by four calls on the disk.
fn is_as_expected<H: Threads + Wait + Sync>(
    rt: &H,
    alloc: Global,
    row: &Row,
) -> Result<bool, Fail> {
    let played = play_check(rt, alloc, row, &[], NO_INPUT)?;
    let ended = has_ended(&played, row.2, None, row.3.as_bytes());
    Ok(ended && played.entries == 0 && is_left(alloc, &played.disk, row, 4)?)
}

#[test]
fn files_are_told_of(rt: HostRuntime) -> Result<(), Fail> {
    for row in ROWS {
        assert!(rt; is_as_expected(&rt, rt.alloc(), row)?, "of {}", row.3);
    }
    Ok(())
}

// Whether nothing is written after a call on the disk failed, and no further call is made.
fn is_silent<H: Threads + Wait + Sync>(
    rt: &H,
    alloc: Global,
    row: &Row,
    call: u64,
) -> Result<bool, Fail>
    requires { call < 4 }
{
    let played = play_check(rt, alloc, row, &[call], NO_FAULTS)?;
    let ended = has_ended(&played, Status::DiskFault, None, b"");
    Ok(ended && is_left(alloc, &played.disk, row, call + 1)?)
}

#[test]
fn a_fault_of_the_disk_ends_it(rt: HostRuntime) -> Result<(), Fail> {
    for call in 0..4 {
        assert!(rt; is_silent(&rt, rt.alloc(), &ROWS[1], call)?, "at {call}");
    }
    Ok(())
}

#[test]
fn a_fault_of_the_sink_leaves_a_front(rt: HostRuntime) -> Result<(), Fail> {
    let played = play_check(&rt, rt.alloc(), &ROWS[2], &[], CUT)?;
    assert!(rt; has_ended(&played, Status::WriteFault, None, b"a.jf size 101 "));
    Ok(())
}
