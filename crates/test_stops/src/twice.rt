// What is left when an opening after a stop fails too.
use crate::starts::{STARTS, Start};
use crate::stops::{SCRIPT, ended_run, is_opened, opened_head};
use jf_disk::{Disk, MemDisk, Side};
use jf_play::images::{Crash, image_of};
use jf_play::play::{NO_FAULTS, Played, disk_of, has_ended, play};
use jf_run::status::Status;
use std::alloc::Global;
use std::sync::Wait;
use std::test::Fail;
use std::thread::Threads;

// Whether an opening ended with a fault of the disk, and wrote nothing.
fn has_failed(played: &Played<MemDisk>) -> bool {
    has_ended(played, Status::DiskFault, None, b"") && played.entries == 0
}

// Two crashes.
const CRASHES: &[Crash] = &[(0, 0x01), (1 << 62, 0x00)];

// Opens what these crashes leave of a disk after all of its calls. Each has this head.
fn open_crashes<H: Threads + Wait + Sync>(
    rt: &H,
    alloc: Global,
    disk: &MemDisk,
    head: u64,
) -> Result<(), Fail> {
    for crash in CRASHES {
        let image = image_of(alloc, disk, disk.moment(), *crash)?;
        is_opened(rt, alloc, image, (head, head))?;
    }
    Ok(())
}

// Opens what a disk holds, on disks that fail in the first call, in the second and so on, as long as the opening makes that
// call. What a crash leaves then has this head.
fn open_twice<H: Threads + Wait + Sync>(
    rt: &H,
    alloc: Global,
    image: &MemDisk,
    head: u64,
) -> Result<u64, Fail> {
    for failing in 0..100 {
        let (a, b) = (image.bytes(Side::A), image.bytes(Side::B));
        let disk = disk_of(alloc, a, b, &[failing])?;
        let played = play(rt, alloc, disk, "run", b"", NO_FAULTS)?;
        open_crashes(rt, alloc, &played.disk, head)?;
        if !has_failed(&played) {
            return Ok(failing);
        }
    }
    Err(Fail::new("an opening without end"))
}

// The image that a crash leaves, opened twice; returns how many calls its opening makes.
fn stop_twice<H: Threads + Wait + Sync>(
    rt: &H,
    alloc: Global,
    disk: &MemDisk,
    moment: u64,
) -> Result<u64, Fail> {
    let image = image_of(alloc, disk, moment, (200, 0x5a))?;
    let again = image_of(alloc, disk, moment, (200, 0x5a))?;
    let head = opened_head(rt, alloc, image)?;
    open_twice(rt, alloc, &again, head)
}

// Runs the script from a start, and opens what a crash at each moment leaves twice. Each opening makes at least the six calls
// that sync, measure and read both sides.
fn stops_twice<H: Threads + Wait + Sync>(
    rt: &H,
    alloc: Global,
    start: &Start,
) -> Result<bool, Fail> {
    let ended = ended_run(rt, alloc, start, SCRIPT)?;
    for moment in 0..=ended.disk.moment() {
        let calls = stop_twice(rt, alloc, &ended.disk, moment)?;
        if calls < 6 {
            return Ok(false);
        }
    }
    Ok(true)
}

#[test]
fn an_opening_that_fails_after_a_stop_leaves_the_same_versions(
    rt: HostRuntime,
) -> Result<(), Fail> {
    let alloc = rt.alloc();
    for start in STARTS {
        assert!(rt; stops_twice(&rt, alloc, start)?, "{}", start.what);
    }
    Ok(())
}
