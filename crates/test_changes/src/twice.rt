// An opening that fails after a stop leaves the same versions.
use crate::images::{are_left, state_left};
use crate::one_fault::ALL;
use crate::script::run_script;
use jf_disk::{Disk, MemDisk, Side};
use jf_play::images::{Crash, image_of};
use jf_play::play::{NO_FAULTS, disk_of, has_ended, play};
use jf_run::status::Status;
use std::alloc::Global;
use std::sync::Wait;
use std::test::Fail;
use std::thread::Threads;

// The crash before the second opening.
const CRASH: Crash = (200, 0x5a);

// Two crashes after it.
const TWO: &[Crash] = &[(0, 0x01), (1 << 62, 0x00)];

// Opens what a disk holds, on a disk that fails in this call. Fails unless what a crash leaves then has this state. Returns whether
// the call was made: if so, the opening ends with a fault of the disk, and writes nothing.
fn open_failing<H: Threads + Wait + Sync>(
    rt: &H,
    alloc: Global,
    image: &MemDisk,
    state: usize,
    failing: u64,
) -> Result<bool, Fail> {
    let (a, b) = (image.bytes(Side::A), image.bytes(Side::B));
    let disk = disk_of(alloc, a, b, &[failing])?;
    let played = play(rt, alloc, disk, "run", b"", NO_FAULTS)?;
    let moment = played.disk.moment();
    are_left(rt, alloc, &played.disk, moment, TWO, (state, state))?;
    Ok(has_ended(&played, Status::DiskFault, None, b"") && played.entries == 0)
}

// Lets each call of an opening fail in turn. Each opening makes at least the six calls that sync, measure and read both sides.
fn open_twice<H: Threads + Wait + Sync>(
    rt: &H,
    alloc: Global,
    image: &MemDisk,
    state: usize,
) -> Result<(), Fail> {
    for failing in 0..100 {
        if !open_failing(rt, alloc, image, state, failing)? {
            return if failing < 6 {
                Err(Fail::new(failing))
            } else {
                Ok(())
            };
        }
    }
    Err(Fail::new("an opening without end"))
}

// Opens twice what a crash after so many calls leaves of a run.
fn stop_twice<H: Threads + Wait + Sync>(rt: &H, alloc: Global, calls: u64) -> Result<(), Fail> {
    let played = run_script(rt, alloc, &[], NO_FAULTS)?;
    let state = state_left(rt, alloc, &played.disk, calls, CRASH)?;
    let image = image_of(alloc, &played.disk, calls, CRASH)?;
    open_twice(rt, alloc, &image, state)
}

#[test]
fn an_opening_that_fails_after_a_stop_leaves_the_same_versions(
    rt: HostRuntime,
) -> Result<(), Fail> {
    for calls in 0..ALL + 1 {
        stop_twice(&rt, rt.alloc(), calls)?;
    }
    Ok(())
}
