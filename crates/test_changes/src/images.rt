// The images that a crash leaves, opened.
use crate::script::{is_between, opened_state};
use jf_disk::MemDisk;
use jf_play::images::{Crash, image_of};
use std::alloc::Global;
use std::sync::Wait;
use std::test::Fail;
use std::thread::Threads;

// The state of what a crash after so many calls leaves.
pub(crate) fn state_left<H: Threads + Wait + Sync>(
    rt: &H,
    alloc: Global,
    disk: &MemDisk,
    moment: u64,
    crash: Crash,
) -> Result<usize, Fail> {
    let image = image_of(alloc, disk, moment, crash)?;
    opened_state(rt, alloc, image)
}

// Fails unless what a crash after so many calls leaves has one of these states.
fn is_left<H: Threads + Wait + Sync>(
    rt: &H,
    alloc: Global,
    disk: &MemDisk,
    moment: u64,
    crash: Crash,
    states: (usize, usize),
) -> Result<(), Fail> {
    let image = image_of(alloc, disk, moment, crash)?;
    is_between(rt, alloc, image, states)
}

// Fails unless what each of these crashes after so many calls leaves has one of these states.
pub(crate) fn are_left<H: Threads + Wait + Sync>(
    rt: &H,
    alloc: Global,
    disk: &MemDisk,
    moment: u64,
    crashes: &[Crash],
    states: (usize, usize),
) -> Result<(), Fail> {
    for crash in crashes {
        is_left(rt, alloc, disk, moment, *crash, states)?;
    }
    Ok(())
}
