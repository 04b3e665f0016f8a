// A call of the disk that fails ends the run, and leaves the versions before or after the change that was tried.
use crate::images::are_left;
use crate::script::{REPLIES, are_replies, is_between, run_script, state_after};
use jf_disk::{Disk, MemDisk};
use jf_play::images::CRASHES;
use jf_play::play::{NO_FAULTS, Played, has_ended};
use jf_run::status::Status;
use std::alloc::Global;
use std::sync::Wait;
use std::test::Fail;
use std::thread::Threads;

// The opening of empty files makes so many calls.
const OPENING: u64 = 13;

// Three landings and a floor make four calls each, and a new generation on an empty side seven, as the first one does.
pub(crate) const ALL: u64 = OPENING + 23;

// How far a run gets whose disk fails in a call.
#[derive(Clone, Copy)]
enum Reached {
    Opening,
    Change,
    End,
}

// How far a run must get whose disk fails in this call.
fn reached_by(failing: u64) -> Reached {
    if failing < OPENING {
        Reached::Opening
    } else if failing < ALL {
        Reached::Change
    } else {
        Reached::End
    }
}

// For each number of entries that a run makes before its disk fails: the lines that were answered. No call is made for the
// second entry, a fork.
const ANSWERED: &[usize] = &[1, 2, 4, 6, 7, 9];

// Whether a run ended in a change with the replies to the lines before.
fn is_as_expected(played: &Played<MemDisk>) -> bool {
    let ended = played.status == Status::DiskFault && played.start == Some(0);
    match ANSWERED.get(played.entries as usize) {
        Some(lines) => ended && played.entries != 1 && are_replies(&played.text, *lines),
        None => false,
    }
}

// Whether a run got so far, and wrote what it must, which is nothing in the opening.
fn has_reached(played: &Played<MemDisk>, reached: Reached) -> bool {
    match reached {
        Reached::Opening => {
            has_ended(played, Status::DiskFault, None, b"") && played.entries == 0
        }
        Reached::Change => is_as_expected(played),
        Reached::End => has_ended(played, Status::Done, Some(0), REPLIES),
    }
}

// The states of the files after a run with so many entries: that of its entries, and in a change the one after it.
fn states_after(entries: u64, reached: Reached) -> (usize, usize) {
    let low = state_after(entries);
    match reached {
        Reached::Change => (low, state_after(entries.saturating_add(1))),
        _ => (low, low),
    }
}

// Opens what a crash after a run leaves, and also what its disk holds, if the call that fails was made.
fn open_all<H: Threads + Wait + Sync>(
    rt: &H,
    alloc: Global,
    disk: Box<MemDisk>,
    reached: Reached,
    states: (usize, usize),
) -> Result<(), Fail> {
    are_left(rt, alloc, &disk, disk.moment(), CRASHES, states)?;
    match reached {
        Reached::End => Ok(()),
        _ => is_between(rt, alloc, disk, states),
    }
}

// Fails unless the script on a disk that fails in this call gets as far as it must, and leaves what it may.
fn is_sound<H: Threads + Wait + Sync>(rt: &H, alloc: Global, failing: u64) -> Result<(), Fail> {
    let played = run_script(rt, alloc, &[failing], NO_FAULTS)?;
    let reached = reached_by(failing);
    if has_reached(&played, reached) {
        let states = states_after(played.entries, reached);
        open_all(rt, alloc, played.disk, reached, states)
    } else {
        Err(Fail::new(failing))
    }
}

// In the last run no call fails.
#[test]
fn a_failed_call_leaves_the_versions_before_or_after_it(rt: HostRuntime) -> Result<(), Fail> {
    for failing in 0..ALL + 1 {
        is_sound(&rt, rt.alloc(), failing)?;
    }
    Ok(())
}
