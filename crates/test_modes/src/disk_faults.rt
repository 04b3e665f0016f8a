// What a restore and a generated script leave of the files: each call of the disk fails in turn, and a restore is stopped at
// every moment.
use crate::images::{Found, NEW, RESTORED, images_show, shows_either};
use jf_disk::{Disk, MemDisk};
use jf_play::blocks::{FIRST_BLOCK, Parts, RESTORE_PAIR, SECOND_BLOCK};
use jf_play::files::{CHECKPOINT, END, File, SECOND as GENERATION_2, bytes_of, file_bytes};
use jf_play::play::{NO_FAULTS, Played, disk_of, play_line};
use jf_run::status::Status;
use std::alloc::Global;
use std::sync::Wait;
use std::test::Fail;
use std::thread::Threads;

// Words and their input over two files, how many calls the opening makes and how many come after it, and what the files hold
// before, and after each change that is made.
struct Case {
    what: &'static str,
    line: &'static str,
    input: Parts,
    files: (File, File),
    calls: (u64, u64),
    states: &'static [Found],
}

// An opening makes six calls, and seven more if both files are empty. A restore writes a checkpoint to the side that isn't
// live: four calls. Before them that side's length is asked for; an empty one gets a closed gate, and is synced; of another
// the gate is read, closed and synced, and the side is cut and synced. A landing makes four calls.
const CASES: &[Case] = &[
    Case {
        what: "a restore into empty files",
        line: RESTORE_PAIR,
        input: &[FIRST_BLOCK, SECOND_BLOCK],
        files: (&[], &[]),
        calls: (13, 7),
        states: &[NEW, RESTORED],
    },
    Case {
        what: "a restore into a store of a second generation, on side B",
        line: RESTORE_PAIR,
        input: &[FIRST_BLOCK, SECOND_BLOCK],
        files: (&[CHECKPOINT, END], &[GENERATION_2, END]),
        calls: (6, 10),
        states: &[NEW, RESTORED],
    },
    Case {
        what: "two landings that are generated",
        line: "generate 3 2 2",
        input: &[],
        files: (&[CHECKPOINT, END], &[]),
        calls: (6, 8),
        states: &[
            NEW,
            (
                1,
                "403d6010e0202516597f0973ea03020947cf4525c12f2d734e4ceed1aa929d08",
            ),
            (
                2,
                "46b8b33ef1c688fd2bd82ec2b6fe757ec23d264ba946808c55fd7d23bc415360",
            ),
        ],
    },
];

// How far a run gets whose disk fails in a call.
#[derive(Clone, Copy, Debug, PartialEq, Eq)]
enum Reached {
    Opening,
    Change,
    End,
}

// How far a run got, by how it ended. After a fault of the disk nothing is written.
fn place_of(played: &Played<MemDisk>) -> Result<Reached, Fail> {
    match (played.status, played.start, played.text.is_empty()) {
        (Status::DiskFault, None, true) => Ok(Reached::Opening),
        (Status::DiskFault, Some(0), true) => Ok(Reached::Change),
        (Status::Done, Some(0), false) => Ok(Reached::End),
        _ => Err(Fail::new("the run ends otherwise")),
    }
}

// A disk with the files of a case, on which these calls fail.
fn disk_over(alloc: Global, case: &Case, failing: &[u64]) -> Result<Box<MemDisk>, Fail> {
    let a = file_bytes(alloc, case.files.0)?;
    let b = file_bytes(alloc, case.files.1)?;
    disk_of(alloc, &a, &b, failing)
}

// Runs the words of a case on such a disk.
fn run_case<H: Threads + Wait + Sync>(
    rt: &H,
    alloc: Global,
    case: &Case,
    failing: &[u64],
) -> Result<Played<MemDisk>, Fail> {
    let disk = disk_over(alloc, case, failing)?;
    let input = bytes_of(alloc, case.input)?;
    play_line(rt, alloc, disk, case.line, &input, NO_FAULTS)
}

// The state of a case after so many changes.
fn state_after(case: &Case, changes: usize) -> Result<Found, Fail> {
    let state = case.states.get(changes).ok_or("more changes")?;
    Ok(*state)
}

// The states in which the files may be: before and after the change that failed, or at the end of the run.
fn states_after(case: &Case, entries: u64, reached: Reached) -> Result<(Found, Found), Fail> {
    let made = entries as usize;
    let last = case.states.len().saturating_sub(1);
    let (low, high) = match reached {
        Reached::Opening => (made, made),
        Reached::Change => (made, made.saturating_add(1)),
        Reached::End => (last, last),
    };
    Ok((state_after(case, low)?, state_after(case, high)?))
}

// Whether the disk after a run, and each crash then, has one of these states.
fn has_either<H: Threads + Wait + Sync>(
    rt: &H,
    alloc: Global,
    disk: Box<MemDisk>,
    either: (Found, Found),
) -> Result<bool, Fail> {
    let crashed = images_show(rt, alloc, &disk, disk.moment(), either)?;
    Ok(crashed && shows_either(rt, alloc, disk, either)?)
}

// Runs a case on a disk that fails in this call. Fails unless the files have a state that they may have.
fn reach<H: Threads + Wait + Sync>(
    rt: &H,
    alloc: Global,
    case: &Case,
    failing: u64,
) -> Result<Reached, Fail> {
    let played = run_case(rt, alloc, case, &[failing])?;
    let reached = place_of(&played)?;
    let either = states_after(case, played.entries, reached)?;
    if reached == Reached::End || has_either(rt, alloc, played.disk, either)? {
        Ok(reached)
    } else {
        Err(Fail::new("the files hold something else"))
    }
}

// How many calls of the opening, and after it, fail in turn until one isn't made any more.
fn failed_calls<H: Threads + Wait + Sync>(
    rt: &H,
    alloc: Global,
    case: &Case,
) -> Result<(u64, u64), Fail> {
    let mut in_opening: u64 = 0;
    for failing in 0..100 {
        match reach(rt, alloc, case, failing)? {
            Reached::Opening => in_opening = in_opening.saturating_add(1),
            Reached::Change => {}
            Reached::End => return Ok((in_opening, failing.saturating_sub(in_opening))),
        }
    }
    Err(Fail::new("a run without end"))
}

#[test]
fn a_failed_call_leaves_the_versions_before_or_after_it(rt: HostRuntime) -> Result<(), Fail> {
    for case in CASES {
        assert_eq!(rt;
            failed_calls(&rt, rt.alloc(), case)?,
            case.calls,
            "{}",
            case.what
        );
    }
    Ok(())
}

// What a crash may leave of a restore that made `end` calls, after so many: the last two write the gate, and sync it.
fn found_at(moment: u64, end: u64) -> (Found, Found) {
    if moment == end {
        (RESTORED, RESTORED)
    } else if moment.saturating_add(1) == end {
        (NEW, RESTORED)
    } else {
        (NEW, NEW)
    }
}

// Whether a crash at each moment of a restore leaves the version or a new store, as it may.
fn stops_everywhere<H: Threads + Wait + Sync>(
    rt: &H,
    alloc: Global,
    case: &Case,
) -> Result<bool, Fail> {
    let disk = run_case(rt, alloc, case, &[])?.disk;
    let end = disk.moment();
    for moment in 0..=end {
        let either = found_at(moment, end);
        if !images_show(rt, alloc, &disk, moment, either)? {
            return Ok(false);
        }
    }
    Ok(true)
}

#[test]
fn a_stop_of_a_restore_leaves_the_version_or_none(rt: HostRuntime) -> Result<(), Fail> {
    for case in CASES.iter().take(2) {
        assert!(rt; stops_everywhere(&rt, rt.alloc(), case)?, "{}", case.what);
    }
    Ok(())
}
