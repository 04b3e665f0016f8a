// A disk that fails in each of its calls in turn while a script is led: what is written then, and what a crash leaves.
use crate::samples::{CHAIN, COMMITS, READS, REPLIES, first_blocks};
use jf_disk::{Disk, MemDisk};
use jf_play::images::{CRASHES, Crash, image_of};
use jf_play::play::{NO_FAULTS, Played, has_ended, new_disk, play};
use jf_play::roots::with_roots;
use jf_run::status::Status;
use std::alloc::Global;
use std::sync::Wait;
use std::test::Fail;
use std::thread::Threads;

// A script, how many calls its landings make on the disk, and the heads between which its landings go on, one after another.
struct Script {
    text: &'static str,
    calls: u64,
    heads: &'static [usize],
}

// An opening of a new store makes 13 calls on the disk. Three landings one by one make four calls each, and together four.
const SCRIPTS: &[Script] = &[
    Script {
        text: COMMITS,
        calls: 12,
        heads: &[0, 1, 2, 3],
    },
    Script {
        text: CHAIN,
        calls: 4,
        heads: &[0, 3],
    },
];

// Whether a disk opens at this version, and each version up to it has its root.
fn has_head<H: Threads + Wait + Sync>(
    rt: &H,
    alloc: Global,
    disk: Box<MemDisk>,
    head: usize,
) -> Result<bool, Fail> {
    let want = REPLIES.get(head).ok_or("no such version")?;
    let want = with_roots(alloc, want)?;
    let played = play(rt, alloc, disk, "run", READS, NO_FAULTS)?;
    Ok(has_ended(&played, Status::Done, Some(head as u64), &want))
}

// Whether a crash now leaves one of two heads.
fn leaves<H: Threads + Wait + Sync>(
    rt: &H,
    alloc: Global,
    disk: &MemDisk,
    crash: Crash,
    heads: (usize, usize),
) -> Result<bool, Fail> {
    let moment = disk.moment();
    let image = image_of(alloc, disk, moment, crash)?;
    if has_head(rt, alloc, image, heads.0)? {
        return Ok(true);
    }
    let again = image_of(alloc, disk, moment, crash)?;
    has_head(rt, alloc, again, heads.1)
}

// Whether each crash now leaves one of two heads.
fn all_leave<H: Threads + Wait + Sync>(
    rt: &H,
    alloc: Global,
    disk: &MemDisk,
    heads: (usize, usize),
) -> Result<bool, Fail> {
    for crash in CRASHES {
        if !leaves(rt, alloc, disk, *crash, heads)? {
            return Ok(false);
        }
    }
    Ok(true)
}

// The landings that a run has written blocks of, in the heads of its script.
fn step_of(script: &Script, played: &Played<MemDisk>) -> Option<usize> {
    for (step, head) in script.heads.iter().enumerate() {
        if played.text.as_slice() == first_blocks(*head) {
            return Some(step);
        }
    }
    None
}

// The heads that a crash may leave after so many landings, if the next one was tried or not.
fn heads_after(script: &Script, step: usize) -> Result<(usize, usize), Fail> {
    let low = script.heads.get(step).ok_or("more landings")?;
    let high = script.heads.get(step.saturating_add(1)).unwrap_or(low);
    Ok((*low, *high))
}

// Whether a run on a disk that fails in this call ends well, having failed in a landing; or `None` if it didn't fail.
fn stops_well<H: Threads + Wait + Sync>(
    rt: &H,
    alloc: Global,
    script: &Script,
    failing: u64,
) -> Result<Option<bool>, Fail> {
    let disk = new_disk(alloc, b"", &[failing])?;
    let played = play(rt, alloc, disk, "lead", script.text.as_bytes(), NO_FAULTS)?;
    let step = step_of(script, &played).ok_or("other blocks")?;
    if played.status == Status::Done {
        return Ok(None);
    }
    let heads = heads_after(script, step)?;
    let ended = played.status == Status::DiskFault && played.start == Some(0);
    Ok(Some(ended && all_leave(rt, alloc, &played.disk, heads)?))
}

// How many calls after the opening fail in turn until one isn't made any more, if each run ends well.
fn failed_calls<H: Threads + Wait + Sync>(
    rt: &H,
    alloc: Global,
    script: &Script,
) -> Result<u64, Fail> {
    for call in 0..100 {
        match stops_well(rt, alloc, script, call + 13)? {
            Some(true) => {}
            Some(false) => return Err(Fail::new("a run ends otherwise")),
            None => return Ok(call),
        }
    }
    Err(Fail::new("a run without end"))
}

#[test]
fn a_failed_call_leaves_the_versions_that_were_told_or_one_landing_more(
    rt: HostRuntime,
) -> Result<(), Fail> {
    for script in SCRIPTS {
        assert_eq!(rt;
            failed_calls(&rt, rt.alloc(), script)?,
            script.calls,
            "of {}",
            script.text
        );
    }
    Ok(())
}
