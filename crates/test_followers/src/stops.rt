// A disk that fails in each of its calls in turn while blocks are followed, and every image at every moment: each has the
// first versions, those that were acknowledged by then among them.
use crate::samples::THREE;
use jf_disk::{Disk, MemDisk};
use jf_model::Entry;
use jf_play::images::{CRASHES, image_of};
use jf_play::play::{
    NO_FAULTS, has_ended, new_disk, new_sink, new_source, one_word, play, run_over,
};
use jf_play::roots::with_roots;
use jf_run::status::{Ended, Status};
use std::alloc::Global;
use std::sync::Wait;
use std::test::Fail;
use std::thread::Threads;

// Asks for the root of each version, and of the head.
const READS: &[u8] = b"root v0\nroot v1\nroot v2\nroot v3\nroot head\n";

// The replies by the number of the head. Letters represent roots, as in `with_roots`.
const REPLIES: &[&str] = &[
    "0 ok root E\n0 no future 0\n0 no future 0\n0 no future 0\n0 ok root E\n",
    "0 ok root E\n0 ok root R\n0 no future 1\n0 no future 1\n0 ok root R\n",
    "0 ok root E\n0 ok root R\n0 ok root S\n0 no future 2\n0 ok root S\n",
    "0 ok root E\n0 ok root R\n0 ok root S\n0 ok root T\n0 ok root T\n",
];

// The head of a disk that opens, if each version up to it has its root.
fn head_of<H: Threads + Wait + Sync>(
    rt: &H,
    alloc: Global,
    disk: Box<MemDisk>,
) -> Result<u64, Fail> {
    let played = play(rt, alloc, disk, "run", READS, NO_FAULTS)?;
    let head = played.start.ok_or("the disk is not opened")?;
    let want = REPLIES.get(head as usize).ok_or("more versions")?;
    let want = with_roots(alloc, want)?;
    if has_ended(&played, Status::Done, Some(head), &want) {
        Ok(head)
    } else {
        Err(Fail::new("a version has another root"))
    }
}

// Opens each image that a crash at a moment leaves. Its head has to be one of these.
fn open_images<H: Threads + Wait + Sync>(
    rt: &H,
    alloc: Global,
    disk: &MemDisk,
    moment: u64,
    heads: (u64, u64),
) -> Result<bool, Fail> {
    for crash in CRASHES {
        let head = head_of(rt, alloc, image_of(alloc, disk, moment, *crash)?)?;
        if head < heads.0 || heads.1 < head {
            return Ok(false);
        }
    }
    Ok(true)
}

// How many landings were acknowledged by a moment.
fn acknowledged_count(entries: &[Entry], moment: u64) -> u64 {
    let mut count: u64 = 0;
    for entry in entries {
        if let Entry::Landed { moment: at, .. } = entry {
            if *at <= moment {
                count = count.saturating_add(1);
            }
        }
    }
    count
}

// Whether every image at every moment of a run has the landings acknowledged by then, and at most the next one.
fn is_safe<H: Threads + Wait + Sync>(
    rt: &H,
    alloc: Global,
    ended: &Ended<MemDisk>,
) -> Result<bool, Fail> {
    for moment in 0..=ended.disk.moment() {
        let low = acknowledged_count(ended.entries.as_slice(), moment);
        let heads = (low, low.saturating_add(1));
        if !open_images(rt, alloc, &ended.disk, moment, heads)? {
            return Ok(false);
        }
    }
    Ok(true)
}

// Follows the blocks on a disk that fails in this call.
fn followed_end<H: Threads + Wait + Sync>(
    rt: &H,
    alloc: Global,
    failing: u64,
) -> Result<Box<Ended<MemDisk>>, Fail> {
    let words = one_word(alloc, "follow")?;
    let mut source = new_source(alloc, THREE, NO_FAULTS)?;
    let mut sink = new_sink(alloc, NO_FAULTS)?;
    let disk = new_disk(alloc, b"", &[failing])?;
    run_over(rt, alloc, disk, &words, &mut source, &mut sink)
}

// How far a run gets whose disk fails in a call.
#[derive(Clone, Copy, Debug, PartialEq, Eq)]
enum Reached {
    Opening,
    Landing,
    End,
}

// How far a run got, by how it ended.
fn place_of(ended: &Ended<MemDisk>) -> Result<Reached, Fail> {
    match (ended.status, ended.start) {
        (Status::DiskFault, None) => Ok(Reached::Opening),
        (Status::DiskFault, Some(0)) => Ok(Reached::Landing),
        (Status::Done, Some(0)) => Ok(Reached::End),
        _ => Err(Fail::new("the run ends otherwise")),
    }
}

// How far a run gets on a disk that fails in this call. Fails unless every image is as it has to be.
fn reach<H: Threads + Wait + Sync>(rt: &H, alloc: Global, failing: u64) -> Result<Reached, Fail> {
    let ended = followed_end(rt, alloc, failing)?;
    if is_safe(rt, alloc, &ended)? {
        place_of(&ended)
    } else {
        Err(Fail::new("an image has other versions"))
    }
}

// How many calls of the opening, and of the landings, fail in turn until one isn't made any more.
fn failed_calls<H: Threads + Wait + Sync>(rt: &H, alloc: Global) -> Result<(u64, u64), Fail> {
    let mut in_opening: u64 = 0;
    for failing in 0..100 {
        match reach(rt, alloc, failing)? {
            Reached::Opening => in_opening = in_opening.saturating_add(1),
            Reached::Landing => {}
            Reached::End => return Ok((in_opening, failing.saturating_sub(in_opening))),
        }
    }
    Err(Fail::new("a run without end"))
}

#[test]
fn a_failed_call_leaves_the_landings_acknowledged_or_one_more(rt: HostRuntime) -> Result<(), Fail> {
    // Each of the three landings writes, syncs, writes and syncs.
    assert_eq!(rt; failed_calls(&rt, rt.alloc())?, (13, 12));
    Ok(())
}
