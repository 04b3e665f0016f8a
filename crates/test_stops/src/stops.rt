// What a stop at any moment, or after any call of the disk that fails, leaves in the files.
use crate::starts::{STARTS, Start, disk_over};
use jf_disk::{Disk, MemDisk};
use jf_model::Entry;
use jf_play::images::{CRASHES, image_of};
use jf_play::play::{NO_FAULTS, Played, has_ended, new_sink, new_source, one_word, play, run_over};
use jf_run::status::{Ended, Status};
use std::alloc::Global;
use std::sync::Wait;
use std::test::Fail;
use std::thread::Threads;

// Five landings.
pub(crate) const SCRIPT: &[u8] =
    b"put 61 =31\ncommit\nput 62 =32\ncommit\ncommit\nput 61 =33\ncommit\nput 63 =\ncommit\n";

// The roots of version 0 and of the five after it, by Python's `hashlib`.
const ROOTS: &[&str] = &[
    "6e340b9cffb37a989ca544e6bb780a2c78901d3fb33738768511a30617afa01d",
    "9bb72c39f13d2b512ea34eae99a28f6d807a134ab125e89172310c6f6ea72f8f",
    "3e92b77a6f4a7dcc426f134b3415f3af7eb39e5c8ac7599c94f5a3c83fe07425",
    "3e92b77a6f4a7dcc426f134b3415f3af7eb39e5c8ac7599c94f5a3c83fe07425",
    "3fb29a7e403314bdff68bcbcfadcea0ea3720aaff120cc5dc5a1b94a8f07c280",
    "711515a8ec2f04d2cc621c264dcfed0376f8969ae06c1e7d41d5815b86980647",
];

// The replies to the `put` before each landing, and to its `commit`.
const REPLIES: &[(&str, &str)] = &[
    (
        "0 ok pending 1\n",
        "1 ok commit 1 9bb72c39f13d2b512ea34eae99a28f6d807a134ab125e89172310c6f6ea72f8f\n",
    ),
    (
        "1 ok pending 1\n",
        "2 ok commit 2 3e92b77a6f4a7dcc426f134b3415f3af7eb39e5c8ac7599c94f5a3c83fe07425\n",
    ),
    (
        "",
        "3 ok commit 3 3e92b77a6f4a7dcc426f134b3415f3af7eb39e5c8ac7599c94f5a3c83fe07425\n",
    ),
    (
        "3 ok pending 1\n",
        "4 ok commit 4 3fb29a7e403314bdff68bcbcfadcea0ea3720aaff120cc5dc5a1b94a8f07c280\n",
    ),
    (
        "4 ok pending 1\n",
        "5 ok commit 5 711515a8ec2f04d2cc621c264dcfed0376f8969ae06c1e7d41d5815b86980647\n",
    ),
];

// What a run of the script writes that lands `landings` times: if these aren't all, up to the next `commit`.
fn replies(alloc: Global, landings: u64) -> Result<Vec<u8>, Fail> {
    let mut text = Vec::new(alloc);
    let mut landed = 0;
    for (pending, commit) in REPLIES {
        text.extend_from_slice(pending.as_bytes())?;
        if landed == landings {
            break;
        }
        text.extend_from_slice(commit.as_bytes())?;
        landed = landed.saturating_add(1);
    }
    Ok(text)
}

// Reads of every version, and of the head.
const READS: &[u8] = b"root v0\nroot v1\nroot v2\nroot v3\nroot v4\nroot v5\nroot head";

// The reply to `root` of a version, over a store that is opened at this head.
fn root_reply(alloc: Global, version: u64, head: u64) -> Result<String, Fail> {
    if version > head {
        return Ok(format!(in alloc; "0 no future {head}\n")?);
    }
    let root = ROOTS.get(version as usize).ok_or("no such version")?;
    Ok(format!(in alloc; "0 ok root {root}\n")?)
}

// The replies to the reads.
fn read_replies(alloc: Global, head: u64) -> Result<Vec<u8>, Fail> {
    let mut text = Vec::new(alloc);
    for version in [0, 1, 2, 3, 4, 5, head] {
        text.extend_from_slice(root_reply(alloc, version, head)?.as_bytes())?;
    }
    Ok(text)
}

// Opens a disk, checks that each version up to its head has its root, and returns the head.
pub(crate) fn opened_head<H: Threads + Wait + Sync>(
    rt: &H,
    alloc: Global,
    disk: Box<MemDisk>,
) -> Result<u64, Fail> {
    let played = play(rt, alloc, disk, "run", READS, NO_FAULTS)?;
    let head = played.start.ok_or("the disk is not opened")?;
    let want = read_replies(alloc, head)?;
    if has_ended(&played, Status::Done, Some(head), &want) {
        Ok(head)
    } else {
        Err(Fail::new("a version has another root"))
    }
}

// Opens a disk, and checks that its head is one of these versions, and that each version has its root.
pub(crate) fn is_opened<H: Threads + Wait + Sync>(
    rt: &H,
    alloc: Global,
    disk: Box<MemDisk>,
    heads: (u64, u64),
) -> Result<(), Fail> {
    let head = opened_head(rt, alloc, disk)?;
    if heads.0 <= head && head <= heads.1 {
        Ok(())
    } else {
        Err(Fail::new("the disk holds other versions"))
    }
}

// Opens each image that a crash after this number of calls leaves. Its head has to be one of these versions.
fn open_images<H: Threads + Wait + Sync>(
    rt: &H,
    alloc: Global,
    disk: &MemDisk,
    moment: u64,
    heads: (u64, u64),
) -> Result<(), Fail> {
    for crash in CRASHES {
        let image = image_of(alloc, disk, moment, *crash)?;
        is_opened(rt, alloc, image, heads)?;
    }
    Ok(())
}

// The moments of the landings among entries.
fn landings(alloc: Global, entries: &[Entry]) -> Result<Vec<u64>, Fail> {
    let mut moments = Vec::new(alloc);
    for entry in entries {
        if let Entry::Landed { moment, .. } = entry {
            moments.push(*moment)?;
        }
    }
    Ok(moments)
}

// A run of a script over a new store.
pub(crate) fn ended_run<H: Threads + Wait + Sync>(
    rt: &H,
    alloc: Global,
    start: &Start,
    script: &[u8],
) -> Result<Box<Ended<MemDisk>>, Fail> {
    let words = one_word(alloc, "run")?;
    let mut source = new_source(alloc, script, NO_FAULTS)?;
    let mut sink = new_sink(alloc, NO_FAULTS)?;
    let disk = disk_over(alloc, start, &[])?;
    run_over(rt, alloc, disk, &words, &mut source, &mut sink)
}

// The head of the landings that were made by a moment, and the next version, which the landing after them may have made.
fn heads_at(landed_at: &[u64], moment: u64) -> (u64, u64) {
    let landings = landed_at.iter().filter(|at| **at <= moment).count() as u64;
    (landings, landings.saturating_add(1))
}

// Runs the script from a start, and opens what a crash at each moment leaves.
fn stop_everywhere<H: Threads + Wait + Sync>(
    rt: &H,
    alloc: Global,
    start: &Start,
) -> Result<usize, Fail> {
    let ended = ended_run(rt, alloc, start, SCRIPT)?;
    let landed_at = landings(alloc, ended.entries.as_slice())?;
    for moment in 0..=ended.disk.moment() {
        let heads = heads_at(&landed_at, moment);
        open_images(rt, alloc, &ended.disk, moment, heads)?;
    }
    Ok(landed_at.len())
}

#[test]
fn a_stop_at_any_moment_leaves_what_was_acknowledged(rt: HostRuntime) -> Result<(), Fail> {
    let alloc = rt.alloc();
    for start in STARTS {
        assert_eq!(rt; stop_everywhere(&rt, alloc, start)?, 5, "{}", start.what);
    }
    Ok(())
}

// How far a run gets whose disk fails in a call.
#[derive(Clone, Copy, Debug, PartialEq, Eq)]
enum Reached {
    Opening,
    Landing,
    End,
}

// How far a run of the script got, by how it ended.
fn place_of(status: Status, start: Option<u64>) -> Option<Reached> {
    match (status, start) {
        (Status::DiskFault, None) => Some(Reached::Opening),
        (Status::DiskFault, Some(0)) => Some(Reached::Landing),
        (Status::Done, Some(0)) => Some(Reached::End),
        _ => None,
    }
}

// Whether a run that got so far wrote what it must.
fn is_as_expected(alloc: Global, played: &Played<MemDisk>, reached: Reached) -> Result<bool, Fail> {
    let told = match reached {
        Reached::Opening => Vec::new(alloc),
        Reached::Landing => replies(alloc, played.entries)?,
        Reached::End => replies(alloc, 5)?,
    };
    Ok(played.text.as_slice() == told.as_slice())
}

// The versions of which one is the head after a run: what was landed, or that and the landing in which the disk failed.
fn heads_after(played: &Played<MemDisk>) -> (u64, u64) {
    (played.entries, played.entries.saturating_add(1))
}

// Runs the script on a disk that fails in this call, and opens what a crash leaves.
fn run_failing<H: Threads + Wait + Sync>(
    rt: &H,
    alloc: Global,
    start: &Start,
    failing: u64,
) -> Result<Played<MemDisk>, Fail> {
    let disk = disk_over(alloc, start, &[failing])?;
    let played = play(rt, alloc, disk, "run", SCRIPT, NO_FAULTS)?;
    let moment = played.disk.moment();
    open_images(rt, alloc, &played.disk, moment, heads_after(&played))?;
    Ok(played)
}

// Runs the script so, and also opens what the disk itself holds, if the call was made.
fn reach<H: Threads + Wait + Sync>(
    rt: &H,
    alloc: Global,
    start: &Start,
    failing: u64,
) -> Result<Reached, Fail> {
    let played = run_failing(rt, alloc, start, failing)?;
    let reached = place_of(played.status, played.start).ok_or("the run ends otherwise")?;
    if !is_as_expected(alloc, &played, reached)? {
        return Err(Fail::new("the run writes another text"));
    }
    if reached != Reached::End {
        let heads = heads_after(&played);
        is_opened(rt, alloc, played.disk, heads)?;
    }
    Ok(reached)
}

// How many calls of the opening, and of the landings, fail in turn until one isn't made any more.
fn failed_calls<H: Threads + Wait + Sync>(
    rt: &H,
    alloc: Global,
    start: &Start,
) -> Result<(u64, u64), Fail> {
    let mut in_opening: u64 = 0;
    for failing in 0..100 {
        match reach(rt, alloc, start, failing)? {
            Reached::Opening => in_opening = in_opening.saturating_add(1),
            Reached::Landing => {}
            Reached::End => return Ok((in_opening, failing.saturating_sub(in_opening))),
        }
    }
    Err(Fail::new("a run without end"))
}

#[test]
fn a_failed_call_leaves_the_versions_before_or_after_it(rt: HostRuntime) -> Result<(), Fail> {
    let alloc = rt.alloc();
    for start in STARTS {
        // Each of the five landings writes, syncs, writes and syncs.
        let calls = (start.calls, 20);
        assert_eq!(rt; failed_calls(&rt, alloc, start)?, calls, "{}", start.what);
    }
    Ok(())
}

// One landing, and a line after it.
const LANDING: &[u8] = b"put 61 =31\ncommit\nroot head";

// The call that writes the gate of that landing: its last two write the gate, and sync it.
fn gate_call<H: Threads + Wait + Sync>(rt: &H, alloc: Global, start: &Start) -> Result<u64, Fail> {
    let ended = ended_run(rt, alloc, start, LANDING)?;
    let moments = landings(alloc, ended.entries.as_slice())?;
    let landed_at = moments.first().ok_or("no landing")?;
    Ok(landed_at.checked_sub(2).ok_or("a landing of one call")?)
}

// Whether a run ends in the landing whose gate isn't written, and a crash leaves the landing or nothing.
fn leaves_one_or_none<H: Threads + Wait + Sync>(
    rt: &H,
    alloc: Global,
    start: &Start,
) -> Result<bool, Fail> {
    let disk = disk_over(alloc, start, &[gate_call(rt, alloc, start)?])?;
    let played = play(rt, alloc, disk, "run", LANDING, NO_FAULTS)?;
    let moment = played.disk.moment();
    open_images(rt, alloc, &played.disk, moment, (0, 1))?;
    let ended = has_ended(&played, Status::DiskFault, Some(0), b"0 ok pending 1\n");
    Ok(ended && played.entries == 0)
}

#[test]
fn a_gate_that_is_not_written_leaves_the_landing_or_nothing(rt: HostRuntime) -> Result<(), Fail> {
    let alloc = rt.alloc();
    for start in STARTS {
        assert!(rt; leaves_one_or_none(&rt, alloc, start)?, "{}", start.what);
    }
    Ok(())
}
