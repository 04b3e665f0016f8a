// Four sessions over a disk that fails in a call: how they end, what they write, and what a crash leaves.
use crate::lines::{landings_reported, replies_in, text_of};
use jf_disk::{Disk, MemDisk};
use jf_play::images::{Crash, image_of};
use jf_play::play::{NO_FAULTS, Played, new_disk, play};
use jf_run::status::Status;
use std::alloc::Global;
use std::sync::Wait;
use std::test::Fail;
use std::thread::Threads;

// Puts, commits, a fork and its landing, a floor, a new generation, and reads.
const INPUT: &[u8] = b"put 61 =31\ncommit\nget head 61\nput 62 =32\ncommit\n\
    session\nput 63 =33\nfork head\nget f0 63\nland f0\nroot head\n\
    session\nput 64 =34\ncommit\nprune 1\nroot v1\n\
    session\nput 65 =35\ncompact\ncommit\nget head 65\nroot head\n";

// How many lines the sessions have.
const LINES: usize = 19;

// The opening of empty files makes this many calls.
const OPENING: u64 = 13;

// How many calls are made at least and at most. Four commits and a floor make four calls each, and a new generation on an empty
// side seven. If a commit comes after the fork, it is gone; else it lands, with four calls more.
const LEAST: u64 = OPENING + 5 * 4 + 7;

const MOST: u64 = LEAST + 4;

// Whether a run whose disk failed in this call, if it was made, ended as it must: in the opening with no text; in a change with
// a whole text in which a reply is missing; after its last call with all replies.
fn has_reported(played: &Played<MemDisk>, failing: u64) -> bool {
    let replies = replies_in(text_of(&played.text), played.entries);
    let faults = played.disk.faults();
    match (played.status, played.start, replies) {
        (Status::DiskFault, None, None) => failing < OPENING && played.text.is_empty(),
        (Status::DiskFault, Some(0), Some(count)) => {
            faults == 1 && count < LINES && OPENING <= failing && failing < MOST
        }
        (Status::Done, Some(0), Some(LINES)) => faults == 0 && failing >= LEAST,
        _ => false,
    }
}

// The versions from 1 on: no more are landed.
const READS: &[u8] = b"root v1\nroot v2\nroot v3\nroot v4\nroot v5\n";

// Whether files were opened with the landings that a text lists, or with one more if the disk failed.
fn has_landings(opened: &Played<MemDisk>, text: &str, faults: u64) -> bool {
    match (opened.start, landings_reported(text, text_of(&opened.text))) {
        (Some(head), Some(landed)) => landed <= head && head <= landed.saturating_add(faults),
        _ => false,
    }
}

// Crashes that keep no unsynced byte, one and all.
const CRASHES: &[Crash] = &[
    (0, 0x00),
    (0, 0xff),
    (1, 0x00),
    (1, 0xff),
    (1 << 62, 0x00),
    (1 << 62, 0xff),
];

// Fails unless what a crash after a run leaves has the landings that its ledger lists.
fn is_left<H: Threads + Wait + Sync>(
    rt: &H,
    alloc: Global,
    played: &Played<MemDisk>,
    crash: Crash,
) -> Result<(), Fail> {
    let disk = &played.disk;
    let image = image_of(alloc, disk, disk.moment(), crash)?;
    let opened = play(rt, alloc, image, "run", READS, NO_FAULTS)?;
    if has_landings(&opened, text_of(&played.text), disk.faults()) {
        Ok(())
    } else {
        Err(Fail::new("another landing"))
    }
}

// Fails unless each of these crashes after a run leaves the landings.
fn are_left<H: Threads + Wait + Sync>(
    rt: &H,
    alloc: Global,
    played: &Played<MemDisk>,
) -> Result<(), Fail> {
    for crash in CRASHES {
        is_left(rt, alloc, played, *crash)?;
    }
    Ok(())
}

// Fails unless the sessions on a disk that fails in this call end as they must, and leave what they may.
fn is_sound<H: Threads + Wait + Sync>(rt: &H, alloc: Global, failing: u64) -> Result<(), Fail> {
    let disk = new_disk(alloc, b"", &[failing])?;
    let played = play(rt, alloc, disk, "serve", INPUT, NO_FAULTS)?;
    if has_reported(&played, failing) {
        are_left(rt, alloc, &played)
    } else {
        Err(Fail::new(failing))
    }
}

#[test]
fn a_failed_call_leaves_what_the_ledger_lists(rt: HostRuntime) -> Result<(), Fail> {
    for failing in 0..MOST + 3 {
        is_sound(&rt, rt.alloc(), failing)?;
    }
    Ok(())
}
