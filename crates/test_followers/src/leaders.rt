// What `lead` writes of a script is followed by another store, which then has the same versions.
use crate::samples::disk_after;
use jf_disk::MemDisk;
use jf_play::play::{NO_FAULTS, Played, new_disk, play};
use jf_run::status::Status;
use std::alloc::Global;
use std::sync::Wait;
use std::test::Fail;
use std::thread::Threads;

// Scripts over a new store.
const SCRIPTS: &[&[u8]] = &[
    b"put 61 =31\ncommit\n",
    b"put 61 =31\nfork head\nput 61 =32\nfork f0\nput 62 =33\nfork f1\nland f2\n",
    b"put 61 =31\nput 62 =32\ncommit\ndel 61\nput 63 =\ncommit\ncommit\nput 61 =34\nfork head\nput 64 =35\nfork f0\nland f0\nland f1\n",
    b"put 61 =31\ncommit\nput 61 =32\ncommit\nprune 2\ncompact\nput 62 =33\ncommit\n",
    b"root head\n",
];

// Reads of what all of these make.
const READS: &[u8] =
    b"root v2\nroot v3\nroot v4\nroot v5\nroot head\ncount head\nget head 61\nget head 63\nchunk head 0 10\n";

// What a later run says over a disk.
fn later_run<H: Threads + Wait + Sync>(
    rt: &H,
    alloc: Global,
    disk: Box<MemDisk>,
) -> Result<Played<MemDisk>, Fail> {
    play(rt, alloc, disk, "run", READS, NO_FAULTS)
}

// Whether two runs ended well and opened the same version, and one wrote the same text as the other.
fn are_same(one: &Played<MemDisk>, other: &Played<MemDisk>) -> bool {
    let done = one.status == Status::Done && other.status == Status::Done;
    done && one.start == other.start && one.text.as_slice() == other.text.as_slice()
}

// The disks of a leader after a script, and of a follower after the leader's text. Fails unless both end well.
fn led_and_followed<H: Threads + Wait + Sync>(
    rt: &H,
    alloc: Global,
    script: &[u8],
) -> Result<(Box<MemDisk>, Box<MemDisk>), Fail> {
    let led = play(
        rt,
        alloc,
        new_disk(alloc, b"", &[])?,
        "lead",
        script,
        NO_FAULTS,
    )?;
    let disk = disk_after(rt, alloc, &[])?;
    let followed = play(rt, alloc, disk, "follow", &led.text, NO_FAULTS)?;
    if led.status == Status::Done && followed.status == Status::Done {
        Ok((led.disk, followed.disk))
    } else {
        Err(Fail::new("a run ends otherwise"))
    }
}

// Whether a follower of a script's leader has what the leader has.
fn has_the_same<H: Threads + Wait + Sync>(
    rt: &H,
    alloc: Global,
    script: &[u8],
) -> Result<bool, Fail> {
    let (leader, follower) = led_and_followed(rt, alloc, script)?;
    let one = later_run(rt, alloc, leader)?;
    let other = later_run(rt, alloc, follower)?;
    Ok(are_same(&one, &other))
}

#[test]
fn a_follower_of_a_leader_has_its_versions(rt: HostRuntime) -> Result<(), Fail> {
    for (number, script) in SCRIPTS.iter().enumerate() {
        assert!(rt; has_the_same(&rt, rt.alloc(), script)?, "of {number}");
    }
    Ok(())
}
