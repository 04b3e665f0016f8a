// Scripts over files that an earlier script has left: what outlives a run, and what doesn't.
use jf_disk::MemDisk;
use jf_play::play::{NO_FAULTS, has_ended, new_disk, play};
use jf_play::roots::with_roots;
use jf_run::status::Status;
use std::alloc::Global;
use std::sync::Wait;
use std::test::Fail;
use std::thread::Threads;

// Two scripts, the second over the files of the first and opened at this version, and their replies, where letters represent
// roots as in `with_roots`. The values are from a reference in Python that keeps whole maps, and its `hashlib`.
struct Row {
    what: &'static str,
    first: &'static str,
    replies: &'static str,
    head: u64,
    second: &'static str,
    replies_again: &'static str,
}

const ROWS: &[Row] = &[
    Row {
        what: "the floor stays",
        first: "put 61 =31\n\
                commit\n\
                commit\n\
                commit\n\
                pin 1\n\
                prune 3\n\
                unpin 0\n\
                prune 3\n",
        replies: "0 ok pending 1\n\
               1 ok commit 1 R\n\
               2 ok commit 2 R\n\
               3 ok commit 3 R\n\
               3 ok pin 0\n\
               4 ok prune 3 1\n\
               4 ok unpin 1\n\
               5 ok prune 3 3\n",
        head: 3,
        second: "get v2 61\n\
                 get v3 61\n\
                 status\n",
        replies_again: "0 no retired 3\n\
                     0 ok value =31\n\
                     0 ok status base 0 floor 3 retired 3 head 3 kept 1 forks 0 generation 1\n",
    },
    Row {
        what: "forks are gone, and their numbers begin again",
        first: "put 61 =31\n\
                fork head\n\
                put 62 =32\n\
                fork f0\n\
                land f0\n",
        replies: "0 ok pending 1\n\
               1 ok fork f0 R\n\
               1 ok pending 1\n\
               2 ok fork f1 P\n\
               3 ok land 1 R\n",
        head: 1,
        second: "get f1 62\n\
                 land f1\n\
                 drop f0\n\
                 fork head\n\
                 status\n\
                 fork f0\n\
                 land f1\n\
                 status\n",
        replies_again: "0 no unknown\n\
                     0 no unknown\n\
                     0 no unknown\n\
                     1 ok fork f0 R\n\
                     1 ok status base 0 floor 0 retired 0 head 1 kept 2 forks 1 generation 1\n\
                     2 ok fork f1 R\n\
                     3 ok land 3 R\n\
                     3 ok status base 0 floor 0 retired 0 head 3 kept 4 forks 0 generation 1\n",
    },
    Row {
        what: "pins are gone, and what they kept is read again",
        first: "put 61 =31\n\
                commit\n\
                put 61 =32\n\
                commit\n\
                commit\n\
                pin 1\n\
                prune 3\n\
                get v1 61\n",
        replies: "0 ok pending 1\n\
               1 ok commit 1 R\n\
               1 ok pending 1\n\
               2 ok commit 2 S\n\
               3 ok commit 3 S\n\
               3 ok pin 0\n\
               4 ok prune 3 1\n\
               4 no retired 3\n",
        head: 3,
        second: "get p0 61\n\
                 unpin 0\n\
                 get v0 61\n\
                 get v1 61\n\
                 get v2 61\n\
                 status\n\
                 prune 2\n\
                 get v1 61\n\
                 status\n\
                 pin 2\n",
        replies_again: "0 no nopin\n\
                     0 no nopin\n\
                     0 no retired 1\n\
                     0 ok value =31\n\
                     0 ok value =32\n\
                     0 ok status base 0 floor 1 retired 1 head 3 kept 3 forks 0 generation 1\n\
                     1 ok prune 2 2\n\
                     1 no retired 2\n\
                     1 ok status base 0 floor 2 retired 2 head 3 kept 2 forks 0 generation 1\n\
                     1 ok pin 0\n",
    },
    Row {
        what: "what is pending is gone",
        first: "put 61 =31\n\
                commit\n\
                put 62 =32\n",
        replies: "0 ok pending 1\n\
               1 ok commit 1 R\n\
               1 ok pending 1\n",
        head: 1,
        second: "get head 62\n\
                 commit\n\
                 root head\n",
        replies_again: "0 ok none\n\
                     1 ok commit 2 R\n\
                     1 ok root R\n",
    },
    Row {
        what: "a chain of forks is there whole",
        first: "put 61 =31\n\
                fork head\n\
                put 61 =32\n\
                fork f0\n\
                put 62 =33\n\
                fork f1\n\
                land f2\n",
        replies: "0 ok pending 1\n\
               1 ok fork f0 R\n\
               1 ok pending 1\n\
               2 ok fork f1 S\n\
               2 ok pending 1\n\
               3 ok fork f2 T\n\
               4 ok land 3 T\n",
        head: 3,
        second: "root v0\n\
                 root v1\n\
                 root v2\n\
                 root v3\n\
                 get v2 62\n\
                 count head\n\
                 status\n\
                 prune 2\n\
                 commit\n\
                 status\n",
        replies_again: "0 ok root E\n\
                     0 ok root R\n\
                     0 ok root S\n\
                     0 ok root T\n\
                     0 ok none\n\
                     0 ok count 2\n\
                     0 ok status base 0 floor 0 retired 0 head 3 kept 6 forks 0 generation 1\n\
                     1 ok prune 2 2\n\
                     2 ok commit 4 T\n\
                     2 ok status base 0 floor 2 retired 2 head 4 kept 5 forks 0 generation 1\n",
    },
    Row {
        what: "a generation stays",
        first: "put 61 =31\n\
                commit\n\
                commit\n\
                compact\n\
                commit\n",
        replies: "0 ok pending 1\n\
               1 ok commit 1 R\n\
               2 ok commit 2 R\n\
               3 ok compact 2\n\
               4 ok commit 3 R\n",
        head: 3,
        second: "status\n\
                 root v1\n\
                 compact\n\
                 status\n\
                 put 62 =32\n\
                 commit\n\
                 root v4\n",
        replies_again: "0 ok status base 0 floor 0 retired 0 head 3 kept 4 forks 0 generation 2\n\
                     0 ok root R\n\
                     1 ok compact 3\n\
                     1 ok status base 0 floor 0 retired 0 head 3 kept 4 forks 0 generation 3\n\
                     1 ok pending 1\n\
                     2 ok commit 4 P\n\
                     2 ok root P\n",
    },
    Row {
        what: "a floor in a checkpoint",
        first: "put 61 =31\n\
                commit\n\
                put 61 =32\n\
                commit\n\
                prune 1\n\
                compact\n\
                prune 2\n\
                put 62 =33\n\
                commit\n",
        replies: "0 ok pending 1\n\
               1 ok commit 1 R\n\
               1 ok pending 1\n\
               2 ok commit 2 S\n\
               3 ok prune 1 1\n\
               4 ok compact 2\n\
               5 ok prune 2 2\n\
               5 ok pending 1\n\
               6 ok commit 3 T\n",
        head: 3,
        second: "get v1 61\n\
                 root v2\n\
                 root v3\n\
                 status\n\
                 compact\n\
                 status\n\
                 root v2\n",
        replies_again: "0 no retired 2\n\
                     0 ok root S\n\
                     0 ok root T\n\
                     0 ok status base 0 floor 2 retired 2 head 3 kept 4 forks 0 generation 2\n\
                     1 ok compact 3\n\
                     1 ok status base 0 floor 2 retired 2 head 3 kept 4 forks 0 generation 3\n\
                     1 ok root S\n",
    },
    Row {
        what: "versions kept for a pin in a checkpoint",
        first: "put 61 =31\n\
                commit\n\
                put 61 =32\n\
                commit\n\
                pin 1\n\
                prune 2\n\
                compact\n",
        replies: "0 ok pending 1\n\
               1 ok commit 1 R\n\
               1 ok pending 1\n\
               2 ok commit 2 S\n\
               2 ok pin 0\n\
               3 ok prune 2 1\n\
               4 ok compact 2\n",
        head: 2,
        second: "get v0 61\n\
                 get v1 61\n\
                 root v1\n\
                 status\n\
                 prune 2\n\
                 get v1 61\n\
                 status\n",
        replies_again: "0 no retired 1\n\
                     0 ok value =31\n\
                     0 ok root R\n\
                     0 ok status base 0 floor 1 retired 1 head 2 kept 2 forks 0 generation 2\n\
                     1 ok prune 2 2\n\
                     1 no retired 2\n\
                     1 ok status base 0 floor 2 retired 2 head 2 kept 1 forks 0 generation 2\n",
    },
];

// Runs a script over a disk that is opened at this version, and returns the disk, or `None` if the replies are others.
fn disk_after_script<H: Threads + Wait + Sync>(
    rt: &H,
    alloc: Global,
    disk: Box<MemDisk>,
    script: &str,
    head: u64,
    want: &str,
) -> Result<Option<Box<MemDisk>>, Fail> {
    let want = with_roots(alloc, want)?;
    let played = play(rt, alloc, disk, "run", script.as_bytes(), NO_FAULTS)?;
    if has_ended(&played, Status::Done, Some(head), &want) {
        Ok(Some(played.disk))
    } else {
        Ok(None)
    }
}

// Whether both scripts of a row get their replies.
fn are_replied<H: Threads + Wait + Sync>(rt: &H, alloc: Global, row: &Row) -> Result<bool, Fail> {
    let disk = new_disk(alloc, b"", &[])?;
    match disk_after_script(rt, alloc, disk, row.first, 0, row.replies)? {
        Some(disk) => Ok(disk_after_script(
            rt,
            alloc,
            disk,
            row.second,
            row.head,
            row.replies_again,
        )?.is_some()),
        None => Ok(false),
    }
}

#[test]
fn versions_and_floors_outlive_a_run(rt: HostRuntime) -> Result<(), Fail> {
    let alloc = rt.alloc();
    for row in ROWS {
        assert!(rt; are_replied(&rt, alloc, row)?, "{}", row.what);
    }
    Ok(())
}
