// The files over which scripts are run: each holds a new store, so all runs make the same versions.
use jf_disk::MemDisk;
use jf_play::files::{CHECKPOINT, END, File, SECOND, file_bytes};
use jf_play::play::disk_of;
use std::alloc::Global;
use std::test::Fail;

// Two files, and how many calls on the disk their opening makes.
pub(crate) struct Start {
    pub what: &'static str,
    pub a: File,
    pub b: File,
    pub calls: u64,
}

// An opening syncs both sides, and asks each for its length and its bytes. If both are empty, the first checkpoint takes seven
// calls more: length, write a closed gate, sync; write, sync, write, sync.
pub(crate) const STARTS: &[Start] = &[
    Start {
        what: "empty files",
        a: &[],
        b: &[],
        calls: 13,
    },
    Start {
        what: "a new store on side A",
        a: &[CHECKPOINT, END],
        b: &[],
        calls: 6,
    },
    Start {
        what: "a new store of a second generation, on side B",
        a: &[CHECKPOINT, END],
        b: &[SECOND, END],
        calls: 6,
    },
];

// A disk that holds these files, on which the calls with these numbers fail.
pub(crate) fn disk_over(
    alloc: Global,
    start: &Start,
    failing: &[u64],
) -> Result<Box<MemDisk>, Fail> {
    let a = file_bytes(alloc, start.a)?;
    let b = file_bytes(alloc, start.b)?;
    disk_of(alloc, &a, &b, failing)
}
