// Landing blocks, and runs that come before a following. Keys and roots are by Python's `hashlib`.
use jf_disk::MemDisk;
use jf_play::play::{NO_FAULTS, new_disk, play_line};
use jf_run::status::Status;
use std::alloc::Global;
use std::sync::Wait;
use std::test::Fail;
use std::thread::Threads;

/// Three landings, of 150 bytes each: `1` and then `2` at the key of `a`, and `3` at that of `b`.
pub(crate) const THREE: &[u8] =
    b"landing 1 9bb72c39f13d2b512ea34eae99a28f6d807a134ab125e89172310c6f6ea72f8f 1\n\
    put 19d5f57c8e8b3cd760f853bb8d7900d68e10ef02674383de65a9b4d65e419b26 =31\n\
    landing 2 aa5647fd223dff48afb95db3b4b4b9db25f6244f59b3f1f7a0b03684552cb9ad 1\n\
    put 19d5f57c8e8b3cd760f853bb8d7900d68e10ef02674383de65a9b4d65e419b26 =32\n\
    landing 3 eefcf9b105d7d02e5a1d9bff2664e0ca9b96376d452f31b6091710fa35852ef1 1\n\
    put 6fe4ff1a836fcb881bbe03ff848bb731a5584708153d9bc6dc1d6430579a6a12 =33\n";

/// The first of them.
pub(crate) const FIRST: &[u8] =
    b"landing 1 9bb72c39f13d2b512ea34eae99a28f6d807a134ab125e89172310c6f6ea72f8f 1\n\
    put 19d5f57c8e8b3cd760f853bb8d7900d68e10ef02674383de65a9b4d65e419b26 =31\n";

/// Words and an input that are run over a store, one after another.
pub(crate) type Runs = &'static [(&'static str, &'static [u8])];

/// Restores the map of `put 61 =31` and `put 62 =32` as version 1.
pub(crate) const RESTORE: (&str, &[u8]) = (
    "restore 1 3e92b77a6f4a7dcc426f134b3415f3af7eb39e5c8ac7599c94f5a3c83fe07425",
    b"chunk 2 2 1\n\
    entry 19d5f57c8e8b3cd760f853bb8d7900d68e10ef02674383de65a9b4d65e419b26 =31\n\
    entry 6fe4ff1a836fcb881bbe03ff848bb731a5584708153d9bc6dc1d6430579a6a12 =32\n\
    side 6e340b9cffb37a989ca544e6bb780a2c78901d3fb33738768511a30617afa01d\n",
);

/// Restores an empty map as the last version that there can be.
pub(crate) const RESTORE_LAST: (&str, &[u8]) = (
    "restore 18446744073709551614 6e340b9cffb37a989ca544e6bb780a2c78901d3fb33738768511a30617afa01d",
    b"",
);

/// The disk that these runs over a new one leave. Fails unless each ends well.
pub(crate) fn disk_after<H: Threads + Wait + Sync>(
    rt: &H,
    alloc: Global,
    runs: Runs,
) -> Result<Box<MemDisk>, Fail> {
    let mut disk = new_disk(alloc, b"", &[])?;
    for (line, input) in runs {
        let played = play_line(rt, alloc, disk, line, input, NO_FAULTS)?;
        if played.status != Status::Done {
            return Err(Fail::new("a run ends otherwise"));
        }
        disk = played.disk;
    }
    Ok(disk)
}
