// Chunk blocks of small maps, from Python's `hashlib`, and a restore from them.
use crate::files::bytes_of;
use crate::play::{Faults, Played, new_disk, play_line};
use jf_disk::MemDisk;
use std::alloc::Global;
use std::sync::Wait;
use std::test::Fail;
use std::thread::Threads;

/// An input, in parts.
pub type Parts = &'static [&'static [u8]];

/// The words that restore the map of `put 61 =31` and `put 62 =32` as version 1. The keys of `61` and `62` come in this
/// order, and agree in one bit, a 0.
pub const RESTORE_PAIR: &str =
    "restore 1 3e92b77a6f4a7dcc426f134b3415f3af7eb39e5c8ac7599c94f5a3c83fe07425";

/// The entries of that map.
pub const FIRST_ENTRY: &[u8] =
    b"entry 19d5f57c8e8b3cd760f853bb8d7900d68e10ef02674383de65a9b4d65e419b26 =31\n";

pub const SECOND_ENTRY: &[u8] =
    b"entry 6fe4ff1a836fcb881bbe03ff848bb731a5584708153d9bc6dc1d6430579a6a12 =32\n";

/// The hash of no entry, as a sibling.
pub const EMPTY_SIDE: &[u8] =
    b"side 6e340b9cffb37a989ca544e6bb780a2c78901d3fb33738768511a30617afa01d\n";

/// The replies to `chunk v1 0 1` and `chunk v1 1 1`: the two entries, each as a block of its own.
pub const FIRST_BLOCK: &[u8] = b"1 ok chunk 1 2 2\n\
    entry 19d5f57c8e8b3cd760f853bb8d7900d68e10ef02674383de65a9b4d65e419b26 =31\n\
    side 523314ab33c912d434792b42083d03c32d7e90b536b35c355a01ad0bb7925da2\n\
    side 6e340b9cffb37a989ca544e6bb780a2c78901d3fb33738768511a30617afa01d\n";

pub const SECOND_BLOCK: &[u8] = b"1 ok chunk 1 2 1\n\
    entry 6fe4ff1a836fcb881bbe03ff848bb731a5584708153d9bc6dc1d6430579a6a12 =32\n\
    side 6e340b9cffb37a989ca544e6bb780a2c78901d3fb33738768511a30617afa01d\n";

/// Runs the words of a line over a new store and these parts as input.
pub fn play_of_parts<H: Threads + Wait + Sync>(
    rt: &H,
    alloc: Global,
    line: &str,
    input: Parts,
    faults: Faults,
) -> Result<Played<MemDisk>, Fail> {
    let input = bytes_of(alloc, input)?;
    let disk = new_disk(alloc, b"", &[])?;
    play_line(rt, alloc, disk, line, &input, faults)
}
