// What is found in the images that a crash may leave.
use jf_disk::{Disk, MemDisk};
use jf_engine::{Engine, State};
use jf_engine_play::stores::{image_of, store_on};
use jf_hash::Hash;
use std::alloc::Global;
use std::test::Fail;
use std::thread::Threads;

// What is found: base, floor and head, the number of nodes that are kept, and the generation; and the root of the head.
pub(crate) type Found = ((u64, u64, u64, u64, u64), Hash);

// How many unsynced bytes a crash keeps, and the byte that all others become.
const CRASHES: &[(u64, u8)] = &[(0, 0), (0, 1), (1, 0), (17, 0xff), (1 << 62, 0)];

// Whether this is found in a store.
pub(crate) fn shows(engine: &Engine<MemDisk>, found: &Found) -> bool {
    let State {
        base,
        floor,
        head,
        kept,
        generation,
    } = engine.state();
    (base, floor, head, kept, generation) == found.0 && engine.root_of(head) == Some(found.1)
}

// Whether a crash leaves one of two.
fn leaves<H: Threads + Sync>(
    rt: &H,
    alloc: Global,
    disk: &MemDisk,
    moment: u64,
    crash: (u64, u8),
    either: (&Found, &Found),
) -> Result<bool, Fail> {
    let image = image_of(alloc, disk, moment, crash.0, crash.1)?;
    let engine = store_on(rt, alloc, image)?;
    Ok(shows(&engine, either.0) || shows(&engine, either.1))
}

// Whether each crash just after so many calls leaves one of two.
pub(crate) fn leaves_at<H: Threads + Sync>(
    rt: &H,
    alloc: Global,
    disk: &MemDisk,
    moment: u64,
    either: (&Found, &Found),
) -> Result<bool, Fail> {
    for crash in CRASHES {
        if !leaves(rt, alloc, disk, moment, *crash, either)? {
            return Ok(false);
        }
    }
    Ok(true)
}

// Whether each crash from a moment on leaves one of two.
pub(crate) fn leaves_since<H: Threads + Sync>(
    rt: &H,
    alloc: Global,
    disk: &MemDisk,
    since: u64,
    either: (&Found, &Found),
) -> Result<bool, Fail> {
    for moment in since..disk.moment() {
        if !leaves_at(rt, alloc, disk, moment, either)? {
            return Ok(false);
        }
    }
    leaves_at(rt, alloc, disk, disk.moment(), either)
}
