// What a crash leaves of a disk in memory.
use jf_disk::{Disk, MemDisk};
use std::alloc::Global;
use std::test::Fail;

/// A crash: how many unsynced bytes it keeps, and the byte that it leaves in place of each of the others.
pub type Crash = (u64, u8);

/// Crashes that keep no unsynced byte, one, some and all, each with three bytes in place of the others.
pub const CRASHES: &[Crash] = &[
    (0, 0x00),
    (0, 0x01),
    (0, 0xff),
    (1, 0x00),
    (1, 0x01),
    (1, 0xff),
    (200, 0x00),
    (200, 0x01),
    (200, 0xff),
    (1 << 62, 0x00),
    (1 << 62, 0x01),
    (1 << 62, 0xff),
];

/// The image that a crash leaves after this number of calls. Fails if the disk had fewer calls.
pub fn image_of(
    alloc: Global,
    disk: &MemDisk,
    moment: u64,
    crash: Crash,
) -> Result<Box<MemDisk>, Fail> {
    if moment > disk.moment() {
        return Err(Fail::new("no such moment"));
    }
    let (kept, fill) = crash;
    Ok(Box::new(alloc, disk.image(alloc, moment, kept, fill)?)?)
}
