// What is found in files, and in the images that a crash may leave of them.
use jf_disk::MemDisk;
use jf_play::images::{CRASHES, image_of};
use jf_play::play::{NO_FAULTS, Played, has_ended, play};
use jf_play::roots::EMPTY;
use jf_run::status::Status;
use std::alloc::Global;
use std::sync::Wait;
use std::test::Fail;
use std::thread::Threads;

/// The version at which files are opened, and its root.
pub(crate) type Found = (u64, &'static str);

/// A new store.
pub(crate) const NEW: Found = (0, EMPTY);

/// The version that `RESTORE_PAIR` restores.
pub(crate) const RESTORED: Found = (
    1,
    "3e92b77a6f4a7dcc426f134b3415f3af7eb39e5c8ac7599c94f5a3c83fe07425",
);

// Whether a run of `root head` told this.
fn is_as_expected(alloc: Global, played: &Played<MemDisk>, found: Found) -> Result<bool, Fail> {
    let want = format!(in alloc; "0 ok root {}\n", found.1)?;
    let want = want.as_bytes();
    Ok(has_ended(played, Status::Done, Some(found.0), want))
}

/// Whether one of two is found on a disk.
pub(crate) fn shows_either<H: Threads + Wait + Sync>(
    rt: &H,
    alloc: Global,
    disk: Box<MemDisk>,
    either: (Found, Found),
) -> Result<bool, Fail> {
    let played = play(rt, alloc, disk, "run", b"root head", NO_FAULTS)?;
    Ok(is_as_expected(alloc, &played, either.0)? || is_as_expected(alloc, &played, either.1)?)
}

/// Whether each crash after this number of calls leaves one of two.
pub(crate) fn images_show<H: Threads + Wait + Sync>(
    rt: &H,
    alloc: Global,
    disk: &MemDisk,
    moment: u64,
    either: (Found, Found),
) -> Result<bool, Fail> {
    for crash in CRASHES {
        let image = image_of(alloc, disk, moment, *crash)?;
        if !shows_either(rt, alloc, image, either)? {
            return Ok(false);
        }
    }
    Ok(true)
}
