// The disk that the first word of a command line names.
ghost use Rattle.std.specs.Prelude.{◌≡◌, [], Err, IfOk};
ghost use Rattle.jf_main.specs.Places.{IsDiskAt, IsNewMemory};

use jf_disk::MemDisk;
use jf_folder::{AnyDisk, FaultCause, FileDisk, FileRefused};
use std::alloc::Global;
use std::fs::File;
use std::rt::Files;

/// The calls for which a disk in memory has room.
const MEM_CALLS: u64 = 1 << 20;

/// The written bytes for which a disk in memory has room.
const MEM_BYTES: u64 = 1 << 27;

/// The disk that a word names: `-` is a new one in memory, and any other word a folder. No folder has the empty name.
pub fn disk_at<R: Files<File = File>>(
    rt: &R,
    alloc: Global,
    folder: &str,
) -> Result<AnyDisk, FileRefused>
    ensures disk { IfOk result (IsDiskAt folder.now) }
    ensures unnamed { folder.now ≡ [] → result ≡ Err (FileRefused.DiskFailed FaultCause.NoSuchFolder) }
{
    if folder.is_empty() {
        return Err(FileRefused::DiskFailed(FaultCause::NoSuchFolder));
    }
    if folder == "-" {
        return disk_in_memory(alloc);
    }
    match FileDisk::at(rt, alloc, folder) {
        Ok(disk) => Ok(AnyDisk::File(disk)),
        Err(why) => Err(why),
    }
}

// A new disk in memory: both sides are empty, and no call fails as long as there is room.
fn disk_in_memory(alloc: Global) -> Result<AnyDisk, FileRefused>
    ensures { IfOk result IsNewMemory }
{
    let empty = || Vec::new(alloc);
    match MemDisk::new(
        alloc,
        empty(),
        empty(),
        MEM_CALLS,
        MEM_BYTES,
        Vec::new(alloc),
    ) {
        Ok(disk) => Ok(AnyDisk::Mem(disk)),
        Err(_) => Err(FileRefused::Memory),
    }
}
