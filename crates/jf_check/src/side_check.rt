// What one file shows by itself.
ghost use Rattle.std.specs.Prelude.{◌≡◌, ◌<◌, ◌≤◌, ◌^◌, ◌-◌, length, Some, Ok, IfOk};
ghost use Rattle.jf_disk.specs.Disk.{content_on};
ghost use Rattle.jf_disk.specs.Memory.{history_of};
ghost use Rattle.jf_frame.specs.Framing.{end_of};
ghost use Rattle.jf_check.specs.Sides.{log_check, side_shown};

use crate::first::{end_of, is_begun};
use crate::numbers::{SideNumbers, numbers_in};
use jf_disk::{MemDisk, Side};
use jf_frame::{FrameFault, Log};
use jf_path::Memory;
use std::alloc::Global;

/// What one file shows by itself. Sizes and offsets are in bytes.
#[derive(Clone, Copy, Debug, PartialEq, Eq)]
pub enum SideCheck {
    /// There is no such file.
    Absent,
    /// The file is damaged, first at this offset: an open gate there isn't followed by a whole record and a next gate; or,
    /// at 0, the first record is no checkpoint or has fewer than 8 bytes of payload.
    Damaged {
        size: u64,
        offset: u64,
    },
    /// The records take so many bytes, from the first gate to the one that ends them, and so many bytes come behind that
    /// gate. There are no numbers if there is no record, or the first one has fewer than 32 bytes of payload.
    Whole {
        size: u64,
        numbers: Option<SideNumbers>,
        records: u64,
        behind: u64,
    },
}

// What the file on a side of a disk shows.
pub(crate) fn side_shown(alloc: Global, disk: &mut MemDisk, side: Side) -> Result<SideCheck, Memory>
    ensures shown { IfOk result (λ c. c ≡ side_shown (Some (content_on side (history_of disk.old).now).bytes)) }
    ensures unchanged { (history_of disk.new).now ≡ (history_of disk.old).now }
{
    let size = disk.bytes(side).len() as u64;
    match Log::read_all(alloc, disk, side) {
        Ok(log) => Ok(log_check(size, &log)),
        Err(FrameFault::Damaged(offset)) => Ok(SideCheck::Damaged { size, offset }),
        Err(FrameFault::DiskFault | FrameFault::Memory) => Err(Memory),
    }
}

// What a file of so many bytes shows, by the records that were read.
fn log_check(size: u64, log: &Log) -> SideCheck
    requires { end_of log.now.records ≤ size - 1 }
    ensures { result ≡ log_check size (Ok log.now.records) }
{
    if !is_begun(log) {
        return SideCheck::Damaged { size, offset: 0 };
    }
    let records = end_of(log);
    SideCheck::Whole {
        size,
        numbers: numbers_in(log),
        records,
        behind: size.saturating_sub(records + 1),
    }
}
