// What two files show, as a value and as lines.
ghost use Rattle.std.specs.Prelude.{◌≡◌, ◌≢◌, ◌⊎◌, ◌+◌, ◌≤◌, Err, IfOk, Some, option_map};
ghost use Rattle.jf_path.specs.Faults.{HasCause};
ghost use Rattle.jf_disk.specs.Crashes.{Idles};
ghost use Rattle.jf_disk.specs.Disk.{CallsOn, History, content_on, reads};
ghost use Rattle.jf_disk.specs.Memory.{history_of, start};
ghost use Rattle.jf_disk.specs.Missing.{bytes_found, files_found};
ghost use Rattle.jf_check.specs.Sides.{side_shown};
ghost use Rattle.jf_check.specs.Stores.{IsCheck, IsStoreCheck};
ghost use Rattle.jf_check.specs.Written.{ChecksDisk, WritesCheck};

use crate::fault::Unchecked;
use crate::reading::{DiskFiles, files_of, know_absent};
use crate::side_check::{SideCheck, side_shown};
use crate::store_check::{StoreCheck, store_found};
use crate::writing::text_of;
use jf_disk::{Disk, MemDisk, Side};
use jf_io::{IoFailed, Sink, put_all};
use jf_join::Workers;
use jf_path::Memory;
use std::alloc::Global;
use std::thread::Threads;

// The calls on a disk in memory that a check makes: two to read each side, and six to judge both.
const CALLS: u64 = 10;

/// What two files show: each by itself, and what both represent.
#[derive(Clone, Copy, Debug, PartialEq, Eq)]
pub struct Check {
    pub a: SideCheck,
    pub b: SideCheck,
    pub store: StoreCheck,
}

/// Writes into a sink what the files `a.jf` and `b.jf` of a folder show, by their bytes; `None` is a file that is missing.
/// A line tells what each file shows by itself, and one what both represent, or where they are damaged first, as an
/// opening finds it (docs/FORMATS.md, "Checking files"). Returns the latter. The lines are made before any of them is
/// written. At most `workers` threads work on what the records spell; their number has no effect on the result.
pub fn check_files<H: Threads + Sync, K: Sink>(
    rt: &H,
    alloc: Global,
    a: Option<Vec<u8>>,
    b: Option<Vec<u8>>,
    workers: Workers,
    sink: &mut K,
) -> Result<StoreCheck, Unchecked>
    // After `Ok` the lines of what both files show were appended, and the result is what both represent; after
    // `WriteFault` a front of the lines.
    ensures written { WritesCheck result (option_map (λ v. v.items) a) (option_map (λ v. v.items) b) (K.text sink.old) (K.text sink.new) }
    // The result is never `DiskFault`.
    ensures unstopped { result ≢ Err Unchecked.DiskFault }
    // `WriteFault` comes only if the sink counted a fault, or its count is at its greatest.
    ensures cause { result ≡ Err Unchecked.WriteFault → HasCause (K.faults sink.old) (K.faults sink.new) }
    // After `Memory` the sink is as it was.
    ensures unwritten { result ≡ Err Unchecked.Memory → sink.new ≡ sink.old }
    // The sink's count of faults doesn't fall.
    ensures counts { K.faults sink.old ≤ K.faults sink.new }
{
    let check = check_of(rt, alloc, a, b, workers)?;
    let text = text_of(alloc, &check)?;
    match put_all(sink, text.as_slice()) {
        Ok(()) => Ok(check.store),
        Err(IoFailed) => Err(Unchecked::WriteFault),
    }
}

/// Writes into a sink what the two files of a disk show, as `check_files` does by their bytes. These are read by two calls a
/// side, its length and one read; a side that is missing gets none. No other call is made, and all of them are made before
/// anything is written.
pub fn check_disk<H: Threads + Sync, D: Disk, K: Sink>(
    rt: &H,
    alloc: Global,
    disk: &mut D,
    workers: Workers,
    sink: &mut K,
) -> Result<StoreCheck, Unchecked>
    // The lines of what the files show were written, as far as the result says: by the bytes that a read gives, if the history is
    // known, and by no bytes of a side that is missing.
    ensures written { ChecksDisk result (D.missing disk.old) (D.history disk.old) (K.text sink.old) (K.text sink.new) }
    // After `Ok`, if the history is known, the result is what the files that a read gives represent.
    ensures store { (h : History) → D.history disk.old ≡ Some h → IfOk result (IsStoreCheck (reads h)) }
    // A known history gains only states that are the same as the last one.
    ensures idle { (h : History) → D.history disk.old ≡ Some h → (g : History) × (D.history disk.new ≡ Some g) × Idles h g }
    // An unknown history stays unknown, no count of the disk falls, and `DiskFault` comes only if the disk counted a fault.
    ensures calls { CallsOn (D.history disk.old) (D.moment disk.old) (D.faults disk.old) (D.history disk.new) (D.moment disk.new) (D.faults disk.new) (result ≡ Err Unchecked.DiskFault) }
    // After every end but `DiskFault` the disk's count of faults is as it was.
    ensures calm { result ≢ Err Unchecked.DiskFault → D.faults disk.new ≡ D.faults disk.old }
    // At most four calls are made on the disk.
    ensures moments { D.moment disk.new ≤ D.moment disk.old + 4 }
    // `WriteFault` comes only if the sink counted a fault, or its count is at its greatest.
    ensures cause { result ≡ Err Unchecked.WriteFault → HasCause (K.faults sink.old) (K.faults sink.new) }
    // After `DiskFault` and `Memory` the sink is as it was.
    ensures unwritten { (result ≡ Err Unchecked.DiskFault) ⊎ (result ≡ Err Unchecked.Memory) → sink.new ≡ sink.old }
    // The sink's count of faults doesn't fall.
    ensures counts { K.faults sink.old ≤ K.faults sink.new }
{
    know_absent(disk);
    let DiskFiles { a, b } = files_of(alloc, disk)?;
    check_files(rt, alloc, a, b, workers, sink)
}

// What two files show.
fn check_of<H: Threads + Sync>(
    rt: &H,
    alloc: Global,
    a: Option<Vec<u8>>,
    b: Option<Vec<u8>>,
    workers: Workers,
) -> Result<Check, Memory>
    ensures { IfOk result (IsCheck (option_map (λ v. v.items) a) (option_map (λ v. v.items) b)) }
{
    let (a_there, b_there) = (side_of(&a, Side::A), side_of(&b, Side::B));
    let mut disk = disk_of(alloc, a, b)?;
    Ok(Check {
        a: shown_on(alloc, &mut disk, a_there)?,
        b: shown_on(alloc, &mut disk, b_there)?,
        store: store_found(rt, alloc, &mut disk, workers)?,
    })
}

// The side, if its file is there.
fn side_of(file: &Option<Vec<u8>>, side: Side) -> Option<Side>
    ensures { result ≡ option_map (λ _. side) file.now }
{
    match file {
        Some(_) => Some(side),
        None => None,
    }
}

// A disk in memory over two files. A missing one is an empty side.
fn disk_of(alloc: Global, a: Option<Vec<u8>>, b: Option<Vec<u8>>) -> Result<MemDisk, Memory>
    ensures { IfOk result (λ d. history_of d ≡ start (files_found (option_map (λ v. v.items) a) (option_map (λ v. v.items) b))) }
{
    let (a, b) = (bytes_found(alloc, a), bytes_found(alloc, b));
    MemDisk::new(alloc, a, b, CALLS, 0, Vec::new(alloc))
}

// The bytes of a file; a missing one has none.
fn bytes_found(alloc: Global, file: Option<Vec<u8>>) -> Vec<u8>
    ensures { result.items ≡ bytes_found (option_map (λ v. v.items) file) }
{
    match file {
        Some(bytes) => bytes,
        None => Vec::new(alloc),
    }
}

// What the file on a side of a disk shows; without a side there is no such file.
fn shown_on(alloc: Global, disk: &mut MemDisk, there: Option<Side>) -> Result<SideCheck, Memory>
    ensures shown { IfOk result (λ c. c ≡ side_shown (option_map (λ side. (content_on side (history_of disk.old).now).bytes) there)) }
    ensures unchanged { (history_of disk.new).now ≡ (history_of disk.old).now }
{
    match there {
        Some(side) => side_shown(alloc, disk, side),
        None => Ok(SideCheck::Absent),
    }
}
