// The bytes of a disk's two files, by the fewest calls.
ghost use Rattle.std.specs.Prelude.{◌≡◌, ◌≢◌, ℕ, Bool, ◌+◌, ◌≤◌, ◌^◌, length, take, true, [], Some, Err, IfOk, OnOk, IsErr, option_map};
ghost use Rattle.jf_disk.specs.Disk.{History, CallsOn, content_on};
ghost use Rattle.jf_disk.specs.Crashes.{Idles};
ghost use Rattle.jf_disk.specs.declared.side.Side.{Side};
ghost use Rattle.jf_check.specs.Reading.{AreFilesOf, IsFileOf};

use crate::fault::Unchecked;
use jf_disk::{Disk, DiskFailed, Side, know_counts};
use std::alloc::Global;

// The bytes of a disk's two files; `None` is a file that is missing.
pub(crate) struct DiskFiles {
    pub a: Option<Vec<u8>>,
    pub b: Option<Vec<u8>>,
}

// The bytes of the files on both sides of a disk. Of a side that is missing nothing is read.
pub(crate) fn files_of<D: Disk>(alloc: Global, disk: &mut D) -> Result<DiskFiles, Unchecked>
    ensures found { IfOk result (λ f. AreFilesOf (D.missing disk.old) (D.history disk.old) (option_map (λ v. v.items) f.a) (option_map (λ v. v.items) f.b)) }
    ensures unstopped { result ≢ Err Unchecked.WriteFault }
    ensures idle { (h : History) → D.history disk.old ≡ Some h → (g : History) × (D.history disk.new ≡ Some g) × Idles h g }
    ensures calls { CallsOn (D.history disk.old) (D.moment disk.old) (D.faults disk.old) (D.history disk.new) (D.moment disk.new) (D.faults disk.new) (result ≡ Err Unchecked.DiskFault) }
    ensures calm { result ≢ Err Unchecked.DiskFault → D.faults disk.new ≡ D.faults disk.old }
    ensures moments { D.moment disk.new ≤ D.moment disk.old + 4 }
{
    let (a_missing, b_missing) = (disk.is_missing(Side::A), disk.is_missing(Side::B));
    Ok(DiskFiles {
        a: file_on(alloc, disk, Side::A, a_missing)?,
        b: file_on(alloc, disk, Side::B, b_missing)?,
    })
}

// The bytes of the file on a side, unless it is missing.
fn file_on<D: Disk>(
    alloc: Global,
    disk: &mut D,
    side: Side,
    missing: bool,
) -> Result<Option<Vec<u8>>, Unchecked>
    ensures found { IfOk result (λ f. IsFileOf (D.history disk.old) side missing (option_map (λ v. v.items) f)) }
    ensures unstopped { result ≢ Err Unchecked.WriteFault }
    ensures idle { (h : History) → D.history disk.old ≡ Some h → (g : History) × (D.history disk.new ≡ Some g) × Idles h g }
    ensures calls { CallsOn (D.history disk.old) (D.moment disk.old) (D.faults disk.old) (D.history disk.new) (D.moment disk.new) (D.faults disk.new) (result ≡ Err Unchecked.DiskFault) }
    ensures calm { result ≢ Err Unchecked.DiskFault → D.faults disk.new ≡ D.faults disk.old }
    ensures moments { D.moment disk.new ≤ D.moment disk.old + 2 }
{
    if missing {
        return Ok(None);
    }
    Ok(Some(bytes_on(alloc, disk, side)?))
}

// All bytes of a side. The memory for them is taken before the read.
fn bytes_on<D: Disk>(alloc: Global, disk: &mut D, side: Side) -> Result<Vec<u8>, Unchecked>
    ensures bytes { (h : History) → D.history disk.old ≡ Some h → IfOk result (λ v. v.items ≡ (content_on side h.now).bytes) }
    ensures unstopped { result ≢ Err Unchecked.WriteFault }
    ensures idle { (h : History) → D.history disk.old ≡ Some h → (g : History) × (D.history disk.new ≡ Some g) × Idles h g }
    ensures calls { CallsOn (D.history disk.old) (D.moment disk.old) (D.faults disk.old) (D.history disk.new) (D.moment disk.new) (D.faults disk.new) (result ≡ Err Unchecked.DiskFault) }
    ensures calm { result ≢ Err Unchecked.DiskFault → D.faults disk.new ≡ D.faults disk.old }
    ensures moments { D.moment disk.new ≤ D.moment disk.old + 2 }
{
    let size = length_on(disk, side)?;
    let mut bytes = vec![in alloc; 0; size as usize]?;
    let read = read_into(disk, side, &mut bytes)?;
    bytes.truncate(read);
    Ok(bytes)
}

// The number of bytes of a side.
fn length_on<D: Disk>(disk: &mut D, side: Side) -> Result<u64, DiskFailed>
    ensures length { (h : History) → D.history disk.old ≡ Some h → IfOk result (λ n. n ≡ length (content_on side h.now).bytes) }
    ensures bounded { IfOk result (λ n. n ≤ 2 ^ 62) }
    ensures idle { (h : History) → D.history disk.old ≡ Some h → (g : History) × (D.history disk.new ≡ Some g) × Idles h g }
    ensures calls { CallsOn (D.history disk.old) (D.moment disk.old) (D.faults disk.old) (D.history disk.new) (D.moment disk.new) (D.faults disk.new) (IsErr result) }
    ensures calm { OnOk result (D.faults disk.new ≡ D.faults disk.old) }
    ensures moments { D.moment disk.new ≤ D.moment disk.old + 1 }
{
    know_counts(disk);
    Ok(disk.len(side)?)
}

// Fills the front of `into` with a side's bytes, and returns how many they are.
fn read_into<D: Disk>(disk: &mut D, side: Side, into: &mut [u8]) -> Result<usize, DiskFailed>
    ensures within { IfOk result (λ n. n ≤ length into.new) }
    ensures bytes { (h : History) → D.history disk.old ≡ Some h → length into.old ≡ length (content_on side h.now).bytes → IfOk result (λ n. take n into.new ≡ (content_on side h.now).bytes) }
    ensures idle { (h : History) → D.history disk.old ≡ Some h → (g : History) × (D.history disk.new ≡ Some g) × Idles h g }
    ensures calls { CallsOn (D.history disk.old) (D.moment disk.old) (D.faults disk.old) (D.history disk.new) (D.moment disk.new) (D.faults disk.new) (IsErr result) }
    ensures calm { OnOk result (D.faults disk.new ≡ D.faults disk.old) }
    ensures moments { D.moment disk.new ≤ D.moment disk.old + 1 }
{
    know_counts(disk);
    Ok(disk.read(side, 0, into)?)
}

// A side without a file reads as one without bytes. This function does nothing when it runs.
pub(crate) fn know_absent<D: Disk>(disk: &D)
    ensures { (h : History) (where_ : Side) → D.history disk.now ≡ Some h → D.missing disk.now where_ ≡ true → (content_on where_ h.now).bytes ≡ [] }
{}
