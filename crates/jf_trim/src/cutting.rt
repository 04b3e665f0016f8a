// A side is cut as the first half of a checkpoint cuts it: its first gate is closed, and then it ends there.
ghost use Rattle.std.specs.Prelude.{◌≡◌, ◌⊎◌, ◌+◌, ◌<◌, ◌≤◌, ℕ, length, take, false, Some, Err, IfOk, OnOk};
ghost use Rattle.jf_disk.specs.Disk.{History, CallsOn, content_on, durable};
ghost use Rattle.jf_disk.specs.Crashes.{Idles};
ghost use Rattle.jf_disk.specs.declared.side.Side.{Side};
ghost use Rattle.jf_frame.specs.Framing.{records};
ghost use Rattle.jf_frame.specs.Logs.{StopsInBegin, with_closed};
ghost use Rattle.jf_pair.specs.declared.fault.PairFault.{PairFault};
ghost use Rattle.jf_trim.specs.Trims.{trimmed_side};

use jf_disk::{Disk, Side, know_counts};
use jf_frame::{FrameFault, Log};
use jf_pair::PairFault;
use std::alloc::Global;

/// Cuts a side down to its closed gate, unless it has at most one byte. Returns by how many bytes it is shorter.
pub(crate) fn cut_side<D: Disk>(alloc: Global, disk: &mut D, side: Side) -> Result<u64, PairFault>
    requires { (h : History) → D.history disk.old ≡ Some h → content_on side h.now ≡ durable (content_on side h.now).bytes }
    ensures cut { (h : History) → D.history disk.old ≡ Some h
        → IfOk result (λ n. (g : History) × (D.history disk.new ≡ Some g) × (content_on side g.now ≡ durable (trimmed_side (content_on side h.now).bytes)) × (n + length (trimmed_side (content_on side h.now).bytes) ≡ length (content_on side h.now).bytes)) }
    ensures stop { (h : History) → D.history disk.old ≡ Some h → (g : History) × (D.history disk.new ≡ Some g) × StopsInBegin side h g }
    ensures damaged { (h : History) (where_ : Side) (at : ℕ) → D.history disk.old ≡ Some h → result ≡ Err (PairFault.Damaged where_ at) → records (content_on side h.now).bytes ≡ Err at }
    ensures err { (h : History) (why : PairFault) → D.history disk.old ≡ Some h → result ≡ Err why → (why ≡ PairFault.DiskFault) ⊎ ((g : History) × (D.history disk.new ≡ Some g) × Idles h g) }
    ensures uncut { (h : History) → D.history disk.old ≡ Some h → IfOk result (λ n. n ≡ 0 → (g : History) × (D.history disk.new ≡ Some g) × Idles h g) }
    ensures elapsed { IfOk result (λ n. n ≡ 0 → D.moment disk.new ≡ D.moment disk.old + 1) }
    ensures calls { CallsOn (D.history disk.old) (D.moment disk.old) (D.faults disk.old) (D.history disk.new) (D.moment disk.new) (D.faults disk.new) (result ≡ Err PairFault.DiskFault) }
    ensures calm { OnOk result (D.faults disk.new ≡ D.faults disk.old) }
    ensures moments { D.moment disk.new ≤ D.moment disk.old + 9 }
{
    know_counts(disk);
    let size = disk.len(side)?;
    if size <= 1 {
        return Ok(0);
    }
    cut_to_gate(alloc, disk, side)?;
    Ok(size - 1)
}

/// Closes the first gate of a side that has bytes after it, and cuts the side down to that gate.
fn cut_to_gate<D: Disk>(alloc: Global, disk: &mut D, side: Side) -> Result<(), PairFault>
    requires { (h : History) → D.history disk.old ≡ Some h → content_on side h.now ≡ durable (content_on side h.now).bytes }
    ensures cut { (h : History) → D.history disk.old ≡ Some h
        → OnOk result ((g : History) × (D.history disk.new ≡ Some g) × (content_on side g.now ≡ durable (take 1 (with_closed (content_on side h.now).bytes)))) }
    ensures stop { (h : History) → D.history disk.old ≡ Some h → (g : History) × (D.history disk.new ≡ Some g) × StopsInBegin side h g }
    ensures damaged { (h : History) (where_ : Side) (at : ℕ) → D.history disk.old ≡ Some h → result ≡ Err (PairFault.Damaged where_ at) → records (content_on side h.now).bytes ≡ Err at }
    ensures err { (h : History) (why : PairFault) → D.history disk.old ≡ Some h → result ≡ Err why → (why ≡ PairFault.DiskFault) ⊎ ((g : History) × (D.history disk.new ≡ Some g) × Idles h g) }
    ensures calls { CallsOn (D.history disk.old) (D.moment disk.old) (D.faults disk.old) (D.history disk.new) (D.moment disk.new) (D.faults disk.new) (result ≡ Err PairFault.DiskFault) }
    ensures calm { OnOk result (D.faults disk.new ≡ D.faults disk.old) }
    ensures moments { D.moment disk.new ≤ D.moment disk.old + 8 }
{
    let mut log = read_side(alloc, disk, side)?;
    log.begin(disk)?;
    Ok(())
}

/// The log of a side.
fn read_side<D: Disk>(alloc: Global, disk: &mut D, side: Side) -> Result<Log, PairFault>
    ensures fresh { IfOk result (λ log. (log.side ≡ side) × (log.failed ≡ false)) }
    ensures damaged { (h : History) (where_ : Side) (at : ℕ) → D.history disk.old ≡ Some h → result ≡ Err (PairFault.Damaged where_ at) → records (content_on side h.now).bytes ≡ Err at }
    ensures idle { (h : History) → D.history disk.old ≡ Some h → (g : History) × (D.history disk.new ≡ Some g) × Idles h g }
    ensures calls { CallsOn (D.history disk.old) (D.moment disk.old) (D.faults disk.old) (D.history disk.new) (D.moment disk.new) (D.faults disk.new) (result ≡ Err PairFault.DiskFault) }
    ensures calm { OnOk result (D.faults disk.new ≡ D.faults disk.old) }
    ensures moments { D.moment disk.new ≤ D.moment disk.old + 2 }
{
    match Log::read_all(alloc, disk, side) {
        Ok(log) => Ok(log),
        Err(FrameFault::DiskFault) => Err(PairFault::DiskFault),
        Err(FrameFault::Damaged(offset)) => Err(PairFault::Damaged { side, offset }),
        Err(FrameFault::Memory) => Err(PairFault::Memory),
    }
}
