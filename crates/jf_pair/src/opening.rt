// Opening syncs both sides before it reads them, so that a later crash leaves what was read.
ghost use Rattle.std.specs.Prelude.{◌≡◌, ◌+◌, ◌≤◌, false, Some, Err, IfOk, OnOk, IsErr, ℕ};
ghost use Rattle.jf_disk.specs.Disk.{History, CallsOn, content_on, durable, reads};
ghost use Rattle.jf_disk.specs.Crashes.{LeavesFiles, Idles};
ghost use Rattle.jf_disk.specs.declared.side.Side.{Side};
ghost use Rattle.jf_frame.specs.Framing.{records};
ghost use Rattle.jf_frame.specs.Logs.{IsReading};
ghost use Rattle.jf_pair.specs.Files.{outer_damage};

use crate::fault::PairFault;
use jf_disk::{Disk, Side, know_counts, know_readable};
use jf_frame::{DiskFault, FrameFault, Log};
use std::alloc::Global;

/// The logs of both sides.
pub(crate) struct Sides {
    pub a: Log,
    pub b: Log,
}

/// Syncs both sides, and reads their records.
pub(crate) fn read_sides<D: Disk>(alloc: Global, disk: &mut D) -> Result<Sides, PairFault>
    ensures fresh { IfOk result (λ s. (s.a.side ≡ Side.A) × (s.b.side ≡ Side.B) × (s.a.failed ≡ false) × (s.b.failed ≡ false)) }
    ensures read { (h : History) → D.history disk.old ≡ Some h → IfOk result (λ s. IsReading s.a Side.A h.now.a.bytes × IsReading s.b Side.B h.now.b.bytes) }
    ensures quiet { (h : History) → D.history disk.old ≡ Some h → OnOk result ((g : History) × (D.history disk.new ≡ Some g) × (g.now.a ≡ durable h.now.a.bytes) × (g.now.b ≡ durable h.now.b.bytes)) }
    ensures damaged { (h : History) (side : Side) (at : ℕ) → D.history disk.old ≡ Some h → result ≡ Err (PairFault.Damaged side at) → outer_damage (reads h) ≡ Some (side, at) }
    ensures left { (h : History) → D.history disk.old ≡ Some h → (g : History) × (D.history disk.new ≡ Some g) × LeavesFiles h g }
    ensures calls { CallsOn (D.history disk.old) (D.moment disk.old) (D.faults disk.old) (D.history disk.new) (D.moment disk.new) (D.faults disk.new) (result ≡ Err PairFault.DiskFault) }
    ensures calm { OnOk result (D.faults disk.new ≡ D.faults disk.old) }
    ensures elapsed { OnOk result (D.moment disk.new ≡ D.moment disk.old + 6) }
    ensures moments { D.moment disk.new ≤ D.moment disk.old + 6 }
{
    sync_sides(disk)?;
    let a = read_side(alloc, disk, Side::A)?;
    let b = read_side(alloc, disk, Side::B)?;
    Ok(Sides { a, b })
}

/// Syncs side A, then side B.
fn sync_sides<D: Disk>(disk: &mut D) -> Result<(), DiskFault>
    ensures quiet { (h : History) → D.history disk.old ≡ Some h → OnOk result ((g : History) × (D.history disk.new ≡ Some g) × (g.now.a ≡ durable h.now.a.bytes) × (g.now.b ≡ durable h.now.b.bytes)) }
    ensures left { (h : History) → D.history disk.old ≡ Some h → (g : History) × (D.history disk.new ≡ Some g) × LeavesFiles h g }
    ensures calls { CallsOn (D.history disk.old) (D.moment disk.old) (D.faults disk.old) (D.history disk.new) (D.moment disk.new) (D.faults disk.new) (IsErr result) }
    ensures calm { OnOk result (D.faults disk.new ≡ D.faults disk.old) }
    ensures elapsed { OnOk result (D.moment disk.new ≡ D.moment disk.old + 2) }
    ensures moments { D.moment disk.new ≤ D.moment disk.old + 2 }
{
    know_counts(disk);
    know_readable(disk);
    disk.sync(Side::A)?;
    know_readable(disk);
    disk.sync(Side::B)?;
    Ok(())
}

/// Reads the records of a side. Damage is reported with the side.
fn read_side<D: Disk>(alloc: Global, disk: &mut D, side: Side) -> Result<Log, PairFault>
    ensures fresh { IfOk result (λ log. (log.side ≡ side) × (log.failed ≡ false)) }
    ensures read { (h : History) → D.history disk.old ≡ Some h → IfOk result (λ log. IsReading log side (content_on side h.now).bytes) }
    ensures damaged { (h : History) (s : Side) (at : ℕ) → D.history disk.old ≡ Some h → result ≡ Err (PairFault.Damaged s at) → (s ≡ side) × (records (content_on side h.now).bytes ≡ Err at) }
    ensures idle { (h : History) → D.history disk.old ≡ Some h → (g : History) × (D.history disk.new ≡ Some g) × Idles h g }
    ensures calls { CallsOn (D.history disk.old) (D.moment disk.old) (D.faults disk.old) (D.history disk.new) (D.moment disk.new) (D.faults disk.new) (result ≡ Err PairFault.DiskFault) }
    ensures calm { OnOk result (D.faults disk.new ≡ D.faults disk.old) }
    ensures elapsed { OnOk result (D.moment disk.new ≡ D.moment disk.old + 2) }
    ensures moments { D.moment disk.new ≤ D.moment disk.old + 2 }
{
    match Log::read_all(alloc, disk, side) {
        Ok(log) => Ok(log),
        Err(FrameFault::DiskFault) => Err(PairFault::DiskFault),
        Err(FrameFault::Damaged(offset)) => Err(PairFault::Damaged { side, offset }),
        Err(FrameFault::Memory) => Err(PairFault::Memory),
    }
}
