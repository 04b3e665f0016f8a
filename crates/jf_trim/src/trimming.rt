// A store is trimmed: the side that isn't live is cut down to its closed gate.
ghost use Rattle.std.specs.Prelude.{◌≡◌, ◌⊎◌, ◌+◌, ◌≤◌, ℕ, Some, Err, IfOk, OnOk};
ghost use Rattle.jf_disk.specs.Disk.{History, CallsOn, reads};
ghost use Rattle.jf_disk.specs.Crashes.{LeavesFiles};
ghost use Rattle.jf_disk.specs.declared.side.Side.{Side};
ghost use Rattle.jf_pair.specs.Files.{outer_damage};
ghost use Rattle.jf_pair.specs.declared.fault.PairFault.{PairFault};
ghost use Rattle.jf_trim.specs.Trims.{HasTrimmed, KeepsStore};

use crate::cutting::cut_side;
use crate::spare::find_spare;
use crate::trimmed::Trimmed;
use jf_disk::{Disk, know_readable};
use jf_pair::PairFault;
use std::alloc::Global;

/// Cuts the side of a disk that isn't live down to its closed gate, as the first half of a checkpoint does
/// (docs/FORMATS.md, "How the files are written"). A side of at most one byte is short already, and unchanged. Both sides are
/// synced and read first, which takes memory for the bytes of both.
///
/// Whatever it returns, the files still represent the same versions, also after a crash at any moment of the call:
///
/// - `Damaged`: the files hold no live records. It gives the first place of damage. The files are unchanged.
/// - `DiskFault`: a call on the disk failed. The side that isn't live has its bytes, or is cut, or anything between.
/// - `Memory`: memory ran out. The files are unchanged.
pub fn trim<D: Disk>(alloc: Global, disk: &mut D) -> Result<Trimmed, PairFault>
    // After `Ok`, if the history is known, the side that isn't live is cut to its gate, and a crash leaves what a read gives.
    ensures trimmed { (h : History) → D.history disk.old ≡ Some h → IfOk result (λ t. (g : History) × (D.history disk.new ≡ Some g) × HasTrimmed t h g) }
    // If the history is known, versions, generation and live side stay; a crash leaves those versions or what it could before.
    ensures kept { (h : History) → D.history disk.old ≡ Some h → (g : History) × (D.history disk.new ≡ Some g) × KeepsStore h g }
    // `Damaged` gives the first place of damage of the files, if the history is known.
    ensures damaged { (h : History) (side : Side) (at : ℕ) → D.history disk.old ≡ Some h → result ≡ Err (PairFault.Damaged side at) → outer_damage (reads h) ≡ Some (side, at) }
    // After a refusal other than `DiskFault`, if the history is known, the files are unchanged.
    ensures err { (h : History) (why : PairFault) → D.history disk.old ≡ Some h → result ≡ Err why → (why ≡ PairFault.DiskFault) ⊎ ((g : History) × (D.history disk.new ≡ Some g) × LeavesFiles h g) }
    // After `Ok` with no bytes given back, the moment is later by exactly 7.
    ensures elapsed { IfOk result (λ t. t.bytes ≡ 0 → D.moment disk.new ≡ D.moment disk.old + 7) }
    // An unknown history stays unknown, neither moment nor count of faults falls, and a `DiskFault` is counted.
    ensures calls { CallsOn (D.history disk.old) (D.moment disk.old) (D.faults disk.old) (D.history disk.new) (D.moment disk.new) (D.faults disk.new) (result ≡ Err PairFault.DiskFault) }
    // After `Ok` the count of faults is unchanged.
    ensures calm { OnOk result (D.faults disk.new ≡ D.faults disk.old) }
    // The moment rises by at most 15.
    ensures moments { D.moment disk.new ≤ D.moment disk.old + 15 }
{
    let side = find_spare(alloc, disk)?;
    let cut = cut_side(alloc, disk, side);
    know_readable(disk);
    Ok(Trimmed { side, bytes: cut? })
}
