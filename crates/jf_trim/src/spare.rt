// The side that isn't live is the one that takes the next checkpoint.
ghost use Rattle.std.specs.Prelude.{◌≡◌, ◌+◌, ◌≤◌, ℕ, List, Some, Err, IfOk, OnOk};
ghost use Rattle.jf_disk.specs.Disk.{History, CallsOn, reads};
ghost use Rattle.jf_disk.specs.Crashes.{LeavesFiles, opposite};
ghost use Rattle.jf_disk.specs.declared.side.Side.{Side};
ghost use Rattle.jf_frame.specs.Framed.{LogRecord};
ghost use Rattle.jf_pair.specs.Files.{HoldsLive, outer_damage};
ghost use Rattle.jf_trim.specs.Trims.{IsSpareIn, spare_side};

use jf_disk::{Disk, Side};
use jf_pair::{Pair, PairFault};
use std::alloc::Global;

/// The side that isn't live. Both sides are synced and read, and unchanged.
pub(crate) fn find_spare<D: Disk>(alloc: Global, disk: &mut D) -> Result<Side, PairFault>
    ensures found { (h : History) → D.history disk.old ≡ Some h → IfOk result (λ w. w ≡ spare_side (reads h)) }
    ensures at_rest { (h : History) → D.history disk.old ≡ Some h → IfOk result (λ w. (rs : List LogRecord) × (m : History) × (D.history disk.new ≡ Some m) × IsSpareIn w rs m.now × HoldsLive (reads h) rs) }
    ensures damaged { (h : History) (side : Side) (at : ℕ) → D.history disk.old ≡ Some h → result ≡ Err (PairFault.Damaged side at) → outer_damage (reads h) ≡ Some (side, at) }
    ensures left { (h : History) → D.history disk.old ≡ Some h → (g : History) × (D.history disk.new ≡ Some g) × LeavesFiles h g }
    ensures calls { CallsOn (D.history disk.old) (D.moment disk.old) (D.faults disk.old) (D.history disk.new) (D.moment disk.new) (D.faults disk.new) (result ≡ Err PairFault.DiskFault) }
    ensures calm { OnOk result (D.faults disk.new ≡ D.faults disk.old) }
    ensures elapsed { OnOk result (D.moment disk.new ≡ D.moment disk.old + 6) }
    ensures moments { D.moment disk.new ≤ D.moment disk.old + 6 }
{
    let (pair, _) = Pair::open(alloc, disk)?;
    Ok(across(pair.side()))
}

/// The other side.
fn across(side: Side) -> Side
    ensures { result ≡ opposite side }
{
    match side {
        Side::A => Side::B,
        Side::B => Side::A,
    }
}
