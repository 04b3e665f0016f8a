// A checkpoint is the first and only record of its side when it is written.
ghost use Rattle.std.specs.Prelude.{◌≡◌, ◌⊎◌, ◌↔◌, ◌+◌, ◌≤◌, ℕ, List, [], ◌∷◌, length, true, false, Some, Ok, OnOk, IsErr};
ghost use Rattle.jf_disk.specs.Disk.{History, CallsOn, bytes_of, content_on, durable};
ghost use Rattle.jf_disk.specs.Crashes.{GoesOn, KeepsOther};
ghost use Rattle.jf_frame.specs.Framing.{records, IsFrame};
ghost use Rattle.jf_frame.specs.Logs.{IsReady, SameOrNone, appended_record};

use jf_disk::Disk;
use jf_frame::{DiskFault, Log};

/// Begins a side, and appends its first record.
pub(crate) fn write_first<D: Disk>(
    disk: &mut D,
    log: &mut Log,
    frame: &[u8],
) -> Result<(), DiskFault>
    requires framed { (kind : ℕ) × (payload : List ℕ) × IsFrame frame.now kind payload }
    requires sound { log.old.failed ≡ false }
    requires quiet { (h : History) → D.history disk.old ≡ Some h → content_on log.old.side h.now ≡ durable (content_on log.old.side h.now).bytes }
    ensures ok { (h : History) (kind : ℕ) (payload : List ℕ) → D.history disk.old ≡ Some h → IsFrame frame.now kind payload
        → OnOk result ((g : History) × (D.history disk.new ≡ Some g) × IsReady log.old.side log.new.offset (appended_record 0 kind payload ∷ []) g.now) }
    ensures written { (h : History) → D.history disk.old ≡ Some h
        → OnOk result ((g : History) × (D.history disk.new ≡ Some g) × ((content_on log.old.side g.now).bytes ≡ 1 ∷ frame.now)) }
    ensures stop { (h : History) (kind : ℕ) (payload : List ℕ) → D.history disk.old ≡ Some h → IsFrame frame.now kind payload
        → (g : History) × (D.history disk.new ≡ Some g)
        × GoesOn h g (λ f. SameOrNone log.old.side (content_on log.old.side h.now).bytes f ⊎ (records (bytes_of log.old.side f) ≡ Ok (appended_record 0 kind payload ∷ []))) × KeepsOther log.old.side h g }
    ensures offset { OnOk result (log.new.offset ≡ length frame.now) }
    ensures elapsed { OnOk result (D.moment disk.old + 4 ≤ D.moment disk.new) }
    ensures side { log.new.side ≡ log.old.side }
    ensures failed { (log.new.failed ≡ true) ↔ IsErr result }
    ensures calls { CallsOn (D.history disk.old) (D.moment disk.old) (D.faults disk.old) (D.history disk.new) (D.moment disk.new) (D.faults disk.new) (IsErr result) }
    ensures calm { OnOk result (D.faults disk.new ≡ D.faults disk.old) }
    ensures moments { D.moment disk.new ≤ D.moment disk.old + 10 }
{
    log.begin(disk)?;
    log.append(disk, frame)
}
