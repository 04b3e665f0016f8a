// A pair of files: checkpoints alternate between them, so that one is whole while the other is written anew.
ghost use Rattle.std.specs.Prelude.{◌≡◌, ◌↔◌, ◌+◌, ◌<◌, ◌≤◌, ℕ, List, [], ◌∷◌, ◌++◌, length, true, false, Some, None, Err, IfOk, IfSome, OnOk, OnErr, IsErr};
ghost use Rattle.jf_disk.specs.Disk.{History, CallsOn, content_on, reads, put_at};
ghost use Rattle.jf_disk.specs.Crashes.{LeavesFiles, KeepsOther, opposite};
ghost use Rattle.jf_disk.specs.declared.side.Side.{Side};
ghost use Rattle.jf_frame.specs.Framed.{LogRecord};
ghost use Rattle.jf_frame.specs.Framing.{IsFrame, number_of};
ghost use Rattle.jf_frame.specs.Logs.{appended_record};
ghost use Rattle.jf_pair.specs.Files.{HoldsLive, is_begun, is_checkpoint, generation_of, outer_damage};
ghost use Rattle.jf_pair.specs.Pairs.{IsInStep, StopsBetween, log_records};

use crate::checkpoint::write_first;
use crate::fault::PairFault;
use crate::judging::judge;
use crate::opening::{Sides, read_sides};
use jf_disk::{Disk, Side};
use jf_frame::{DiskFault, Log};
use std::alloc::Global;
use std::marker::Model;
use std::mem::swap;

/// The two gated files of a disk. Once there is a checkpoint, one of them is live; the other takes the next
/// checkpoint. A checkpoint is a record of kind 4 or 5 whose payload begins with its generation, 8 bytes, the highest
/// first (docs/FORMATS.md, "Two files of records").
#[derive(Debug, Drop)]
pub struct Pair {
    live: Log,
    other: Log,
    is_live: bool,
}

impl Model for Pair {
    ghost use Rattle.std.specs.Prelude.{◌≡◌, ◌||◌};
    ghost use Rattle.jf_disk.specs.Crashes.{opposite};
    ghost use Rattle.jf_pair.specs.Pairs.{Pair};

    ghost Value = { Pair };

    ghost view = { λ p. record { side = p.live.side; is_live = p.is_live; offset = p.live.offset; failed = p.live.failed || p.other.failed } };

    ghost invariant = { λ p. p.other.side ≡ opposite p.live.side };
}

impl Pair {
    /// Syncs both sides and reads them. Returns the pair, and the live log with its records; `None` if neither side
    /// holds a record, and the first checkpoint then goes to side A. Refused if the disk fails, if the files are
    /// damaged, or if memory runs out. Whatever it returns, the files are unchanged.
    pub fn open<D: Disk>(alloc: Global, disk: &mut D) -> Result<(Pair, Option<Log>), PairFault>
        ensures in_step { (h : History) → D.history disk.old ≡ Some h → IfOk result (λ r. (g : History) × (D.history disk.new ≡ Some g) × IsInStep r.0 (log_records r.1) g.now) }
        ensures found { (h : History) → D.history disk.old ≡ Some h → IfOk result (λ r. HoldsLive (reads h) (log_records r.1)) }
        ensures given { IfOk result (λ r. (r.1 ≡ None) ↔ (r.0.is_live ≡ false)) }
        ensures first { IfOk result (λ r. r.0.is_live ≡ false → r.0.side ≡ Side.B) }
        ensures sound { IfOk result (λ r. r.0.failed ≡ false) }
        ensures log { IfOk result (λ r. IfSome r.1 (λ log. (log.side ≡ r.0.side) × (log.offset ≡ r.0.offset) × (log.failed ≡ false))) }
        ensures begun { IfOk result (λ r. IfSome r.1 (λ log. (is_begun log.records ≡ true) × (0 < length log.records))) }
        ensures damaged { (h : History) (side : Side) (at : ℕ) → D.history disk.old ≡ Some h → result ≡ Err (PairFault.Damaged side at) → outer_damage (reads h) ≡ Some (side, at) }
        ensures left { (h : History) → D.history disk.old ≡ Some h → (g : History) × (D.history disk.new ≡ Some g) × LeavesFiles h g }
        ensures calls { CallsOn (D.history disk.old) (D.moment disk.old) (D.faults disk.old) (D.history disk.new) (D.moment disk.new) (D.faults disk.new) (result ≡ Err PairFault.DiskFault) }
        ensures calm { OnOk result (D.faults disk.new ≡ D.faults disk.old) }
        ensures elapsed { OnOk result (D.moment disk.new ≡ D.moment disk.old + 6) }
        ensures moments { D.moment disk.new ≤ D.moment disk.old + 6 }
    {
        let Sides { a, b } = read_sides(alloc, disk)?;
        match judge(&a, &b)? {
            Side::A => Ok(pair_of(alloc, a, b)),
            Side::B => Ok(pair_of(alloc, b, a)),
        }
    }

    /// Adds a record, given as a whole frame, to the live side, by four calls on the disk. After a fault the pair is
    /// failed: the live records are those before, with the new one or without it, and only a new opening shows which.
    pub fn append<D: Disk>(&mut self, disk: &mut D, frame: &[u8]) -> Result<(), DiskFault>
        requires framed { (kind : ℕ) × (payload : List ℕ) × IsFrame frame.now kind payload }
        requires sound { self.old.failed ≡ false }
        requires live { self.old.is_live ≡ true }
        requires in_step { (h : History) → D.history disk.old ≡ Some h → (rs : List LogRecord) × IsInStep self.old rs h.now }
        ensures ok { (h : History) (rs : List LogRecord) (kind : ℕ) (payload : List ℕ) → D.history disk.old ≡ Some h → IsInStep self.old rs h.now → IsFrame frame.now kind payload
            → OnOk result ((g : History) × (D.history disk.new ≡ Some g) × IsInStep self.new (rs ++ appended_record self.old.offset kind payload ∷ []) g.now) }
        ensures written { (h : History) (rs : List LogRecord) → D.history disk.old ≡ Some h → IsInStep self.old rs h.now
            → OnOk result ((g : History) × (D.history disk.new ≡ Some g) × ((content_on self.old.side g.now).bytes ≡ put_at self.old.offset (1 ∷ frame.now) (content_on self.old.side h.now).bytes)) }
        ensures stop { (h : History) (rs : List LogRecord) (kind : ℕ) (payload : List ℕ) → D.history disk.old ≡ Some h → IsInStep self.old rs h.now → IsFrame frame.now kind payload
            → (g : History) × (D.history disk.new ≡ Some g) × StopsBetween h g rs (rs ++ appended_record self.old.offset kind payload ∷ []) }
        ensures other { (h : History) (rs : List LogRecord) → D.history disk.old ≡ Some h → IsInStep self.old rs h.now → (g : History) × (D.history disk.new ≡ Some g) × KeepsOther self.old.side h g }
        ensures offset { OnOk result (self.new.offset ≡ self.old.offset + length frame.now) }
        ensures elapsed { OnOk result (D.moment disk.new ≡ D.moment disk.old + 4) }
        ensures rest { (self.new.side ≡ self.old.side) × (self.new.is_live ≡ self.old.is_live) }
        ensures failed { (self.new.failed ≡ true) ↔ IsErr result }
        ensures err { OnErr result (self.new ≡ record self.old { failed = true }) }
        ensures calls { CallsOn (D.history disk.old) (D.moment disk.old) (D.faults disk.old) (D.history disk.new) (D.moment disk.new) (D.faults disk.new) (IsErr result) }
        ensures calm { OnOk result (D.faults disk.new ≡ D.faults disk.old) }
        ensures moments { D.moment disk.new ≤ D.moment disk.old + 4 }
    {
        self.live.append(disk, frame)
    }

    /// Begins the other side and writes a checkpoint there, given as a whole frame, of a greater generation if a side
    /// is live. The other side is then live, with this one record, and the side that was live is unchanged. If no side
    /// was live, this is the first checkpoint. After a fault the pair is failed: the live records are those before, or
    /// the checkpoint alone, and only a new opening shows which.
    pub fn switch<D: Disk>(&mut self, disk: &mut D, frame: &[u8]) -> Result<(), DiskFault>
        requires framed { (kind : ℕ) × (payload : List ℕ) × IsFrame frame.now kind payload }
        requires checkpoint { (kind : ℕ) (payload : List ℕ) → IsFrame frame.now kind payload → (is_checkpoint kind ≡ true) × (8 ≤ length payload) }
        requires sound { self.old.failed ≡ false }
        requires in_step { (h : History) → D.history disk.old ≡ Some h → (rs : List LogRecord) × IsInStep self.old rs h.now }
        requires newer { (h : History) (rs : List LogRecord) (kind : ℕ) (payload : List ℕ) → D.history disk.old ≡ Some h → IsInStep self.old rs h.now → IsFrame frame.now kind payload → self.old.is_live ≡ true → generation_of rs < number_of payload }
        ensures ok { (h : History) (kind : ℕ) (payload : List ℕ) → D.history disk.old ≡ Some h → IsFrame frame.now kind payload
            → OnOk result ((g : History) × (D.history disk.new ≡ Some g) × IsInStep self.new (appended_record 0 kind payload ∷ []) g.now) }
        ensures written { (h : History) → D.history disk.old ≡ Some h → OnOk result ((g : History) × (D.history disk.new ≡ Some g) × ((content_on self.new.side g.now).bytes ≡ 1 ∷ frame.now)) }
        ensures stop { (h : History) (rs : List LogRecord) (kind : ℕ) (payload : List ℕ) → D.history disk.old ≡ Some h → IsInStep self.old rs h.now → IsFrame frame.now kind payload
            → (g : History) × (D.history disk.new ≡ Some g) × StopsBetween h g rs (appended_record 0 kind payload ∷ []) }
        ensures other { (h : History) → D.history disk.old ≡ Some h → (g : History) × (D.history disk.new ≡ Some g) × KeepsOther (opposite self.old.side) h g }
        ensures side { OnOk result ((self.new.side ≡ opposite self.old.side) × (self.new.is_live ≡ true)) }
        ensures offset { OnOk result (self.new.offset ≡ length frame.now) }
        ensures rest { IsErr result → (self.new.side ≡ self.old.side) × (self.new.is_live ≡ self.old.is_live) }
        ensures elapsed { OnOk result (D.moment disk.old + 4 ≤ D.moment disk.new) }
        ensures failed { (self.new.failed ≡ true) ↔ IsErr result }
        ensures err { OnErr result (self.new ≡ record self.old { failed = true }) }
        ensures calls { CallsOn (D.history disk.old) (D.moment disk.old) (D.faults disk.old) (D.history disk.new) (D.moment disk.new) (D.faults disk.new) (IsErr result) }
        ensures calm { OnOk result (D.faults disk.new ≡ D.faults disk.old) }
        ensures moments { D.moment disk.new ≤ D.moment disk.old + 10 }
    {
        write_first(disk, &mut self.other, frame)?;
        swap(&mut self.live, &mut self.other);
        self.is_live = true;
        Ok(())
    }

    /// The live side, if a side is live. The next checkpoint goes to the other one.
    pub fn side(&self) -> Side
        ensures { result ≡ self.now.side }
    {
        self.live.side()
    }

    /// Whether a side is live: a checkpoint was found or written.
    pub fn is_live(&self) -> bool
        ensures { result ≡ self.now.is_live }
    {
        self.is_live
    }

    /// Whether an earlier call met a fault of the disk.
    pub fn has_failed(&self) -> bool
        ensures { result ≡ self.now.failed }
    {
        self.live.has_failed() || self.other.has_failed()
    }
}

/// The pair of the live log and the other one, and the live log with its records if it has any.
fn pair_of(alloc: Global, live: Log, other: Log) -> (Pair, Option<Log>)
    requires across { other.side ≡ opposite live.side }
    requires live { live.failed ≡ false }
    requires other { other.failed ≡ false }
    ensures side { result.0.side ≡ live.side }
    ensures offset { result.0.offset ≡ live.offset }
    ensures sound { result.0.failed ≡ false }
    ensures records { log_records result.1 ≡ live.records }
    ensures live { (result.0.is_live ≡ true) ↔ (0 < length live.records) }
    ensures given { (result.1 ≡ None) ↔ (result.0.is_live ≡ false) }
    ensures log { IfSome result.1 (λ log. (log ≡ live) × (0 < length log.records)) }
{
    let is_live = live.count() > 0;
    let pair = Pair {
        live: live.without_records(alloc),
        other: other.without_records(alloc),
        is_live,
    };
    if is_live {
        (pair, Some(live))
    } else {
        (pair, None)
    }
}
