// Opening the store that files hold already: none is initialised.
ghost use Rattle.std.specs.Prelude.{◌≡◌, ℕ, IfSome, IfOk, IfErr, IsErr, false};
ghost use Rattle.std.specs.Option.{ForSome};
ghost use Rattle.jf_disk.specs.Disk.{reads};
ghost use Rattle.jf_disk.specs.Crashes.{LeavesFiles};
ghost use Rattle.jf_disk.specs.declared.side.Side.{Side};
ghost use Rattle.jf_files.specs.Files.{IsDamagedAt};
ghost use Rattle.jf_engine.specs.Openings.{HasFoundExisting, HasRefused, OnHistories, disk_view, store_in};

use crate::engine::Engine;
use crate::fault::OpenRefused;
use crate::opening::{Sought, seek};
use jf_disk::Disk;
use jf_join::Workers;
use jf_path::Bytes;
use std::alloc::Global;
use std::thread::Threads;

/// What files that may hold a store were found to be.
#[derive(Drop)]
pub enum Existing<D: Disk> {
    /// The store that the files hold.
    Store(Engine<D>),
    /// Neither side holds a record. The disk is handed back, its files unchanged.
    Absent(D),
}

impl<D: Disk> Engine<D> {
    /// Opens the store that the two files of a disk hold, as `open` does, but begins none: if neither side holds a
    /// record, the disk is handed back. The files are unchanged, whatever is returned.
    ///
    /// A refusal hands the disk back:
    ///
    /// - `Damaged`: the files represent no versions. It gives the first place of damage, in bytes from the side's
    ///   start.
    /// - `DiskFault`: a call on the disk failed.
    /// - `Memory`: memory ran out.
    pub fn open_existing<H: Threads + Sync>(
        rt: &H,
        alloc: Global,
        mut disk: D,
        workers: Workers,
    ) -> Result<Existing<D>, OpenRefused<D>>
        // It is the store that the files represent, or the disk is handed back since no side holds a record.
        ensures found { IfOk result (HasFoundExisting D.Disk (disk_view (D.history disk) (D.moment disk) (D.faults disk))) }
        // After a refusal the files are unchanged, and the refusal's reason holds.
        ensures refused { IfErr result (λ e. HasRefused (disk_view (D.history disk) (D.moment disk) (D.faults disk)) (disk_view (D.history e.disk) (D.moment e.disk) (D.faults e.disk)) e.why) }
        // Whatever is returned as a refusal, the files are those from before, also after a crash.
        ensures left { IfErr result (λ e. OnHistories (D.history disk) (D.history e.disk) LeavesFiles) }
        // Damaged files are never opened.
        ensures damage { ForSome (D.history disk) (λ h. (side : Side) (at : ℕ) → IsDamagedAt (reads h) side at → IsErr result) }
        // An opened store takes changes.
        ensures whole { IfOk result (λ x. IfSome (store_in x) (λ e. e.broken ≡ false)) }
    {
        match seek(rt, alloc, &mut disk, workers) {
            Ok(Sought::Recorded(found)) => Ok(Existing::Store(Engine {
                disk,
                pair: found.pair,
                directory: found.directory,
                format: found.format,
                generation: found.generation,
                broken: false,
                frame: Bytes::new(alloc),
            })),
            Ok(Sought::Unrecorded(_)) => Ok(Existing::Absent(disk)),
            Err(why) => Err(OpenRefused { disk, why }),
        }
    }
}
