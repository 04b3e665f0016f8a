// The mode `check`: what the two files of a disk show is written, without a store being opened over them.
ghost use Rattle.std.specs.Prelude.{◌≡◌, ◌≢◌, ℕ, List, Option, Some, None};
ghost use Rattle.jf_words.specs.declared.modes.Mode.TheVariants as mode;
ghost use Rattle.jf_run.specs.Calls.{devices, disk_of, program_call};
ghost use Rattle.jf_run.specs.Promises.{KeepsPromises};

use crate::status::{Ended, Status};
use jf_check::check_disk;
use jf_disk::Disk;
use jf_files::files_stand_for_sound;
use jf_io::Sink;
use jf_words::Mode;
use std::alloc::Global;
use std::thread::Threads;

/// Writes into a sink what the files of a disk show (docs/FORMATS.md, "Checking files"), and hands back how that ended.
pub(crate) fn check_over<K: Sink, D: Disk, H: Threads + Sync>(
    rt: &H,
    alloc: Global,
    sink: &mut K,
    mut disk: D,
) -> Ended<D>
    ensures here { (head : ℕ) (root : List ℕ) → result.status ≢ Status.Elsewhere head root }
    ensures start { result.start ≡ None }
    ensures kept { (rest : Option (List ℕ)) (source_faults : ℕ) → KeepsPromises (program_call (Some mode.Check) (D.missing disk) (devices (disk_of D.Disk disk) rest source_faults (K.text sink.old) (K.faults sink.old)) (devices (disk_of D.Disk result.disk) rest source_faults (K.text sink.new) (K.faults sink.new)) result.status result.entries result.start) }
{
    files_stand_for_sound();
    let told = check_disk(rt, alloc, &mut disk, Mode::Check.workers(), sink);
    Ended::without_store(alloc, Status::of_check(told), disk)
}
