// The store that files hold already is opened, for a mode that is to go on over it: a lost store must not be taken for a new one.
ghost use Rattle.std.specs.Prelude.{◌≡◌, ◌↔◌, IfOk, IfErr, IsTrue};
ghost use Rattle.std.specs.FinMap as fin;
ghost use Rattle.jf_hash.specs.Roots.{root};
ghost use Rattle.jf_model.specs.Versions.{new_store};
ghost use Rattle.jf_words.specs.Shapes.{shape_of};
ghost use Rattle.jf_run.specs.Calls.{disk_of};
ghost use Rattle.jf_run.specs.Opening.{IsOpenFor, EndsUnopened};
ghost use Rattle.jf_run.specs.Resuming.{IsRootAt, MayBegin};

use crate::status::{Ended, Status};
use jf_disk::Disk;
use jf_engine::{Engine, Existing, OpenRefused};
use jf_files::{damage_is_no_versions, files_stand_for_sound};
use jf_hash::{Hash, empty};
use jf_words::Mode;
use std::alloc::Global;
use std::thread::Threads;

/// Whether files without a record may be initialised for a mode.
pub(crate) fn may_begin(mode: &Mode) -> bool
    ensures { IsTrue result ↔ MayBegin mode.now }
{
    match mode {
        Mode::Resume { version, root, .. } => is_new_root(*version, root),
        _ => true,
    }
}

/// Whether a new store has this root of a version: that of the empty map, of version 0.
fn is_new_root(version: u64, root: &Hash) -> bool
    ensures { IsTrue result ↔ IsRootAt new_store version root.now }
{
    version == 0 && *root == empty()
}

/// Opens the store that files on a disk hold. If they hold no record, there is none: that is the end of the call, and nothing
/// is written.
pub(crate) fn find_store<D: Disk, H: Threads + Sync>(
    rt: &H,
    alloc: Global,
    mode: &Mode,
    disk: D,
) -> Result<Engine<D>, Ended<D>>
    requires opens { IsTrue (shape_of mode.now).opens }
    requires existing { MayBegin mode.now → ⊥ }
    ensures opened { IfOk result (λ e. IsOpenFor mode.now (disk_of D.Disk disk) e) }
    ensures refused { IfErr result (λ ended. EndsUnopened mode.now (D.missing disk) (disk_of D.Disk disk) (disk_of D.Disk ended.disk) ended.status ended.entries ended.start) }
{
    damage_is_no_versions();
    files_stand_for_sound();
    match Engine::<D>::open_existing(rt, alloc, disk, mode.workers()) {
        Ok(Existing::Store(engine)) => {
            engine.know();
            Ok(engine)
        }
        Ok(Existing::Absent(disk)) => Err(Ended::without_store(alloc, no_store(), disk)),
        Err(OpenRefused { disk, why }) => {
            Err(Ended::without_store(alloc, Status::of_refusal(why), disk))
        }
    }
}

/// The end of a call that was to resume a store and found none: the version and the root that a new store has.
fn no_store() -> Status
    ensures { result ≡ Status.Elsewhere 0 (root fin.empty) }
{
    Status::Elsewhere {
        head: 0,
        root: empty(),
    }
}
