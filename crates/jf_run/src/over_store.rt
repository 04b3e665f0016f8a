// The frame of the modes that need the store: it is opened, the mode is done over it, and its end is the end of the call.
ghost use Rattle.std.specs.Prelude.{◌≡◌, Some, IfNone, IfOk, IfErr, IsTrue};
ghost use Rattle.jf_words.specs.Modes.{KeepsLimits};
ghost use Rattle.jf_words.specs.Shapes.{shape_of};
ghost use Rattle.jf_run.specs.Calls.{disk_of, program_call, shown_devices};
ghost use Rattle.jf_run.specs.Opening.{IsOpenFor, EndsUnopened};
ghost use Rattle.jf_run.specs.Promises.{KeepsPromises};
ghost use Rattle.jf_run.specs.Resuming.{MayBegin};
ghost use Rattle.jf_run.specs.Untouched.{LeavesUntouched};

use crate::do_mode::do_mode;
use crate::existing::{find_store, may_begin};
use crate::over::Over;
use crate::status::{Ended, Status};
use jf_disk::{Disk, know_dated};
use jf_engine::{Engine, OpenRefused};
use jf_files::{damage_is_no_versions, files_stand_for_sound};
use jf_io::{Sink, Source};
use jf_join::Gate;
use jf_words::Mode;
use std::alloc::Global;
use std::sync::Wait;
use std::thread::Threads;

/// Opens the store on a disk, does what a mode asks for over it, and hands back how that ended. If the store can't be
/// opened, source and sink are untouched.
pub(crate) fn over_store<S: Source, K: Sink, D: Disk, H: Threads + Wait + Sync, G: Gate>(
    rt: &H,
    alloc: Global,
    mode: Mode,
    source: &mut S,
    sink: &mut K,
    disk: D,
    gate: &G,
) -> Ended<D>
    requires opens { IsTrue (shape_of mode).opens }
    requires limits { KeepsLimits mode }
    ensures untouched { LeavesUntouched (shape_of mode) result.status source.old source.new sink.old sink.new }
    ensures silent { IfNone result.start ((source.new ≡ source.old) × (sink.new ≡ sink.old)) }
    ensures kept { KeepsPromises (program_call (Some mode) (D.missing disk) (shown_devices S.Source K.Sink source.old sink.old (disk_of D.Disk disk)) (shown_devices S.Source K.Sink source.new sink.new (disk_of D.Disk result.disk)) result.status result.entries result.start) }
{
    know_dated(&disk);
    let engine = match open_for(rt, alloc, &mode, disk) {
        Ok(engine) => engine,
        Err(ended) => return ended,
    };
    let head = engine.state().head;
    let Over {
        status,
        disk,
        entries,
        memory,
    } = do_mode(rt, alloc, mode, engine, source, sink, gate);
    Ended {
        status,
        disk,
        entries,
        start: Some(head),
        memory,
    }
}

/// Opens the store on a disk for a mode. If it can't be opened, that is the end of the call, whatever source and sink show.
fn open_for<D: Disk, H: Threads + Sync>(
    rt: &H,
    alloc: Global,
    mode: &Mode,
    disk: D,
) -> Result<Engine<D>, Ended<D>>
    requires opens { IsTrue (shape_of mode.now).opens }
    ensures opened { IfOk result (λ e. IsOpenFor mode.now (disk_of D.Disk disk) e) }
    ensures refused { IfErr result (λ ended. EndsUnopened mode.now (D.missing disk) (disk_of D.Disk disk) (disk_of D.Disk ended.disk) ended.status ended.entries ended.start) }
{
    if may_begin(mode) {
        return open_store(rt, alloc, mode, disk);
    }
    find_store(rt, alloc, mode, disk)
}

/// Opens the store on a disk, and begins files without a record.
fn open_store<D: Disk, H: Threads + Sync>(
    rt: &H,
    alloc: Global,
    mode: &Mode,
    disk: D,
) -> Result<Engine<D>, Ended<D>>
    requires opens { IsTrue (shape_of mode.now).opens }
    requires may { MayBegin mode.now }
    ensures opened { IfOk result (λ e. IsOpenFor mode.now (disk_of D.Disk disk) e) }
    ensures refused { IfErr result (λ ended. EndsUnopened mode.now (D.missing disk) (disk_of D.Disk disk) (disk_of D.Disk ended.disk) ended.status ended.entries ended.start) }
{
    damage_is_no_versions();
    files_stand_for_sound();
    match Engine::<D>::open(rt, alloc, disk, mode.workers()) {
        Ok(engine) => {
            engine.know();
            Ok(engine)
        }
        Err(OpenRefused { disk, why }) => {
            Err(Ended::without_store(alloc, Status::of_refusal(why), disk))
        }
    }
}
