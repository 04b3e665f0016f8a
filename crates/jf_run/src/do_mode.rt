// The modes that are done over an open store: one row each.
ghost use Rattle.std.specs.Prelude.{◌≡◌, ◌+◌, ◌≤◌, ℕ, List, IsTrue, false};
ghost use Rattle.jf_model.specs.States.{state_when_opened};
ghost use Rattle.jf_words.specs.Modes.{KeepsLimits};
ghost use Rattle.jf_words.specs.Shapes.{NoChange, shape_of};
ghost use Rattle.jf_run.specs.Bodies.{CompletesCall};
ghost use Rattle.jf_run.specs.Calls.{disk_of, engine_disk, shown_devices};
ghost use Rattle.jf_run.specs.Untouched.{LeavesUntouched};

use crate::follow_over::follow_over;
use crate::history_over::history_over;
use crate::many_over::many_over;
use crate::over::Over;
use crate::restore_over::restore_over;
use crate::resume_over::resume_over;
use crate::script::{Script, script_over};
use crate::serve_over::serve_over;
use crate::status::Status;
use crate::trim_over::trim_over;
use jf_disk::Disk;
use jf_engine::Engine;
use jf_files::{damage_is_no_versions, files_stand_for_one};
use jf_generate::Generator;
use jf_io::{Sink, Source};
use jf_join::Gate;
use jf_words::Mode;
use std::alloc::Global;
use std::sync::Wait;
use std::thread::Threads;

/// Does what a mode asks for over an open store. In a mode that changes nothing no call is made on the disk, nor if the end is
/// `Elsewhere`; in the mode `trim` at most 15 are made.
pub(crate) fn do_mode<S: Source, K: Sink, D: Disk, H: Threads + Wait + Sync, G: Gate>(
    rt: &H,
    alloc: Global,
    mode: Mode,
    engine: Engine<D>,
    source: &mut S,
    sink: &mut K,
    gate: &G,
) -> Over<D>
    requires opens { IsTrue (shape_of mode).opens }
    requires limits { KeepsLimits mode }
    requires whole { engine.broken ≡ false }
    ensures untouched { LeavesUntouched (shape_of mode) result.status source.old source.new sink.old sink.new }
    ensures resting { (shape_of mode).changes ≡ NoChange → disk_of D.Disk result.disk ≡ engine_disk engine }
    ensures elsewhere { (head : ℕ) (root : List ℕ) → result.status ≡ Status.Elsewhere head root → disk_of D.Disk result.disk ≡ engine_disk engine }
    ensures moments { mode ≡ Mode.Trim → D.moment result.disk ≤ engine.moment + 15 }
    ensures kept { CompletesCall mode (state_when_opened engine.versions engine.generation) (shown_devices S.Source K.Sink source.old sink.old (engine_disk engine)) (shown_devices S.Source K.Sink source.new sink.new (disk_of D.Disk result.disk)) result.status result.entries }
{
    damage_is_no_versions();
    files_stand_for_one();
    match mode {
        Mode::Run { workers } => {
            script_over(
                rt,
                alloc,
                engine,
                Script::Input,
                source,
                sink,
                workers,
                gate,
            )
        }
        Mode::Resume {
            version,
            root,
            workers,
        } => {
            resume_over(
                rt, alloc, engine, version, root, source, sink, workers, gate,
            )
        }
        Mode::Serve { workers } => serve_over(rt, alloc, engine, source, sink, workers, gate),
        Mode::Lead { workers } => {
            script_over(rt, alloc, engine, Script::Led, source, sink, workers, gate)
        }
        Mode::Follow { workers } => follow_over(rt, alloc, workers, gate, engine, source, sink),
        Mode::Verify => unreachable!(),
        Mode::Generate {
            seed,
            batches,
            size,
            workers,
        } => {
            let lines = Generator::new(seed, batches, size);
            let script = Script::Generated(lines);
            script_over(rt, alloc, engine, script, source, sink, workers, gate)
        }
        Mode::Restore {
            version,
            root,
            workers,
        } => {
            restore_over(
                rt, alloc, engine, version, root, source, sink, workers, gate,
            )
        }
        Mode::Trim => trim_over(alloc, engine, sink),
        Mode::Check => unreachable!(),
        Mode::History { version } => history_over(alloc, engine, version, sink),
        Mode::Many { version } => many_over(alloc, engine, version, source, sink),
        Mode::Judge { .. } => unreachable!(),
    }
}
