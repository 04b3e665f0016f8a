// The mode `resume` over an open store: a script is answered if the store has the root that was announced of a version.
ghost use Rattle.std.specs.Prelude.{◌≡◌, ◌↔◌, ℕ, List, [], IsTrue, false};
ghost use Rattle.jf_model.specs.States.{state_when_opened};
ghost use Rattle.jf_model.specs.Versions.{root_of};
ghost use Rattle.jf_words.specs.declared.modes.Mode.TheVariants as mode;
ghost use Rattle.jf_run.specs.Bodies.{CompletesCall};
ghost use Rattle.jf_run.specs.Calls.{disk_of, engine_disk, shown_devices};
ghost use Rattle.jf_run.specs.Resuming.{IsRootAt};

use crate::over::Over;
use crate::script::{Script, script_over};
use crate::status::Status;
use jf_disk::Disk;
use jf_engine::Engine;
use jf_files::{damage_is_no_versions, files_stand_for_one};
use jf_hash::Hash;
use jf_io::{Sink, Source};
use jf_join::{Gate, Workers};
use jf_model::Ledger;
use std::alloc::Global;
use std::sync::Wait;
use std::thread::Threads;

/// Answers the script of a source as the mode `run` does, if the recorded root of a version is the announced one.
/// Otherwise no call is made on source, sink or disk, and the end tells the newest version and its root.
pub(crate) fn resume_over<S: Source, K: Sink, D: Disk, H: Threads + Wait + Sync, G: Gate>(
    rt: &H,
    alloc: Global,
    engine: Engine<D>,
    version: u64,
    root: Hash,
    source: &mut S,
    sink: &mut K,
    workers: Workers,
    gate: &G,
) -> Over<D>
    requires whole { engine.broken ≡ false }
    ensures elsewhere { (head : ℕ) (newest : List ℕ) → result.status ≡ Status.Elsewhere head newest → (source.new ≡ source.old) × (sink.new ≡ sink.old) }
    ensures resting { (head : ℕ) (newest : List ℕ) → result.status ≡ Status.Elsewhere head newest → disk_of D.Disk result.disk ≡ engine_disk engine }
    ensures kept { CompletesCall (mode.Resume version root workers) (state_when_opened engine.versions engine.generation) (shown_devices S.Source K.Sink source.old sink.old (engine_disk engine)) (shown_devices S.Source K.Sink source.new sink.new (disk_of D.Disk result.disk)) result.status result.entries }
{
    engine.know();
    damage_is_no_versions();
    files_stand_for_one();
    if !is_root_at(&engine, version, &root) {
        return elsewhere(alloc, engine);
    }
    let script = Script::Input;
    script_over(rt, alloc, engine, script, source, sink, workers, gate)
}

/// Whether the recorded root of a version is this one.
fn is_root_at<D: Disk>(engine: &Engine<D>, version: u64, root: &Hash) -> bool
    ensures { IsTrue result ↔ IsRootAt engine.now.versions version root.now }
{
    match engine.root_of(version) {
        Some(found) => found == *root,
        None => false,
    }
}

/// The end over a store that has another root: its newest version, and the root of that.
fn elsewhere<D: Disk>(alloc: Global, engine: Engine<D>) -> Over<D>
    ensures status { result.status ≡ Status.Elsewhere engine.versions.head (root_of engine.versions engine.versions.head) }
    ensures resting { disk_of D.Disk result.disk ≡ engine_disk engine }
    ensures entries { result.entries ≡ [] }
{
    engine.know();
    let head = engine.state().head;
    let Some(root) = engine.root_of(head) else {
        unreachable!()
    };
    Over::of_engine(Status::Elsewhere { head, root }, engine, Ledger::new(alloc))
}
