// The mode `restore` over an open store: a version is restored into it from the chunk blocks of an input.
ghost use Rattle.std.specs.Prelude.{◌≡◌, ◌≢◌, ◌≤◌, ℕ, List, false};
ghost use Rattle.jf_model.specs.States.{state_when_opened};
ghost use Rattle.jf_words.specs.Modes.{max_version};
ghost use Rattle.jf_words.specs.declared.modes.Mode.TheVariants as mode;
ghost use Rattle.jf_run.specs.Bodies.{CompletesCall};
ghost use Rattle.jf_run.specs.Calls.{disk_of, engine_disk, shown_devices};

use crate::over::Over;
use crate::status::Status;
use jf_disk::Disk;
use jf_engine::Engine;
use jf_files::damage_is_no_versions;
use jf_hash::Hash;
use jf_io::{Sink, Source};
use jf_join::{Gate, Workers};
use jf_model::Ledger;
use jf_receive::{RestoreFault, receive};
use std::alloc::Global;
use std::thread::Threads;

/// Restores into a new store the version of the chunk blocks of a source, whose root was announced, and writes a line about
/// it into a sink.
pub(crate) fn restore_over<S: Source, K: Sink, D: Disk, H: Threads + Sync, G: Gate>(
    rt: &H,
    alloc: Global,
    mut engine: Engine<D>,
    version: u64,
    root: Hash,
    source: &mut S,
    sink: &mut K,
    workers: Workers,
    gate: &G,
) -> Over<D>
    requires whole { engine.broken ≡ false }
    requires bounded { version ≤ max_version }
    ensures untouched { (head : ℕ) → result.status ≡ Status.Refused (RestoreFault.NotEmpty head) → (source.new ≡ source.old) × (sink.new ≡ sink.old) }
    ensures here { (head : ℕ) (root : List ℕ) → result.status ≢ Status.Elsewhere head root }
    ensures kept { CompletesCall (mode.Restore version root workers) (state_when_opened engine.versions engine.generation) (shown_devices S.Source K.Sink source.old sink.old (engine_disk engine)) (shown_devices S.Source K.Sink source.new sink.new (disk_of D.Disk result.disk)) result.status result.entries }
{
    engine.know();
    damage_is_no_versions();
    let how = receive(
        rt,
        alloc,
        &mut engine,
        version,
        root,
        source,
        sink,
        workers,
        gate,
    );
    Over::of_engine(Status::of_received(how), engine, Ledger::new(alloc))
}
