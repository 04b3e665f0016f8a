// The mode `history` over an open store: the total of its recorded roots is written, with the proofs for a version.
ghost use Rattle.std.specs.Prelude.{◌≡◌, ◌≢◌, ℕ, List, Option, false};
ghost use Rattle.jf_model.specs.States.{state_when_opened};
ghost use Rattle.jf_words.specs.declared.modes.Mode.TheVariants as mode;
ghost use Rattle.jf_run.specs.Bodies.{CompletesCall};
ghost use Rattle.jf_run.specs.Calls.{devices, disk_of, engine_disk};

use crate::over::Over;
use crate::status::Status;
use jf_disk::Disk;
use jf_engine::Engine;
use jf_files::{damage_is_no_versions, files_stand_for_one};
use jf_io::Sink;
use jf_model::Ledger;
use jf_totals::write_history;
use std::alloc::Global;

/// Writes into a sink the total of the recorded roots of a store, with the proofs for the root of a version. No call is
/// made on the disk.
pub(crate) fn history_over<K: Sink, D: Disk>(
    alloc: Global,
    engine: Engine<D>,
    version: u64,
    sink: &mut K,
) -> Over<D>
    requires whole { engine.broken ≡ false }
    ensures resting { disk_of D.Disk result.disk ≡ engine_disk engine }
    ensures here { (head : ℕ) (root : List ℕ) → result.status ≢ Status.Elsewhere head root }
    ensures kept { (rest : Option (List ℕ)) (source_faults : ℕ) → CompletesCall (mode.History version) (state_when_opened engine.versions engine.generation) (devices (engine_disk engine) rest source_faults (K.text sink.old) (K.faults sink.old)) (devices (disk_of D.Disk result.disk) rest source_faults (K.text sink.new) (K.faults sink.new)) result.status result.entries }
{
    engine.know();
    damage_is_no_versions();
    files_stand_for_one();
    let written = write_history(alloc, &engine, version, sink);
    Over::of_engine(Status::of_history(written), engine, Ledger::new(alloc))
}
