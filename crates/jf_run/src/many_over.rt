// The mode `many` over an open store: the names of an input are looked up in a version.
ghost use Rattle.std.specs.Prelude.{◌≡◌, ◌≢◌, ℕ, List, IsTrue, false};
ghost use Rattle.jf_model.specs.States.{state_when_opened};
ghost use Rattle.jf_words.specs.declared.modes.Mode.TheVariants as mode;
ghost use Rattle.jf_run.specs.Bodies.{CompletesCall};
ghost use Rattle.jf_run.specs.Calls.{disk_of, engine_disk, shown_devices};
ghost use Rattle.jf_run.specs.Statuses.{is_input_fault};

use crate::over::Over;
use crate::status::Status;
use jf_disk::Disk;
use jf_engine::Engine;
use jf_files::{damage_is_no_versions, files_stand_for_one};
use jf_io::{Sink, Source};
use jf_model::Ledger;
use jf_names::answer_names;
use std::alloc::Global;

/// Reads a name on each line of a source, and writes into a sink what a version of a store says of them, with one proof of
/// it all. The source is read to its end before anything is written. No call is made on the disk.
pub(crate) fn many_over<S: Source, K: Sink, D: Disk>(
    alloc: Global,
    engine: Engine<D>,
    version: u64,
    source: &mut S,
    sink: &mut K,
) -> Over<D>
    requires whole { engine.broken ≡ false }
    ensures unwritten { IsTrue (is_input_fault result.status) → sink.new ≡ sink.old }
    ensures outside { (least head : ℕ) → result.status ≡ Status.Outside least head → (source.new ≡ source.old) × (sink.new ≡ sink.old) }
    ensures resting { disk_of D.Disk result.disk ≡ engine_disk engine }
    ensures here { (head : ℕ) (root : List ℕ) → result.status ≢ Status.Elsewhere head root }
    ensures kept { CompletesCall (mode.Many version) (state_when_opened engine.versions engine.generation) (shown_devices S.Source K.Sink source.old sink.old (engine_disk engine)) (shown_devices S.Source K.Sink source.new sink.new (disk_of D.Disk result.disk)) result.status result.entries }
{
    engine.know();
    damage_is_no_versions();
    files_stand_for_one();
    let answered = answer_names(alloc, &engine, version, source, sink);
    Over::of_engine(Status::of_names(answered), engine, Ledger::new(alloc))
}
