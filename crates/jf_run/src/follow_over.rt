// The mode `follow` over an open store: the landing blocks of an input are followed.
ghost use Rattle.std.specs.Prelude.{◌≡◌, ◌≢◌, ℕ, List, false, IsTrue};
ghost use Rattle.jf_model.specs.States.{state_when_opened};
ghost use Rattle.jf_words.specs.declared.modes.Mode.TheVariants as mode;
ghost use Rattle.jf_run.specs.Bodies.{CompletesCall};
ghost use Rattle.jf_run.specs.Calls.{disk_of, engine_disk, shown_devices};
ghost use Rattle.jf_run.specs.Statuses.{is_input_fault};

use crate::over::Over;
use crate::status::Status;
use jf_disk::Disk;
use jf_engine::Engine;
use jf_files::{damage_is_no_versions, files_stand_for_one};
use jf_follow::{
    FollowedInput, follow_stream, followed_is_history, following_is_legal, inputs_decide,
};
use jf_io::{Sink, Source};
use jf_join::{Gate, Workers};
use jf_lead::landing_blocks_are_sound;
use std::alloc::Global;
use std::thread::Threads;

/// Follows the landing blocks of a source by an open store, and writes into a sink the line that gives the head of the
/// store and its root. Nothing is written before the end of the source.
pub(crate) fn follow_over<S: Source, K: Sink, D: Disk, H: Threads + Sync, G: Gate>(
    rt: &H,
    alloc: Global,
    workers: Workers,
    gate: &G,
    engine: Engine<D>,
    source: &mut S,
    sink: &mut K,
) -> Over<D>
    requires whole { engine.broken ≡ false }
    ensures unwritten { IsTrue (is_input_fault result.status) → sink.new ≡ sink.old }
    ensures inside { (least head : ℕ) → result.status ≢ Status.Outside least head }
    ensures here { (head : ℕ) (root : List ℕ) → result.status ≢ Status.Elsewhere head root }
    ensures kept { CompletesCall (mode.Follow workers) (state_when_opened engine.versions engine.generation) (shown_devices S.Source K.Sink source.old sink.old (engine_disk engine)) (shown_devices S.Source K.Sink source.new sink.new (disk_of D.Disk result.disk)) result.status result.entries }
{
    engine.know();
    damage_is_no_versions();
    files_stand_for_one();
    landing_blocks_are_sound();
    followed_is_history();
    following_is_legal();
    inputs_decide();
    let FollowedInput {
        engine,
        entries,
        how,
    } = follow_stream(rt, alloc, engine, source, sink, workers, gate);
    engine.know();
    Over::of_engine(Status::of_followed(how), engine, entries)
}
