// What a version of a store says of the names of a source, into a sink.
ghost use Rattle.std.specs.Prelude.{◌≡◌, ◌⊎◌, ℕ, ◌≤◌, Err};
ghost use Rattle.jf_path.specs.Faults.{HasCause};
ghost use Rattle.jf_names.specs.Answers.{IsInside, AnswersNames, RefusesLine};

use crate::fault::NamesFault;
use crate::over_map::answer_over_map;
use jf_disk::Disk;
use jf_engine::Engine;
use jf_io::{Sink, Source};
use std::alloc::Global;

/// Reads the names of a source, one on each line and at most 10,000, and writes into a sink the block of what a version of
/// a store says of them, with one proof (docs/FORMATS.md, Blocks of many claims). Makes no call on the disk.
///
/// The version is looked up before anything is read. The input is read to its end, or to the first line that is refused,
/// and then fewer than 65,536 bytes after that line are taken. The block is made whole before any of it is written.
pub fn answer_names<S: Source, K: Sink, D: Disk>(
    alloc: Global,
    engine: &Engine<D>,
    version: u64,
    source: &mut S,
    sink: &mut K,
) -> Result<(), NamesFault>
    // What was read and written is as the result says; `Outside` comes exactly if the version isn't from floor to head.
    ensures answered { AnswersNames result engine.now.versions version (S.rest source.old) (S.rest source.new) (K.text sink.old) (K.text sink.new) }
    // If the version is inside and the input is known to fail at a line, it ends with that `Line`, `ReadFault` or `Memory`.
    ensures line { IsInside engine.now.versions version → RefusesLine result (S.rest source.old) }
    // After `Outside` source and sink are unchanged.
    ensures untouched { (least head : ℕ) → result ≡ Err (NamesFault.Outside least head) → (source.new ≡ source.old) × (sink.new ≡ sink.old) }
    // After `ReadFault` the sink is unchanged.
    ensures unwritten { result ≡ Err NamesFault.ReadFault → sink.new ≡ sink.old }
    // After `Line` and `Memory` the sink is unchanged.
    ensures silent { (at : ℕ) → (result ≡ Err (NamesFault.Line at)) ⊎ (result ≡ Err NamesFault.Memory) → sink.new ≡ sink.old }
    // `ReadFault` comes only with a fault of the source: its count of faults rose, or stood at its greatest.
    ensures read { result ≡ Err NamesFault.ReadFault → HasCause (S.faults source.old) (S.faults source.new) }
    // `WriteFault` comes only with a fault of the sink: its count of faults rose, or stood at its greatest.
    ensures write { result ≡ Err NamesFault.WriteFault → HasCause (K.faults sink.old) (K.faults sink.new) }
    // The counts of faults of source and sink don't fall.
    ensures counts { (S.faults source.old ≤ S.faults source.new) × (K.faults sink.old ≤ K.faults sink.new) }
{
    let Some(snapshot) = engine.at(version) else {
        let state = engine.state();
        return Err(NamesFault::Outside {
            least: state.floor,
            head: state.head,
        });
    };
    answer_over_map(alloc, snapshot, source, sink)
}
