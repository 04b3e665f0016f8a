// What a snapshot's map says of the names of a source, into a sink.
ghost use Rattle.std.specs.Prelude.{◌≡◌, ◌⊎◌, ℕ, ◌≤◌, Err, IfOk, IfErr};
ghost use Rattle.jf_path.specs.Faults.{HasCause};
ghost use Rattle.jf_model.specs.Versions.{Versions, map_of};
ghost use Rattle.jf_names.specs.Answers.{IsInside, AnswersNames, RefusesLine};
ghost use Rattle.jf_names.specs.NameLines.{HasNames, StopsNames};

use crate::block::names_block;
use crate::fault::NamesFault;
use crate::name_reader::NameReader;
use crate::names::NameMap;
use jf_input::{Feeding, feed};
use jf_io::{IoFailed, Nowhere, Sink, Source, USUAL_PIECE, put_all};
use jf_node::Snapshot;
use std::alloc::Global;

/// Reads the names of a source, and writes into a sink the block of what a snapshot's map says of them. The block is made
/// whole before any of it is written.
pub(crate) fn answer_over_map<S: Source, K: Sink>(
    alloc: Global,
    snapshot: &Snapshot,
    source: &mut S,
    sink: &mut K,
) -> Result<(), NamesFault>
    ensures answered { (v : Versions) (version : ℕ) → IsInside v version → snapshot.now.map ≡ map_of v version → AnswersNames result v version (S.rest source.old) (S.rest source.new) (K.text sink.old) (K.text sink.new) }
    ensures line { RefusesLine result (S.rest source.old) }
    ensures inside { (least head : ℕ) → result ≡ Err (NamesFault.Outside least head) → ⊥ }
    ensures unwritten { result ≡ Err NamesFault.ReadFault → sink.new ≡ sink.old }
    ensures silent { (at : ℕ) → (result ≡ Err (NamesFault.Line at)) ⊎ (result ≡ Err NamesFault.Memory) → sink.new ≡ sink.old }
    ensures read { result ≡ Err NamesFault.ReadFault → HasCause (S.faults source.old) (S.faults source.new) }
    ensures write { result ≡ Err NamesFault.WriteFault → HasCause (K.faults sink.old) (K.faults sink.new) }
    ensures counts { (S.faults source.old ≤ S.faults source.new) × (K.faults sink.old ≤ K.faults sink.new) }
{
    let names = read_names(alloc, source)?;
    let text = names_block(alloc, &names, snapshot)?;
    match put_all(sink, text.as_slice()) {
        Ok(()) => Ok(()),
        Err(IoFailed) => Err(NamesFault::WriteFault),
    }
}

// The names of a source, read to its end, or to the first line that is refused.
fn read_names<S: Source>(alloc: Global, source: &mut S) -> Result<NameMap, NamesFault>
    ensures names { IfOk result (λ es. HasNames es (S.rest source.old) (S.rest source.new)) }
    ensures stopped { IfErr result (λ why. StopsNames why (S.rest source.old) (S.rest source.new)) }
    ensures cause { result ≡ Err NamesFault.ReadFault → HasCause (S.faults source.old) (S.faults source.new) }
    ensures counts { S.faults source.old ≤ S.faults source.new }
{
    let mut reader = NameReader::new(alloc);
    let mut nowhere = Nowhere;
    match feed(alloc, &mut reader, source, &mut nowhere, USUAL_PIECE) {
        Feeding::Done => Ok(reader.end()),
        Feeding::ReadFault => Err(NamesFault::ReadFault),
        Feeding::WriteFault => unreachable!(),
        Feeding::Memory => Err(NamesFault::Memory),
        Feeding::Stopped(why) => Err(why),
    }
}
