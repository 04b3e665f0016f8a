// The restore of a version over devices: chunk blocks from a source, and one line into a sink.
ghost use Rattle.std.specs.Prelude.{◌≡◌, ◌⊎◌, ℕ, ◌-◌, ◌<◌, ◌≤◌, ◌^◌, List, length, Option, Some, Ok, Err, IfSome, IfNone, IfOk, IfErr, false};
ghost use Rattle.jf_path.specs.Faults.{HasCause};
ghost use Rattle.jf_evidence.specs.Ranges.{Entries};
ghost use Rattle.jf_restore.specs.Finishes.{IsNewStore, IsInUse, HasImported};
ghost use Rattle.jf_receive.specs.Restored.{restore_result, restored_text};
ghost use Rattle.jf_receive.specs.Receives.{HasReceived, RestoresEntries, EndsUnlessStopped};

use crate::importing::import;
use crate::reading::read_blocks;
use crate::received::{Received, RestoreFault};
use crate::text::restored_line;
use jf_disk::Disk;
use jf_engine::Engine;
use jf_hash::Hash;
use jf_io::{Sink, Source, put_all};
use jf_join::{Gate, Workers};
use jf_path::Bytes;
use std::alloc::Global;
use std::thread::Threads;

/// Restores a version, whose root is announced, into a new store, from the chunk blocks of a source (docs/FORMATS.md,
/// "Restoring a version"); and writes into a sink the line that tells of it: `restored VERSION ROOT COUNT`.
///
/// It takes input in pieces of at most 4,096 bytes, and only while no whole line is at hand, and stops at the first line
/// that is refused. Nothing is imported before the whole input is read and judged, and all memory is taken before the first
/// call on the disk. The tree is made by at most this many workers, and the gate is told of the pieces of this work. Each
/// end but `Done`, `WriteFault` and `DiskFault` leaves store and disk unchanged, and each but `Done` and `WriteFault` the
/// sink.
///
/// - `Refused(NotEmpty)`: the store isn't new. Nothing was read.
/// - `Refused(Line)`, `Refused(Chunk)`: a line doesn't match, or a block isn't accepted. Fewer than 4,096 bytes after the
///   line that decides it were taken.
/// - `Refused(NotWhole)`, `Refused(Last)`: the whole input was read. `NotWhole` comes before `Last`.
/// - `ReadFault`: the source failed.
/// - `Memory`: memory ran out.
/// - `DiskFault`: the disk failed in the import. The store is broken; a crash leaves the versions from before, or the one
///   restored.
/// - `WriteFault`: the version is restored, and the sink failed; it has a front of the line.
pub fn receive<S: Source, K: Sink, D: Disk, H: Threads + Sync, G: Gate>(
    rt: &H,
    alloc: Global,
    engine: &mut Engine<D>,
    version: u64,
    root: Hash,
    source: &mut S,
    sink: &mut K,
    workers: Workers,
    gate: &G,
) -> Received
    // The version is at most 2^64 - 2.
    requires bounded { version ≤ 2 ^ 64 - 2 }
    // The store isn't broken.
    requires whole { engine.old.broken ≡ false }
    // Store, source and sink have changed as the result says, as is stated above for each end.
    ensures received { HasReceived result version root engine.old engine.new (S.rest source.old) (S.rest source.new) (K.text sink.old) (K.text sink.new) }
    // If the head isn't version 0, or has an entry, the result is `NotEmpty` with the head.
    ensures occupied { IsInUse engine.old.versions → result ≡ Received.Refused (RestoreFault.NotEmpty engine.old.versions.head) }
    // After `NotEmpty` source and sink are unchanged.
    ensures untouched { (head : ℕ) → result ≡ Received.Refused (RestoreFault.NotEmpty head) → (source.new ≡ source.old) × (sink.new ≡ sink.old) }
    // If the store is new and the input is known and results in a refusal, it ends with that, `ReadFault` or `Memory`.
    ensures refused { (input : List ℕ) (why : RestoreFault) → S.rest source.old ≡ Some input → IsNewStore engine.old.versions → restore_result engine.old.generation root input ≡ Err why → EndsUnlessStopped (Received.Refused why) result }
    // If the store is new and the input is known and restores entries, nothing is refused.
    ensures accepted { (input : List ℕ) (es : Entries) (why : RestoreFault) → S.rest source.old ≡ Some input → IsNewStore engine.old.versions → restore_result engine.old.generation root input ≡ Ok es → result ≡ Received.Refused why → ⊥ }
    // `ReadFault` comes only with a fault of the source: its count of faults rose, or stood at its greatest.
    ensures read { result ≡ Received.ReadFault → HasCause (S.faults source.old) (S.faults source.new) }
    // `WriteFault` comes only with a fault of the sink: its count of faults rose, or stood at its greatest.
    ensures write { result ≡ Received.WriteFault → HasCause (K.faults sink.old) (K.faults sink.new) }
    // The counts of faults of source and sink don't fall.
    ensures counts { (S.faults source.old ≤ S.faults source.new) × (K.faults sink.old ≤ K.faults sink.new) }
{
    if let Some(head) = head_in_use(engine) {
        return Received::Refused(RestoreFault::NotEmpty(head));
    }
    let line = match restore_new(rt, alloc, engine, version, root, source, workers, gate) {
        Ok(line) => line,
        Err(how) => return how,
    };
    match put_all(sink, line.as_slice()) {
        Ok(()) => Received::Done,
        Err(_) => Received::WriteFault,
    }
}

/// Restores a version into a store that is new, and returns the line that tells of it.
fn restore_new<S: Source, D: Disk, H: Threads + Sync, G: Gate>(
    rt: &H,
    alloc: Global,
    engine: &mut Engine<D>,
    version: u64,
    root: Hash,
    source: &mut S,
    workers: Workers,
    gate: &G,
) -> Result<Bytes, Received>
    requires bounded { version ≤ 2 ^ 64 - 2 }
    requires whole { engine.old.broken ≡ false }
    requires unused { IsNewStore engine.old.versions }
    ensures ok { IfOk result (λ line. (es : Entries) × RestoresEntries root es engine.old (S.rest source.old) (S.rest source.new) × HasImported version es engine.old engine.new × (line ≡ restored_text version root (length es))) }
    ensures err { (text : Option (List ℕ)) → IfErr result (λ how. HasReceived how version root engine.old engine.new (S.rest source.old) (S.rest source.new) text text) }
    ensures cause { result ≡ Err Received.ReadFault → HasCause (S.faults source.old) (S.faults source.new) }
    ensures unstopped { result ≡ Err Received.WriteFault → ⊥ }
    ensures counts { S.faults source.old ≤ S.faults source.new }
{
    let restore = match read_blocks(alloc, version, root, source) {
        Ok(restore) => restore,
        Err(how) => return Err(how),
    };
    let Ok(line) = restored_line(alloc, version, &root, restore.count()) else {
        return Err(Received::Memory);
    };
    match import(rt, alloc, engine, root, restore, workers, gate) {
        Ok(()) => Ok(line),
        Err(how) => Err(how),
    }
}

/// The head of a store that isn't new.
fn head_in_use<D: Disk>(engine: &Engine<D>) -> Option<u64>
    ensures found { IfSome result (λ head. (head ≡ engine.now.versions.head) × IsInUse engine.now.versions) }
    ensures none { IfNone result (IsNewStore engine.now.versions) }
{
    engine.know();
    let head = engine.state().head;
    let Some(newest) = engine.at(head) else {
        unreachable!()
    };
    if head != 0 || newest.count() > 0 {
        return Some(head);
    }
    None
}
