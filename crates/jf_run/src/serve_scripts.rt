// The scripts of several sessions, run over a store of one pass for each.
ghost use Rattle.std.specs.Prelude.{◌≡◌, ◌≤◌, ◌⊎◌, [], map, length, Option, None, false};
ghost use Rattle.jf_path.specs.Faults.{HasCause};
ghost use Rattle.jf_path.specs.Limits.{max_sessions};
ghost use Rattle.jf_io.specs.Lines.{lines};
ghost use Rattle.jf_model.specs.States.{state_when_opened};
ghost use Rattle.jf_model.specs.declared.entries.Entry.{Entry};
ghost use Rattle.jf_run.specs.Calls.{disk_of, engine_disk};
ghost use Rattle.jf_run.specs.Runs.{KeepsEntries};
ghost use Rattle.jf_run.specs.Serving.{HasServedScripts};

use crate::over::Over;
use crate::status::Status;
use jf_disk::Disk;
use jf_engine::Engine;
use jf_io::Sink;
use jf_join::{Gate, Workers};
use jf_model::Ledger;
use jf_path::Bytes;
use jf_serve::{ServeRefused, Served, serve, write_served};
use jf_store::{Closed, Store, StoreRefused};
use std::alloc::Global;
use std::sync::Wait;
use std::thread::Threads;

/// Runs one session for each of these scripts over a store that stands on this engine, and writes the output of each and
/// the entries of all into a sink. If there is no memory to begin, nothing is written, and the status is `Memory`.
pub(crate) fn serve_scripts<K: Sink, D: Disk, H: Threads + Wait + Sync, G: Gate>(
    rt: &H,
    alloc: Global,
    engine: Engine<D>,
    scripts: &[Bytes],
    sink: &mut K,
    workers: Workers,
    gate: &G,
) -> Over<D>
    requires whole { engine.broken ≡ false }
    requires sessions { (1 ≤ length scripts.now) × (length scripts.now ≤ max_sessions) }
    ensures served { (attempt : Option Entry) × KeepsEntries (state_when_opened engine.versions engine.generation) (engine_disk engine) (disk_of D.Disk result.disk) result.entries attempt
        × (((result.status ≡ Status.Memory) × (result.entries ≡ []) × (attempt ≡ None) × (sink.new ≡ sink.old))
        ⊎ HasServedScripts result.status (state_when_opened engine.versions engine.generation) (engine_disk engine) (disk_of D.Disk result.disk) (map lines scripts.now) result.entries attempt (K.text sink.old) (K.text sink.new) (K.faults sink.old) (K.faults sink.new)) }
    ensures cause { result.status ≡ Status.WriteFault → HasCause (K.faults sink.old) (K.faults sink.new) }
    ensures counts { K.faults sink.old ≤ K.faults sink.new }
{
    engine.know();
    let (store, passes) = match Store::new(alloc, engine, scripts.len() as u64) {
        Ok(made) => made,
        Err(StoreRefused { engine }) => {
            return Over::of_engine(Status::Memory, engine, Ledger::new(alloc));
        }
    };
    let Served {
        outputs,
        ends,
        engine,
        entries,
    } = match serve(rt, alloc, scripts, store, passes, workers, gate) {
        Ok(served) => served,
        Err(ServeRefused { store, passes }) => {
            let Closed { engine, entries: _ } = store.close(passes);
            return Over::of_engine(Status::Memory, engine, Ledger::new(alloc));
        }
    };
    let report = write_served(alloc, outputs.as_slice(), entries.as_slice(), sink);
    Over::of_engine(Status::of_served(ends.as_slice(), report), engine, entries)
}
