// Sessions are run side by side over the passes of a store, which is then closed.
ghost use Rattle.std.specs.Prelude.{◌≡◌, map, length, IfOk, IfErr};
ghost use Rattle.jf_io.specs.Lines.{lines};
ghost use Rattle.jf_store.specs.Passes.{AreNewPasses};
ghost use Rattle.jf_serve.specs.Served.{HasServed};

use crate::gathered::Gathered;
use crate::outputs::{Ends, Outputs};
use crate::side_by_side::run_side_by_side;
use jf_disk::Disk;
use jf_engine::Engine;
use jf_history::{
    closed_blames, closed_explains, closed_spares_pins, closed_tries, one_served_is_alone,
};
use jf_join::{Gate, Workers};
use jf_model::Ledger;
use jf_path::Bytes;
use jf_store::{Closed, Pass, Store};
use std::alloc::Global;
use std::sync::Wait;
use std::thread::Threads;

/// The result of several sessions: what each wrote and how it ended, the engine of their store, and the entries that they made.
#[derive(Drop)]
pub struct Served<D: Disk> {
    pub outputs: Outputs,
    pub ends: Ends,
    pub engine: Engine<D>,
    pub entries: Ledger,
}

/// There was no memory, and no session began. The store and its passes come back.
pub struct ServeRefused<D: Disk> {
    pub store: Store<D>,
    pub passes: Vec<Pass<D>>,
}

/// Runs one session for each script (docs/FORMATS.md, "Several sessions") over a store and its new passes, in the order of their numbers,
/// and then closes the store. Each session but the first has a thread of its own; if no thread can be made, the caller does
/// that session's work too. A session waits for another only if a line asks the store. The gate is notified of each session
/// before it begins. A landing takes at most this many workers.
///
/// A session ends with `Done` if all its lines were answered, with `DiskFault` if the disk failed in what its next line asked
/// for, with `Broken` if the disk had failed in another session before, and with `Memory` if memory ran out, or if its output
/// would pass 2^30 bytes. The others go on.
pub fn serve<D: Disk, H: Threads + Wait + Sync, G: Gate>(
    rt: &H,
    alloc: Global,
    scripts: &[Bytes],
    store: Store<D>,
    passes: Vec<Pass<D>>,
    workers: Workers,
    gate: &G,
) -> Result<Served<D>, ServeRefused<D>>
    // The passes are new ones of this store, in the order of their numbers.
    requires new { AreNewPasses store passes.items 0 }
    // They are all passes of the store.
    requires gathered { length passes.items ≡ store.start.passes }
    // There is one script for each pass.
    requires long { length scripts.now ≡ length passes.items }
    // One legal history explains all outputs, and the store that is handed back holds what its entries made.
    ensures served { IfOk result (λ r. HasServed store.start (map lines scripts.now) r.outputs r.ends r.entries r.engine) }
    // After a refusal store and passes are handed back, unchanged.
    ensures refused { IfErr result (λ r. (r.store ≡ store) × (r.passes ≡ passes)) }
{
    closed_explains();
    closed_tries();
    closed_blames();
    closed_spares_pins();
    one_served_is_alone();
    let Ok(gathered) = Gathered::with_room(alloc, passes.len()) else {
        return Err(ServeRefused { store, passes });
    };
    let gathered = run_side_by_side(rt, alloc, &store, scripts, passes, &workers, gate, gathered);
    let (passes, outputs, ends) = gathered.into_parts();
    let Closed { engine, entries } = store.close(passes);
    Ok(Served {
        outputs,
        ends,
        engine,
        entries,
    })
}
