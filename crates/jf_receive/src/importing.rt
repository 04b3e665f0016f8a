// The import of what was read into a new store.
ghost use Rattle.std.specs.Prelude.{◌≡◌, ℕ, List, Option, length, Err, IfErr, OnOk, false};
ghost use Rattle.jf_restore.specs.Finishes.{IsNewStore, HasImported};
ghost use Rattle.jf_receive.specs.Receives.{HasReceived, RestoresEntries};
ghost use Rattle.jf_receive.specs.TakenLines.{ComesToEntries};

use crate::received::{Received, RestoreFault};
use jf_disk::Disk;
use jf_engine::{Engine, EngineFault};
use jf_hash::Hash;
use jf_join::{Gate, Workers};
use jf_restore::{Restore, RestoreRefused};
use std::alloc::Global;
use std::thread::Threads;

/// Imports what was restored, if its root is the announced one.
pub(crate) fn import<D: Disk, H: Threads + Sync, G: Gate>(
    rt: &H,
    alloc: Global,
    engine: &mut Engine<D>,
    root: Hash,
    restore: Restore,
    workers: Workers,
    gate: &G,
) -> Result<(), Received>
    requires root { restore.root ≡ root }
    requires unused { IsNewStore engine.old.versions }
    requires whole { engine.old.broken ≡ false }
    ensures ok { OnOk result (HasImported restore.version restore.entries engine.old engine.new) }
    ensures rooted { (rest rest' : Option (List ℕ)) → ComesToEntries root restore.entries rest rest' → OnOk result (RestoresEntries root restore.entries engine.old rest rest') }
    ensures err { (rest rest' text : Option (List ℕ)) → ComesToEntries root restore.entries rest rest' → IfErr result (λ how. HasReceived how restore.version root engine.old engine.new rest rest' text text) }
    ensures unstopped { (result ≡ Err Received.ReadFault → ⊥) × (result ≡ Err Received.WriteFault → ⊥) }
{
    match restore.finish(rt, alloc, engine, workers, gate) {
        Ok(_) => Ok(()),
        Err(RestoreRefused::NotWhole(found)) => {
            Err(Received::Refused(RestoreFault::NotWhole(root, found)))
        }
        Err(RestoreRefused::Engine(EngineFault::Last(_))) => {
            Err(Received::Refused(RestoreFault::Last))
        }
        Err(RestoreRefused::Engine(EngineFault::DiskFault)) => Err(Received::DiskFault),
        Err(RestoreRefused::Engine(EngineFault::Memory)) => Err(Received::Memory),
        Err(RestoreRefused::Engine(EngineFault::Broken | EngineFault::NotEmpty(_))) => {
            unreachable!()
        }
        Err(RestoreRefused::Chunk(_) | RestoreRefused::Memory) => unreachable!(),
    }
}
