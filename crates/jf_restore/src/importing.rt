// The import of a restored version.
ghost use Rattle.std.specs.Prelude.{◌≡◌, ◌-◌, ◌^◌, ◌≤◌, T, MatchResult};
ghost use Rattle.std.specs.FinMap.{is_sorted};
ghost use Rattle.jf_path.specs.Keys.{key_cmp};
ghost use Rattle.jf_restore.specs.Finishes.{HasImported, IsNotImported};
ghost use Rattle.jf_restore.specs.Restores.{HaveShortValues};

use jf_disk::Disk;
use jf_engine::{Engine, EngineFault};
use jf_join::{Gate, Workers};
use jf_path::Pairs;
use std::alloc::Global;
use std::thread::Threads;

/// Imports a version with these entries.
pub(crate) fn import<D: Disk, H: Threads + Sync, G: Gate>(
    rt: &H,
    alloc: Global,
    engine: &mut Engine<D>,
    version: u64,
    entries: &Pairs,
    workers: Workers,
    gate: &G,
) -> Result<(), EngineFault>
    requires bounded { version ≤ 2 ^ 64 - 2 }
    requires sorted { T (is_sorted key_cmp entries.now) }
    requires short { HaveShortValues entries.now }
    ensures { MatchResult result (λ _. HasImported version entries.now engine.old engine.new) (IsNotImported version entries.now engine.old engine.new) }
{
    engine.import(rt, alloc, version, entries, workers, gate)
}
