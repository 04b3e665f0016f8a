// The directory of one version whose nodes are all of that version.
ghost use Rattle.std.specs.Prelude.{◌≡◌, ◌<◌, ◌≤◌, ◌+◌, ◌-◌, ◌^◌, IfOk, T, length, replicate};
ghost use Rattle.std.specs.FinMap.{is_sorted};
ghost use Rattle.jf_path.specs.Keys.{key_cmp};
ghost use Rattle.jf_hash.specs.Maps.{map_of_entries, IsBatch};
ghost use Rattle.jf_model.specs.Versions.{imported_versions};
ghost use Rattle.jf_codec.specs.declared.format.Format.TheVariants as format;
ghost use Rattle.jf_standing.specs.Building.{imported_standing};
ghost use Rattle.jf_standing.specs.Standing.{versions_of};
ghost use Rattle.jf_update.specs.Outcomes.{AreShort};
ghost use Rattle.jf_update.specs.Restored.{AreShortEntries};
ghost use Rattle.jf_dir.specs.Directories.{standing_by_name};
ghost use Rattle.jf_engine.specs.Imported.{IsImported, puts_of};

use jf_dir::{Directory, restored_from};
use jf_join::{Gate, Workers};
use jf_node::Snapshot;
use jf_path::{Bytes, Key, Memory, Pairs, SharedBytes, know_bytes, know_key};
use jf_update::{RebuildFault, advance, count_of_nodes, value_hashes};
use std::alloc::Global;
use std::thread::Threads;

/// The directory of one version, whose map has these entries. All its nodes are of that version, and are made by at most
/// this many workers; the gate is told of the pieces of this work.
pub(crate) fn imported_directory<H: Threads + Sync, G: Gate>(
    rt: &H,
    alloc: Global,
    version: u64,
    entries: &Pairs,
    workers: Workers,
    gate: &G,
) -> Result<Directory, Memory>
    requires bounded { version ≤ 2 ^ 64 - 2 }
    requires sorted { T (is_sorted key_cmp entries.now) }
    requires short { AreShortEntries entries.now }
    requires room { length entries.now ≤ 2 ^ 62 }
    ensures versions { IfOk result (λ d. versions_of d ≡ imported_versions version (map_of_entries entries.now)) }
    ensures standing { IfOk result (λ d. d ≡ standing_by_name (imported_standing format.Two version (map_of_entries entries.now))) }
{
    let snapshot = imported_snapshot(rt, alloc, version, entries.as_slice(), workers, gate)?;
    snapshot.know();
    let directory = Directory::of(alloc, version, &[], snapshot)?;
    Ok(directory)
}

/// The snapshot of these entries, whose nodes are all of one version.
fn imported_snapshot<H: Threads + Sync, G: Gate>(
    rt: &H,
    alloc: Global,
    version: u64,
    entries: &[(Key, Bytes)],
    workers: Workers,
    gate: &G,
) -> Result<Snapshot, Memory>
    requires bounded { version ≤ 2 ^ 64 - 2 }
    requires sorted { T (is_sorted key_cmp entries.now) }
    requires short { AreShortEntries entries.now }
    ensures { IfOk result (IsImported version entries.now) }
{
    match version.checked_sub(1) {
        None => first_snapshot(alloc, entries),
        Some(before) => snapshot_after(rt, alloc, before, entries, workers, gate),
    }
}

/// The snapshot of these entries that comes after a version with none.
fn snapshot_after<H: Threads + Sync, G: Gate>(
    rt: &H,
    alloc: Global,
    before: u64,
    entries: &[(Key, Bytes)],
    workers: Workers,
    gate: &G,
) -> Result<Snapshot, Memory>
    requires bounded { before < 2 ^ 64 - 2 }
    requires sorted { T (is_sorted key_cmp entries.now) }
    requires short { AreShortEntries entries.now }
    ensures { IfOk result (IsImported (before + 1) entries.now) }
{
    let puts = shared_puts(alloc, entries)?;
    let hashes = value_hashes(rt, alloc, &puts, workers)?;
    let empty = Snapshot::empty(before);
    advance(rt, alloc, &empty, &puts, &hashes, workers, gate)
}

/// Each entry as a put, with a value that can be shared.
fn shared_puts(
    alloc: Global,
    entries: &[(Key, Bytes)],
) -> Result<Vec<(Key, Option<SharedBytes>)>, Memory>
    requires sorted { T (is_sorted key_cmp entries.now) }
    requires short { AreShortEntries entries.now }
    ensures puts { IfOk result (λ v. v.items ≡ puts_of entries.now) }
    ensures batch { IfOk result (λ v. IsBatch v.items) }
    ensures short { IfOk result (λ v. AreShort v.items) }
{
    let mut puts = Vec::with_capacity(alloc, entries.len())?;
    for entry in entries {
        know_key(&entry.0);
        let bytes = entry.1.as_slice();
        know_bytes(bytes);
        let value = SharedBytes::copy_of(alloc, bytes)?;
        puts.push((entry.0, Some(value)))?;
    }
    Ok(puts)
}

/// The snapshot of these entries as version 0, which none comes before.
fn first_snapshot(alloc: Global, entries: &[(Key, Bytes)]) -> Result<Snapshot, Memory>
    requires sorted { T (is_sorted key_cmp entries.now) }
    requires short { AreShortEntries entries.now }
    ensures { IfOk result (IsImported 0 entries.now) }
{
    let shared = shared_entries(alloc, entries)?;
    let count = count_of_nodes(&shared)?;
    let versions = zeros(alloc, count)?;
    match restored_from(alloc, 0, &shared, &versions) {
        Ok(snapshot) => {
            snapshot.know();
            Ok(snapshot)
        }
        // There is a version for each node, so memory ran out.
        Err(RebuildFault::Versions | RebuildFault::Memory) => Err(Memory),
    }
}

/// The entries, with values that can be shared.
fn shared_entries(
    alloc: Global,
    entries: &[(Key, Bytes)],
) -> Result<Vec<(Key, SharedBytes)>, Memory>
    ensures { IfOk result (λ v. v.items ≡ entries.now) }
{
    let mut shared = Vec::with_capacity(alloc, entries.len())?;
    for entry in entries {
        let value = SharedBytes::copy_of(alloc, entry.1.as_slice())?;
        shared.push((entry.0, value))?;
    }
    Ok(shared)
}

/// So many zeros.
fn zeros(alloc: Global, count: u64) -> Result<Vec<u64>, Memory>
    ensures { IfOk result (λ v. v.items ≡ replicate count 0) }
{
    let mut zeros = Vec::new(alloc);
    zeros.resize(count as usize, 0)?;
    Ok(zeros)
}
