// The update of a snapshot: the public calls of this crate.
ghost use Rattle.std.specs.Prelude.{◌-◌, ◌^◌, ◌<◌, IfOk};
ghost use Rattle.jf_hash.specs.Maps.{IsBatch};
ghost use Rattle.jf_diff.specs.Landings.{IsNextSnapshot};
ghost use Rattle.jf_update.specs.Outcomes.{AreShort};
ghost use Rattle.jf_update.specs.Updates.{IsUpdate};
ghost use Rattle.jf_update.specs.ValueHashes.{AreValueHashes};

use crate::hashing::value_hashes;
use crate::top::next_top;
use jf_diff::{Written, landing_lists};
use jf_hash::Hash;
use jf_join::{Gate, Workers};
use jf_node::{Snapshot, Update};
use jf_path::{Key, Memory, SharedBytes};
use jf_split::Batch;
use std::alloc::Global;
use std::thread::Threads;

/// The version after `head`, with the changes applied; `hashes` has the hash of each value at the place of its change.
/// Only the top and the nodes below which something changes are made anew; every other node is shared with `head`. A
/// node is hashed if it is new. With more workers than one, the changes with each first nibble are a piece of work, of
/// which the gate is notified; a piece of over 1,024 changes is cut again by the next nibble if workers are left for it.
pub fn advance<H: Threads + Sync, G: Gate>(
    rt: &H,
    alloc: Global,
    head: &Snapshot,
    entries: &[(Key, Option<SharedBytes>)],
    hashes: &[Hash],
    workers: Workers,
    gate: &G,
) -> Result<Snapshot, Memory>
    requires version { head.now.version < 2 ^ 64 - 2 }
    requires batch { IsBatch entries.now }
    requires short { AreShort entries.now }
    requires hashed { AreValueHashes entries.now hashes.now }
    ensures { IfOk result (IsNextSnapshot head.now entries.now) }
{
    head.know();
    let top = next_top(
        rt,
        alloc,
        head.top(),
        head.version(),
        entries,
        hashes,
        workers,
        gate,
    )?;
    let snapshot = Snapshot::of(head.version() + 1, top);
    snapshot.know();
    Ok(snapshot)
}

/// The version after `head`, with the batch applied, the nodes that it writes and those that it makes stale. The gate is
/// told of the pieces of the update and of those of its lists.
pub fn update<H: Threads + Sync, G: Gate>(
    rt: &H,
    alloc: Global,
    head: &Snapshot,
    batch: &Batch,
    workers: Workers,
    gate: &G,
) -> Result<Update, Memory>
    requires version { head.now.version < 2 ^ 64 - 2 }
    ensures { IfOk result (IsUpdate head.now batch.now) }
{
    let entries = batch.as_slice();
    let hashes = value_hashes(rt, alloc, entries, workers)?;
    let snapshot = advance(rt, alloc, head, entries, &hashes, workers, gate)?;
    let Written { fresh, stale } = landing_lists(rt, alloc, head, &snapshot, workers, gate)?;
    let nodes = fresh.copy(alloc)?;
    Ok(Update {
        root: snapshot.root(),
        fresh: nodes,
        stale,
        snapshot,
    })
}
