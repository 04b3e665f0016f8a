// The hashes of the values that a batch puts, before any of its nodes is made.
ghost use Rattle.std.specs.Prelude.{IfOk};
ghost use Rattle.jf_update.specs.ValueHashes.{AreValueHashes, IsValueHash};

use jf_hash::Hash;
use jf_join::Workers;
use jf_path::{Key, Memory, SharedBytes};
use rayon::prelude::*;
use std::alloc::Global;
use std::thread::Threads;

/// The hash of the value of each change; of a removal it is the hash of no entry. With more workers than one, many
/// values are hashed by several threads.
pub fn value_hashes<H: Threads + Sync>(
    rt: &H,
    alloc: Global,
    entries: &[(Key, Option<SharedBytes>)],
    workers: Workers,
) -> Result<Vec<Hash>, Memory>
    ensures { IfOk result (λ v. AreValueHashes entries.now v.items) }
{
    if workers.is_one() {
        return hashes_in_order(alloc, entries);
    }
    let hashes = entries
        .par_iter()
        .map(
            |entry: &(Key, Option<SharedBytes>)| -> Hash
                ensures { IsValueHash entry.now result }
            { value_hash(entry) },
        )
        .collect(rt, alloc)?;
    Ok(hashes)
}

/// The hashes of the values, in the caller's thread.
fn hashes_in_order(
    alloc: Global,
    entries: &[(Key, Option<SharedBytes>)],
) -> Result<Vec<Hash>, Memory>
    ensures { IfOk result (λ v. AreValueHashes entries.now v.items) }
{
    let mut hashes = Vec::with_capacity(alloc, entries.len())?;
    for entry in entries {
        hashes.push(value_hash(entry))?;
    }
    Ok(hashes)
}

/// The hash of the value of one change.
fn value_hash(entry: &(Key, Option<SharedBytes>)) -> Hash
    ensures { IsValueHash entry.now result }
{
    match &entry.1 {
        None => jf_hash::empty(),
        Some(value) => jf_hash::value(value.as_slice()),
    }
}
