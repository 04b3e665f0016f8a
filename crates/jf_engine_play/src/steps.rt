// What is done to a store.
ghost use Rattle.std.specs.Prelude.{◌≡◌, ◌≤◌, length, true};
ghost use Rattle.jf_path.specs.Limits.{max_forks};
ghost use Rattle.jf_split.specs.Limits.{max_keys};
ghost use Rattle.jf_model.specs.Batches.{key_count};

use crate::entries::{Entries, pairs_of};
use crate::stores::workers_of;
use jf_disk::MemDisk;
use jf_engine::{Engine, EngineFault, Landed};
use jf_hash::key_of;
use jf_join::{FreeGate, Workers};
use jf_range::are_sorted;
use jf_restore::are_short;
use jf_split::{Batch, BatchFault, BatchList};
use std::alloc::Global;
use std::test::Fail;
use std::thread::Threads;

/// A name of one byte, and the byte that is put at its key, or `None` if the key is removed.
pub type Change = (u8, Option<u8>);

/// A step on a store: one batch is landed, or several together, the floor is raised, a new generation is written, or
/// entries are imported as this version.
#[derive(Clone, Copy, Debug)]
pub enum Step {
    Land(&'static [Change]),
    LandAll(&'static [&'static [Change]]),
    Prune(u64),
    Compact,
    Import(u64, Entries),
}

/// What a store returned, of which a test compares only whether and why it refused.
pub type Taken = Result<(), EngineFault>;

/// Three batches that leave one of two keys, which part at their first nibble.
pub const THREE: &[&[Change]] = &[
    &[(b'a', Some(b'1'))],
    &[(b'b', Some(b'2'))],
    &[(b'a', None)],
];

fn batch_of(alloc: Global, changes: &[Change]) -> Result<Batch, BatchFault> {
    let mut batch = Batch::new(alloc);
    for (name, byte) in changes {
        match byte {
            Some(byte) => batch.put(alloc, &key_of(&[*name]), &[*byte])?,
            None => batch.del(alloc, &key_of(&[*name]))?,
        }
    }
    Ok(batch)
}

fn list_of(alloc: Global, landings: &[&[Change]]) -> Result<BatchList, Fail> {
    let mut list = BatchList::new(alloc);
    for changes in landings {
        list.push(batch_of(alloc, changes)?)?;
    }
    Ok(list)
}

// Whether a list holds one batch, two or three, each of a few keys.
fn is_short(batches: &BatchList) -> bool
    ensures positive { result ≡ true → 1 ≤ length batches.now }
    ensures forks { result ≡ true → length batches.now ≤ max_forks }
    ensures bounded { result ≡ true → key_count batches.now ≤ max_keys }
{
    match batches.as_slice() {
        [one] => one.len() <= 9,
        [first, second] => first.len() <= 9 && second.len() <= 9,
        [first, second, third] => first.len() <= 9 && second.len() <= 9 && third.len() <= 9,
        _ => false,
    }
}

/// Lands one batch.
pub fn land<H: Threads + Sync>(
    rt: &H,
    alloc: Global,
    engine: &mut Engine<MemDisk>,
    changes: &[Change],
) -> Result<Result<Landed, EngineFault>, Fail> {
    let batch = batch_of(alloc, changes)?;
    Ok(engine.land(rt, alloc, &batch, workers_of(2)?, &FreeGate))
}

/// Lands one batch, two or three together.
pub fn land_all<H: Threads + Sync>(
    rt: &H,
    alloc: Global,
    engine: &mut Engine<MemDisk>,
    landings: &[&[Change]],
) -> Result<Result<Landed, EngineFault>, Fail> {
    let batches = list_of(alloc, landings)?;
    if !is_short(&batches) {
        return Err(Fail::new("no such list"));
    }
    Ok(engine.land_all(rt, alloc, &batches, Workers::ONE, &FreeGate))
}

fn prune(engine: &mut Engine<MemDisk>, floor: u64) -> Result<Taken, Fail> {
    let state = engine.state();
    if floor < state.floor || floor > state.head {
        return Err(Fail::new("no such floor"));
    }
    Ok(engine.prune(floor))
}

fn import<H: Threads + Sync>(
    rt: &H,
    alloc: Global,
    engine: &mut Engine<MemDisk>,
    version: u64,
    entries: Entries,
) -> Result<Taken, Fail> {
    let pairs = pairs_of(alloc, entries)?;
    if version == u64::MAX || !are_sorted(pairs.as_slice()) || !are_short(&pairs) {
        return Err(Fail::new("no such entries"));
    }
    Ok(engine.import(rt, alloc, version, &pairs, workers_of(2)?, &FreeGate))
}

/// Takes a step on a store.
pub fn take<H: Threads + Sync>(
    rt: &H,
    alloc: Global,
    engine: &mut Engine<MemDisk>,
    step: &Step,
) -> Result<Taken, Fail> {
    match step {
        Step::Land(changes) => Ok(land(rt, alloc, engine, changes)?.map(|_| ())),
        Step::LandAll(landings) => Ok(land_all(rt, alloc, engine, landings)?.map(|_| ())),
        Step::Prune(floor) => prune(engine, *floor),
        Step::Compact => Ok(engine.compact(alloc).map(|_| ())),
        Step::Import(version, entries) => import(rt, alloc, engine, *version, entries),
    }
}

/// Takes steps on a store, each of which has to succeed.
pub fn take_each<H: Threads + Sync>(
    rt: &H,
    alloc: Global,
    engine: &mut Engine<MemDisk>,
    steps: &[Step],
) -> Result<(), Fail> {
    for step in steps {
        take(rt, alloc, engine, step)??;
    }
    Ok(())
}
