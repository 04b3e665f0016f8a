// Landings over many keys: the root is compared with that of the whole map, and what a landing of one key writes is
// counted.
use crate::roots::root_of;
use jf_hash::{Hash, key_of, value};
use jf_join::{FreeGate, Workers};
use jf_node::Snapshot;
use jf_path::{Key, Memory, SharedBytes};
use jf_split::{Batch, BatchFault};
use jf_update::{Update, update};
use std::alloc::Global;
use std::test::Fail;
use std::thread::Threads;

// Numbers of keys, of which those below 100,000 are there at first, and whether a landing puts the key or removes it.
const WORDS: &[(u32, bool)] = &[
    (0, true),
    (1, true),
    (12_345, true),
    (50_000, true),
    (99_999, true),
    (3, false),
    (42, false),
    (500, false),
    (60_000, false),
    (77_777, false),
    (100_000, true),
    (100_001, true),
    (100_002, true),
    (100_003, true),
    (100_004, true),
    (100_000, false),
    (100_001, false),
    (3, true),
    (77_777, true),
    (0, false),
];

fn key(n: u32) -> Key {
    key_of(&n.to_be_bytes())
}

// A batch that puts the keys of 10,000 numbers; the first is given in thousands.
fn many(alloc: Global, thousands: u16) -> Result<Batch, BatchFault> {
    let mut batch = Batch::new(alloc);
    for n in 0..10_000 {
        batch.put(alloc, &key(u32::from(thousands) * 1_000 + n), b"first")?;
    }
    Ok(batch)
}

// A batch that puts or removes one key.
fn one(alloc: Global, n: u32, put: bool) -> Result<Batch, BatchFault> {
    let mut batch = Batch::new(alloc);
    if put {
        batch.put(alloc, &key(n), b"second")?;
    } else {
        batch.del(alloc, &key(n))?;
    }
    Ok(batch)
}

// Lands a batch as the next version, one below 100. It is boxed: whoever holds it then holds one value, not all that it
// is made of.
fn next<H: Threads + Sync>(
    rt: &H,
    alloc: Global,
    head: &Snapshot,
    batch: &Batch,
) -> Result<Box<Update>, Memory> {
    if head.version() >= 99 {
        return Err(Memory);
    }
    let landed = update(rt, alloc, head, batch, Workers::ONE, &FreeGate)?;
    Ok(Box::new(alloc, landed)?)
}

fn snapshot_of(update: Box<Update>) -> Snapshot {
    let Update { snapshot, .. } = Box::into_inner(update);
    snapshot
}

// The keys that are put, with the hashes of their values.
fn hashed_keys(
    alloc: Global,
    batch: &[(Key, Option<SharedBytes>)],
) -> Result<Vec<(Key, Hash)>, Memory> {
    let mut entries = Vec::new(alloc);
    for (key, bytes) in batch {
        if let Some(bytes) = bytes {
            entries.push((*key, value(bytes.as_slice())))?;
        }
    }
    Ok(entries)
}

fn has_map(update: &Update, entries: &[(Key, Hash)]) -> bool {
    update.snapshot.count() == 10_000 && Some(update.root) == root_of(entries)
}

// Whether 10,000 keys have the root of their map.
fn have_root<H: Threads + Sync>(rt: &H, alloc: Global) -> Result<bool, Fail> {
    let batch = many(alloc, 0)?;
    let entries = hashed_keys(alloc, batch.as_slice())?;
    let landed = next(rt, alloc, &Snapshot::empty(0), &batch)?;
    Ok(has_map(&landed, &entries))
}

// Lands 10,000 keys on a version, which becomes the next one.
fn land_many<H: Threads + Sync>(
    rt: &H,
    alloc: Global,
    head: &mut Snapshot,
    thousands: u16,
) -> Result<(), Fail> {
    let batch = many(alloc, thousands)?;
    let landed = next(rt, alloc, head, &batch)?;
    *head = snapshot_of(landed);
    Ok(())
}

// The snapshot of the keys of the numbers below 100,000, landed in ten batches.
fn full<H: Threads + Sync>(rt: &H, alloc: Global) -> Result<Snapshot, Fail> {
    let mut head = Snapshot::empty(0);
    for n in 0..10 {
        land_many(rt, alloc, &mut head, n * 10)?;
    }
    Ok(head)
}

// Whether at most 12 nodes were written.
fn is_light(landed: &Update) -> bool {
    landed.fresh.as_slice().len() <= 12
}

// Lands one change on a version, which becomes the next one, and returns whether it was light.
fn lands_lightly<H: Threads + Sync>(
    rt: &H,
    alloc: Global,
    head: &mut Snapshot,
    word: &(u32, bool),
) -> Result<bool, Fail> {
    let batch = one(alloc, word.0, word.1)?;
    let landed = next(rt, alloc, head, &batch)?;
    let light = is_light(&landed);
    *head = snapshot_of(landed);
    Ok(light)
}

// How many of the changes land lightly over 100,000 keys before the first that doesn't.
fn light<H: Threads + Sync>(rt: &H, alloc: Global, head: &mut Snapshot) -> Result<usize, Fail> {
    for (i, word) in WORDS.iter().enumerate() {
        if !lands_lightly(rt, alloc, head, word)? {
            return Ok(i);
        }
    }
    Ok(WORDS.len())
}

// Whether each of the changes lands lightly over 100,000 keys.
fn all_light<H: Threads + Sync>(rt: &H, alloc: Global) -> Result<bool, Fail> {
    let mut head = full(rt, alloc)?;
    let many = head.count() == 100_000;
    Ok(many && light(rt, alloc, &mut head)? == 20)
}

#[test]
fn one_key_over_many_writes_few_nodes(rt: HostRuntime) -> Result<(), Fail> {
    assert!(rt; all_light(&rt, rt.alloc())?);
    Ok(())
}

#[test]
fn ten_thousand_keys_have_the_root_of_their_map(rt: HostRuntime) -> Result<(), Fail> {
    assert!(rt; have_root(&rt, rt.alloc())?);
    Ok(())
}
