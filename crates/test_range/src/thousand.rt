// Chunks of snapshots of 0, 1 and 1,000 entries, and a restore from them. The root, the depths and the numbers of
// siblings are from outside, by Python's hashlib.
use crate::given::is_answered;
use jf_hash::{Hash, key_of, value};
use jf_join::{FreeGate, Workers};
use jf_node::{Link, Snapshot};
use jf_path::SharedBytes;
use jf_range::{RangeAsk, prove_range};
use jf_restore::Restore;
use jf_split::{Batch, BatchFault};
use jf_update::update;
use std::alloc::Global;
use std::test::Fail;
use std::thread::Threads;

// The root of the map that has `first` at the four bytes of each number below 1,000.
const ROOT: Hash = [
    0xe7, 0x3a, 0x2c, 0xdb, 0x5a, 0xa0, 0x8e, 0xd0, 0x00, 0xfa, 0x7a, 0x5a, 0xda, 0x3c, 0x60, 0x3c,
    0x78, 0x4a, 0xb7, 0x36, 0x8e, 0x3c, 0x8b, 0x76, 0x11, 0xf0, 0x7e, 0xca, 0x16, 0xd1, 0x82, 0xba,
];

fn batch_of(alloc: Global, count: u32) -> Result<Batch, BatchFault> {
    let mut batch = Batch::new(alloc);
    for n in 0..count {
        batch.put(alloc, &key_of(&n.to_be_bytes()), b"first")?;
    }
    Ok(batch)
}

// The map of the numbers below `count`.
fn map_of<H: Threads + Sync>(rt: &H, alloc: Global, count: u32) -> Result<Box<Snapshot>, Fail> {
    let empty = Snapshot::empty(0);
    let batch = batch_of(alloc, count)?;
    let landed = update(rt, alloc, &empty, &batch, Workers::ONE, &FreeGate)?;
    Ok(Box::new(alloc, landed.snapshot)?)
}

// Whether a chunk has this number of entries, this depth and this number of siblings; or, beyond the last entry,
// whether the map has this number of entries.
fn is_chunk(
    alloc: Global,
    map: &Snapshot,
    ask: (u64, u64),
    chunk: Result<(u64, u64, u64), RangeAsk>,
) -> bool {
    match prove_range(alloc, map, ask.0, ask.1.max(1)) {
        Ok((entries, proof)) => Ok((entries.len(), proof.depth, proof.siblings.len())) == chunk,
        Err(why) => Err(why) == chunk,
    }
}

// A place and a number of entries, and the chunk expected.
const CHUNKS: &[((u64, u64), Result<(u64, u64, u64), RangeAsk>)] = &[
    ((0, 1), Ok((1, 9, 9))),
    ((0, 250), Ok((250, 11, 7))),
    ((0, 1_000), Ok((1000, 9, 0))),
    ((0, 2_000), Ok((1000, 9, 0))),
    ((3, 1), Ok((1, 13, 9))),
    ((250, 250), Ok((250, 9, 6))),
    ((499, 1), Ok((1, 9, 6))),
    ((990, 100), Ok((10, 9, 0))),
    ((999, 1), Ok((1, 9, 0))),
    ((1_000, 1), Err(RangeAsk::Beyond(1_000))),
    ((2_000, 5), Err(RangeAsk::Beyond(1_000))),
];

#[test]
fn a_chunk_has_the_entries_from_a_place_on(rt: HostRuntime) -> Result<(), Fail> {
    let map = map_of(&rt, rt.alloc(), 1_000)?;
    assert!(rt; map.root() == ROOT);
    for (ask, chunk) in CHUNKS {
        assert!(rt; is_chunk(rt.alloc(), &map, *ask, *chunk), "{}", ask.0);
    }
    Ok(())
}

#[test]
fn a_map_of_no_entry_has_no_chunk_and_one_of_one_entry_has_one(
    rt: HostRuntime,
) -> Result<(), Fail> {
    let alloc = rt.alloc();
    let none = Snapshot::empty(1);
    let shared = SharedBytes::copy_of(alloc, b"one")?;
    let top = Link::leaf(alloc, 1, 0, &key_of(b"x"), &shared, &value(b"one"))?;
    let one = Snapshot::of(1, Some(top));
    assert!(rt; is_chunk(alloc, &none, (0, 1), Err(RangeAsk::Beyond(0))));
    assert!(rt; is_chunk(alloc, &one, (0, 5), Ok((1, 0, 0))));
    assert!(rt; is_chunk(alloc, &one, (1, 1), Err(RangeAsk::Beyond(1))));
    Ok(())
}

// Whether a restore takes the map's chunk from a place on.
fn is_taken(alloc: Global, restore: &mut Restore, map: &Snapshot, start: u64, count: u64) -> bool {
    match prove_range(alloc, map, start, count.max(1)) {
        Ok((fresh, proof)) => is_answered(restore, &fresh, &proof, None),
        Err(_) => false,
    }
}

// Whether a restore takes the map's chunks of `count` entries in their order.
fn are_taken(alloc: Global, restore: &mut Restore, map: &Snapshot, count: u64) -> bool {
    let mut start = 0;
    for _ in 0..map.count() {
        if start >= map.count() {
            return true;
        }
        if !is_taken(alloc, restore, map, start, count) {
            return false;
        }
        start = start.saturating_add(count);
    }
    true
}

#[test]
fn chunks_of_any_length_make_the_whole(rt: HostRuntime) -> Result<(), Fail> {
    let map = map_of(&rt, rt.alloc(), 1_000)?;
    for count in [1, 7, 250, 1_000, 5_000] {
        let mut restore = Box::new(rt.alloc(), Restore::new(rt.alloc(), 1, ROOT))?;
        assert!(rt; are_taken(rt.alloc(), &mut restore, &map, count), "{count}");
        assert!(rt; restore.whole() == Ok(1_000), "{count}");
    }
    Ok(())
}
