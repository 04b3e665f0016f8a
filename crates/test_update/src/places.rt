// The entry at each place of a map. The order of the keys is from outside, by Python's hashlib.
use jf_hash::key_of;
use jf_join::{FreeGate, Workers};
use jf_node::Snapshot;
use jf_nth::nth;
use jf_path::Key;
use jf_split::{Batch, BatchFault};
use jf_update::update;
use std::alloc::Global;
use std::test::Fail;
use std::thread::Threads;

// The names of one byte from 0 to 99 in the order of their keys.
const NAMES: &[u8] = &[
    18, 73, 38, 19, 60, 21, 85, 79, 77, 43, 40, 70, 97, 84, 45, 80, 5, 95, 62, 65, 1, 50, 33, 69,
    94, 6, 86, 71, 34, 47, 14, 17, 93, 3, 15, 49, 68, 98, 75, 35, 24, 88, 20, 37, 56, 11, 76, 55,
    12, 78, 59, 64, 36, 26, 32, 82, 53, 27, 16, 13, 31, 83, 7, 46, 90, 54, 4, 22, 52, 2, 89, 10,
    67, 74, 23, 0, 87, 99, 58, 44, 66, 28, 63, 8, 61, 81, 29, 41, 72, 96, 30, 48, 57, 92, 42, 25,
    51, 39, 9, 91,
];

// Places past the last of a hundred entries.
const PAST: &[u64] = &[100, 101, 1_600, u64::MAX];

const LEAST: Key = [0; 32];

// The next key after the least, which agrees with it in 255 bits.
const NEXT: Key = [
    0, 0, 0, 0, 0, 0, 0, 0, 0, 0, 0, 0, 0, 0, 0, 0, 0, 0, 0, 0, 0, 0, 0, 0, 0, 0, 0, 0, 0, 0, 0, 1,
];

// Each name with itself as its value.
fn batch_of(alloc: Global, names: &[u8]) -> Result<Batch, BatchFault> {
    let mut batch = Batch::new(alloc);
    for name in names {
        let bytes = [*name];
        batch.put(alloc, &key_of(&bytes), &bytes)?;
    }
    Ok(batch)
}

fn near_keys(alloc: Global) -> Result<Batch, BatchFault> {
    let mut batch = Batch::new(alloc);
    batch.put(alloc, &LEAST, b"one")?;
    batch.put(alloc, &NEXT, b"two")?;
    Ok(batch)
}

fn map_of<H: Threads + Sync>(rt: &H, alloc: Global, batch: &Batch) -> Result<Box<Snapshot>, Fail> {
    let landed = update(
        rt,
        alloc,
        &Snapshot::empty(0),
        batch,
        Workers::ONE,
        &FreeGate,
    )?;
    Ok(Box::new(alloc, landed.snapshot)?)
}

// Whether this entry is at a place of a map.
fn has_at(map: &Snapshot, place: u64, key: &Key, value: &[u8]) -> bool {
    match nth(map, place) {
        Some((own, bytes)) => own == key && bytes == value,
        None => false,
    }
}

fn has_name_at(map: &Snapshot, place: u64, name: u8) -> bool {
    let bytes = [name];
    has_at(map, place, &key_of(&bytes), &bytes)
}

// How many names stand at their places before the first that doesn't.
fn in_order(map: &Snapshot, names: &[u8]) -> usize {
    for (i, name) in names.iter().enumerate() {
        if !has_name_at(map, i as u64, *name) {
            return i;
        }
    }
    names.len()
}

// Whether no entry stands at these places.
fn are_past(map: &Snapshot, places: &[u64]) -> bool {
    for place in places {
        if nth(map, *place).is_some() {
            return false;
        }
    }
    true
}

#[test]
fn a_hundred_entries_are_found_by_their_places(rt: HostRuntime) -> Result<(), Fail> {
    let batch = batch_of(rt.alloc(), NAMES)?;
    let map = map_of(&rt, rt.alloc(), &batch)?;
    assert_eq!(rt; in_order(&map, NAMES), 100);
    assert!(rt; are_past(&map, PAST));
    Ok(())
}

#[test]
fn two_entries_at_the_bottom_are_found_by_their_places(rt: HostRuntime) -> Result<(), Fail> {
    let batch = near_keys(rt.alloc())?;
    let map = map_of(&rt, rt.alloc(), &batch)?;
    assert!(rt; has_at(&map, 0, &LEAST, b"one") && has_at(&map, 1, &NEXT, b"two"));
    assert!(rt; nth(&map, 2).is_none());
    Ok(())
}

#[test]
fn no_entry_has_a_place_in_the_empty_map(rt: HostRuntime) -> Result<(), Fail> {
    assert!(rt; nth(&Snapshot::empty(1), 0).is_none());
    Ok(())
}
