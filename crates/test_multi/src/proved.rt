// The proof of several names, from the nodes of a map. Roots and items are from outside, by Python's hashlib.
use crate::forty::{ENTRIES, ITEMS, NAMES, ROOT};
use crate::given::same_items;
use jf_hash::key_of;
use jf_join::{FreeGate, Workers};
use jf_multi::{Item, are_rising, prove_many};
use jf_node::Snapshot;
use jf_path::{HashList, Memory};
use jf_split::{Batch, BatchFault};
use jf_update::update;
use std::alloc::Global;
use std::test::Fail;
use std::thread::Threads;

fn batch_of(alloc: Global, entries: &[(&str, &str)]) -> Result<Batch, BatchFault> {
    let mut batch = Batch::new(alloc);
    for (name, value) in entries {
        let value = value.as_bytes();
        batch.put(
            alloc,
            &key_of(name.as_bytes()),
            &value[..value.len().min(4_096)],
        )?;
    }
    Ok(batch)
}

// The map of entries.
fn map_of<H: Threads + Sync>(
    rt: &H,
    alloc: Global,
    entries: &[(&str, &str)],
) -> Result<Box<Snapshot>, Fail> {
    let empty = Snapshot::empty(0);
    let batch = batch_of(alloc, entries)?;
    let landed = update(rt, alloc, &empty, &batch, Workers::ONE, &FreeGate)?;
    Ok(Box::new(alloc, landed.snapshot)?)
}

fn keys_of(alloc: Global, names: &[&str]) -> Result<HashList, Memory> {
    let mut keys = HashList::new(alloc);
    for name in names {
        keys.push(key_of(name.as_bytes()))?;
    }
    Ok(keys)
}

// Whether the proof of names in a map has these items.
fn is_proved(
    alloc: Global,
    map: &Snapshot,
    names: &[&str],
    items: &[Item],
) -> Result<bool, Memory> {
    let keys = keys_of(alloc, names)?;
    if !are_rising(keys.as_slice()) {
        return Ok(false);
    }
    let proof = prove_many(alloc, map, &keys)?;
    Ok(same_items(proof.as_slice(), items))
}

// Names in the order of their keys, and the items of their proof in the map of forty entries.
const PROOFS: &[(&[&str], &[Item])] = &[(NAMES, ITEMS), (&[], &[Item::Rest(ROOT)])];

#[test]
fn each_shared_hash_stands_once(rt: HostRuntime) -> Result<(), Fail> {
    let map = map_of(&rt, rt.alloc(), ENTRIES)?;
    assert!(rt; map.root() == ROOT);
    for (names, items) in PROOFS {
        assert!(rt; is_proved(rt.alloc(), &map, names, items)?);
    }
    Ok(())
}

#[test]
fn an_empty_map_is_one_end(rt: HostRuntime) -> Result<(), Fail> {
    let map = Snapshot::empty(1);
    assert!(rt; is_proved(rt.alloc(), &map, NAMES, &[Item::End(None)])?);
    Ok(())
}
