// Two keys that agree in 255 bits: the least key and the next one. Hashes are from outside, by Python's hashlib.
use crate::given::{NONE, is_answered};
use jf_hash::Hash;
use jf_path::{Bytes, HashList, Key, Memory, Pairs};
use jf_range::RangeFault;
use jf_restore::{RangeProof, Restore, RestoreRefused};
use std::alloc::Global;
use std::test::Fail;

const LEAST: Key = [0; 32];

const NEXT: Key = [
    0, 0, 0, 0, 0, 0, 0, 0, 0, 0, 0, 0, 0, 0, 0, 0, 0, 0, 0, 0, 0, 0, 0, 0, 0, 0, 0, 0, 0, 0, 0, 1,
];

// The root of the map that has `one` at the least key and `two` at the next.
const ROOT: Hash = [
    0x35, 0x17, 0x50, 0x03, 0x5b, 0x41, 0xd6, 0x79, 0xeb, 0xef, 0x13, 0xe2, 0x60, 0x58, 0x2b, 0x98,
    0xbf, 0xde, 0x75, 0x9c, 0xb0, 0x41, 0x95, 0xb3, 0x2e, 0x88, 0x45, 0xcd, 0xe6, 0x42, 0x83, 0xac,
];

// The hash of the leaf of the next key.
const LEAF_OF_NEXT: Hash = [
    0xed, 0xf2, 0xf2, 0xed, 0x5e, 0x3c, 0xdc, 0xf4, 0xff, 0x53, 0x71, 0xf5, 0x0e, 0xe1, 0x81, 0x69,
    0x34, 0xcc, 0xb0, 0x07, 0xd4, 0xb8, 0xcb, 0xa2, 0xc0, 0xc4, 0xf4, 0xf4, 0x40, 0x8b, 0x06, 0xe0,
];

// A list of `count` right siblings: one hash, and empty hashes above it.
fn siblings_of(alloc: Global, lowest: Hash, count: u64) -> Result<HashList, Memory> {
    let mut siblings = HashList::new(alloc);
    siblings.push(lowest)?;
    for _ in 1..count {
        siblings.push(NONE)?;
    }
    Ok(siblings)
}

fn entry(alloc: Global, key: Key, value: &str) -> Result<Pairs, Memory> {
    let mut entries = Pairs::new(alloc);
    entries.push((key, Bytes::copy_of(alloc, value.as_bytes())?))?;
    Ok(entries)
}

// A key, its value, the lowest right sibling, their number, and the refusal at this depth.
const CHUNKS: &[(Key, &str, Hash, u64, u64, Option<RestoreRefused>)] = &[
    (LEAST, "one", LEAF_OF_NEXT, 256, 256, None),
    (
        NEXT,
        "two",
        NONE,
        255,
        255,
        Some(RestoreRefused::Chunk(RangeFault::Lone)),
    ),
    (
        NEXT,
        "two",
        NONE,
        256,
        256,
        Some(RestoreRefused::Chunk(RangeFault::Count)),
    ),
    (NEXT, "two", NONE, 255, 256, None),
];

#[test]
fn keys_that_differ_in_the_last_bit_alone_stand_256_bits_down(rt: HostRuntime) -> Result<(), Fail> {
    let mut restore = Box::new(rt.alloc(), Restore::new(rt.alloc(), 1, ROOT))?;
    for (key, value, lowest, count, depth, refused) in CHUNKS {
        let fresh = entry(rt.alloc(), *key, value)?;
        let proof = RangeProof {
            depth: *depth,
            siblings: siblings_of(rt.alloc(), *lowest, *count)?,
        };
        assert!(rt; is_answered(&mut restore, &fresh, &proof, *refused));
    }
    assert!(rt; restore.whole() == Ok(2));
    Ok(())
}
