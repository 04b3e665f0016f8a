// The map that has `1` at `a`, and lists of items that are no tree. Hashes are from outside, by Python's hashlib.
use crate::given::{Claimed, claims_of, list_of, same_items};
use jf_evidence::ProofFault;
use jf_hash::{Hash, value};
use jf_multi::{Item, ManyFault, ManyProof, are_rising, prove_many, verify_many};
use jf_node::{Link, Snapshot};
use jf_path::{HashList, Key, Memory, SharedBytes};
use std::alloc::Global;
use std::test::Fail;

// The root of the map.
const ROOT: Hash = [
    0x9b, 0xb7, 0x2c, 0x39, 0xf1, 0x3d, 0x2b, 0x51, 0x2e, 0xa3, 0x4e, 0xae, 0x99, 0xa2, 0x8f, 0x6d,
    0x80, 0x7a, 0x13, 0x4a, 0xb1, 0x25, 0xe8, 0x91, 0x72, 0x31, 0x0c, 0x6f, 0x6e, 0xa7, 0x2f, 0x8f,
];

// The key of `a`.
const A: Key = [
    0x19, 0xd5, 0xf5, 0x7c, 0x8e, 0x8b, 0x3c, 0xd7, 0x60, 0xf8, 0x53, 0xbb, 0x8d, 0x79, 0x00, 0xd6,
    0x8e, 0x10, 0xef, 0x02, 0x67, 0x43, 0x83, 0xde, 0x65, 0xa9, 0xb4, 0xd6, 0x5e, 0x41, 0x9b, 0x26,
];

// The key of `b`, which isn't in the map.
const B: Key = [
    0x6f, 0xe4, 0xff, 0x1a, 0x83, 0x6f, 0xcb, 0x88, 0x1b, 0xbe, 0x03, 0xff, 0x84, 0x8b, 0xb7, 0x31,
    0xa5, 0x58, 0x47, 0x08, 0x15, 0x3d, 0x9b, 0xc6, 0xdc, 0x1d, 0x64, 0x30, 0x57, 0x9a, 0x6a, 0x12,
];

// The hash of the value `1`.
const ONE: Hash = [
    0xf2, 0x54, 0xfd, 0x93, 0x53, 0xab, 0xb5, 0x5f, 0x60, 0xa0, 0x94, 0x2b, 0x46, 0x38, 0x2c, 0x24,
    0x28, 0xaa, 0x01, 0x9d, 0x10, 0x2c, 0xd9, 0x98, 0x52, 0x75, 0xc0, 0xfb, 0x42, 0xa8, 0xdb, 0xb3,
];

// Whether claims under the root are refused by items as expected, or accepted if no fault is given.
fn is_judged(
    alloc: Global,
    claims: &[Claimed],
    items: &[Item],
    fault: Option<ManyFault>,
) -> Result<bool, Memory> {
    let claims = claims_of(alloc, claims)?;
    let proof = ManyProof::of(alloc, list_of(alloc, items)?)?;
    Ok(verify_many(&ROOT, &claims, &proof).err() == fault)
}

const BOTH: &[Claimed] = &[("a", Some("1")), ("b", None)];

const END: Item = Item::End(Some((A, ONE)));

const REST: Item = Item::Rest(ROOT);

const SHAPE: Option<ManyFault> = Some(ManyFault::Shape);

// Claims, items, and the fault.
const ROWS: &[(&[Claimed], &[Item], Option<ManyFault>)] = &[
    (BOTH, &[END], None),
    (BOTH, &[REST], Some(ManyFault::Missing(0))),
    (
        &[("a", Some("2")), ("b", None)],
        &[END],
        Some(ManyFault::Single(0, ProofFault::WrongLeaf)),
    ),
    (
        &[("b", None), ("a", Some("2"))],
        &[END],
        Some(ManyFault::Single(1, ProofFault::WrongLeaf)),
    ),
    (&[], &[REST], None),
    (&[], &[], SHAPE),
    (BOTH, &[Item::Fork, END], SHAPE),
    (BOTH, &[END, END], SHAPE),
    (BOTH, &[Item::Fork, Item::Fork, END, END], SHAPE),
    (BOTH, &[Item::Fork, END, END, REST], SHAPE),
    (
        &[("b", None)],
        &[Item::Fork, END, Item::End(None)],
        Some(ManyFault::Single(0, ProofFault::WrongRoot)),
    ),
    (
        &[("b", None)],
        &[Item::Fork, Item::Fork, Item::End(None), END, REST],
        Some(ManyFault::Single(0, ProofFault::WrongPrefix)),
    ),
];

#[test]
fn claims_on_a_map_of_one_entry_are_judged(rt: HostRuntime) -> Result<(), Fail> {
    for (claims, items, fault) in ROWS {
        assert!(rt; is_judged(rt.alloc(), claims, items, *fault)?);
    }
    Ok(())
}

// The map.
fn map_of_a(alloc: Global) -> Result<Box<Snapshot>, Memory> {
    let shared = SharedBytes::copy_of(alloc, b"1")?;
    let top = Link::leaf(alloc, 1, 0, &A, &shared, &value(b"1"))?;
    Ok(Box::new(alloc, Snapshot::of(1, Some(top)))?)
}

// Whether the proof of keys in a map has these items.
fn is_proved(alloc: Global, map: &Snapshot, keys: &[Hash], items: &[Item]) -> Result<bool, Memory> {
    let mut list = HashList::new(alloc);
    for key in keys {
        list.push(*key)?;
    }
    if !are_rising(list.as_slice()) {
        return Ok(false);
    }
    let proof = prove_many(alloc, map, &list)?;
    Ok(same_items(proof.as_slice(), items))
}

// Keys in order, and the items of their proof.
const PROOFS: &[(&[Hash], &[Item])] = &[(&[A, B], &[END]), (&[B], &[END]), (&[], &[REST])];

#[test]
fn keys_of_a_map_of_one_entry_are_proved_by_one_item(rt: HostRuntime) -> Result<(), Fail> {
    let map = map_of_a(rt.alloc())?;
    assert!(rt; map.root() == ROOT);
    for (keys, items) in PROOFS {
        assert!(rt; is_proved(rt.alloc(), &map, keys, items)?);
    }
    Ok(())
}
