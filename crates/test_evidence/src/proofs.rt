// Proofs and their roots from outside, by Python's hashlib.
use crate::two_entries::{ROOT, list, proof_of_x, siblings_of_x};
use jf_hash::{Hash, empty, key_of, value};
use jf_path::{HashList, Key, Memory};
use jf_proof::{Proof, ProofFault, verify};
use std::alloc::Global;
use std::test::Fail;

// The root that the proof of `z24` gives with one more sibling at the bottom, the empty hash.
const DEEPER: Hash = [
    0xe9, 0x7b, 0x3b, 0x51, 0xc1, 0xc9, 0x4f, 0xab, 0xee, 0x56, 0x24, 0xcb, 0x04, 0xba, 0xdb, 0x08,
    0xad, 0x15, 0xa1, 0xd0, 0x66, 0x96, 0x21, 0xda, 0xff, 0x92, 0x87, 0x29, 0xae, 0x3d, 0x98, 0xb4,
];

// The hash beside the way of `w0`, whose first bit is the other one: the root of both leaves from depth 1 on.
const OTHER_SIDE: Hash = [
    0xc8, 0xe1, 0xbb, 0x5b, 0x39, 0x1a, 0xaf, 0xa7, 0xa5, 0x19, 0x1c, 0x1e, 0x0e, 0x45, 0xbd, 0x4e,
    0xe1, 0x10, 0xd9, 0x49, 0x3e, 0x36, 0xa8, 0x2d, 0xf8, 0x34, 0x34, 0x4e, 0x61, 0x0e, 0xa0, 0x07,
];

// A list of `count` siblings, each made of one byte: 0 for the lowest, and one more for each above.
fn chain(alloc: Global, count: u64) -> Result<HashList, Memory> {
    let mut list = HashList::new(alloc);
    for i in 0..count {
        list.push([(i % 256) as u8; 32])?;
    }
    Ok(list)
}

// The siblings of `x`, with the empty hash below them.
fn deeper_siblings() -> [Hash; 5] {
    let [other, none, again, last] = siblings_of_x();
    [none, other, none, again, last]
}

// Whether a claim is refused as expected, or accepted if no fault is given.
fn is_judged(
    root: &Hash,
    key: &Key,
    claim: Option<&str>,
    proof: &Proof,
    fault: Option<ProofFault>,
) -> bool {
    verify(root, key, claim.map(str::as_bytes), proof).err() == fault
}

// Judges the claims of a table under one proof: root, name, value or `None`, and the fault.
fn are_judged(
    proof: &Proof,
    rows: &[(Hash, &str, Option<&str>, Option<ProofFault>)],
) -> Result<(), Fail> {
    for (root, name, claim, fault) in rows {
        if !is_judged(root, &key_of(name.as_bytes()), *claim, proof, *fault) {
            return Err(Fail::new(name));
        }
    }
    Ok(())
}

const OF_THE_OWN_LEAF: &[(Hash, &str, Option<&str>, Option<ProofFault>)] = &[
    (ROOT, "x", Some("one"), None),
    (ROOT, "x", Some("on"), Some(ProofFault::WrongLeaf)),
    (ROOT, "x", None, Some(ProofFault::WrongLeaf)),
    (ROOT, "y30", Some("one"), Some(ProofFault::WrongLeaf)),
    (DEEPER, "x", Some("one"), Some(ProofFault::WrongRoot)),
    (DEEPER, "x", Some("two"), Some(ProofFault::WrongLeaf)),
];

#[test]
fn a_value_is_shown_by_its_leaf(rt: HostRuntime) -> Result<(), Fail> {
    are_judged(&proof_of_x(rt.alloc(), &siblings_of_x())?, OF_THE_OWN_LEAF)
}

const OF_A_LEAF_NEARBY: &[(Hash, &str, Option<&str>, Option<ProofFault>)] = &[
    (ROOT, "z24", None, None),
    (DEEPER, "z24", None, Some(ProofFault::WrongRoot)),
    (ROOT, "z24", Some("one"), Some(ProofFault::WrongLeaf)),
];

const OF_A_LEAF_TOO_DEEP: &[(Hash, &str, Option<&str>, Option<ProofFault>)] = &[
    (DEEPER, "z24", None, Some(ProofFault::WrongPrefix)),
    (ROOT, "z24", None, Some(ProofFault::WrongPrefix)),
    (DEEPER, "z24", Some("one"), Some(ProofFault::WrongLeaf)),
];

#[test]
fn absence_is_shown_by_a_leaf_that_shares_a_bit_for_each_sibling(
    rt: HostRuntime,
) -> Result<(), Fail> {
    are_judged(&proof_of_x(rt.alloc(), &siblings_of_x())?, OF_A_LEAF_NEARBY)?;
    are_judged(
        &proof_of_x(rt.alloc(), &deeper_siblings())?,
        OF_A_LEAF_TOO_DEEP,
    )
}

const OF_NO_LEAF: &[(Hash, &str, Option<&str>, Option<ProofFault>)] = &[
    (ROOT, "w0", None, None),
    (ROOT, "w0", Some(""), Some(ProofFault::WrongLeaf)),
    (ROOT, "x", None, Some(ProofFault::WrongRoot)),
];

// A proof without a leaf, with these siblings.
fn proof_of_none(alloc: Global, siblings: &[Hash]) -> Result<Proof, Memory> {
    Ok(Proof {
        leaf: None,
        siblings: list(alloc, siblings)?,
    })
}

#[test]
fn absence_is_shown_by_no_leaf(rt: HostRuntime) -> Result<(), Fail> {
    are_judged(&proof_of_none(rt.alloc(), &[OTHER_SIDE])?, OF_NO_LEAF)
}

#[test]
fn absence_from_the_empty_map_is_shown_by_nothing(rt: HostRuntime) -> Result<(), Fail> {
    let nothing = proof_of_none(rt.alloc(), &[])?;
    let w = key_of(b"w0");
    assert!(rt; is_judged(&empty(), &w, None, &nothing, None));
    assert!(rt; is_judged(&ROOT, &w, None, &nothing, Some(ProofFault::WrongRoot)));
    Ok(())
}

// A number of siblings, the root that the leaf of `one` at the key of bytes 5a gives under them, and whether they are
// too many.
const CHAINS: &[(u64, Hash, Option<ProofFault>)] = &[
    (
        0,
        [
            0x4c, 0x25, 0x87, 0xcc, 0xeb, 0xc6, 0xd2, 0x30, 0x9c, 0x8e, 0x54, 0xe2, 0x19, 0x87,
            0xce, 0x94, 0x98, 0x54, 0x7a, 0xca, 0x5a, 0x47, 0x44, 0x51, 0x31, 0xac, 0x5f, 0x62,
            0xfe, 0x5a, 0x24, 0x01,
        ],
        None,
    ),
    (
        1,
        [
            0xb6, 0xa7, 0xd2, 0x68, 0x94, 0x92, 0x7f, 0x6d, 0x45, 0xfe, 0x46, 0x10, 0x38, 0x3d,
            0xa5, 0x7a, 0xaf, 0x02, 0x7e, 0x61, 0xba, 0x94, 0x11, 0x43, 0xbc, 0x30, 0xc9, 0x92,
            0xd8, 0x95, 0xae, 0x37,
        ],
        None,
    ),
    (
        255,
        [
            0xe9, 0x7c, 0x5a, 0x85, 0xcf, 0x09, 0x95, 0x71, 0xba, 0xd1, 0xc0, 0x2c, 0xc9, 0x27,
            0x18, 0x75, 0x7e, 0x25, 0x41, 0x59, 0xd7, 0x77, 0xc4, 0x1a, 0xc5, 0xd6, 0xb1, 0x64,
            0x0d, 0x8b, 0x61, 0xbe,
        ],
        None,
    ),
    (
        256,
        [
            0x3f, 0x3e, 0x41, 0xf5, 0x7c, 0x67, 0x68, 0xa7, 0xde, 0x37, 0x25, 0x74, 0x97, 0xfc,
            0x40, 0xe8, 0x93, 0x38, 0x0b, 0xc4, 0xbc, 0xde, 0x1b, 0xb8, 0x8e, 0x94, 0x93, 0x6b,
            0x82, 0x8b, 0x7b, 0xb0,
        ],
        None,
    ),
    (257, ROOT, Some(ProofFault::TooDeep)),
];

fn is_chain_judged(
    alloc: Global,
    count: u64,
    root: &Hash,
    fault: Option<ProofFault>,
) -> Result<bool, Memory> {
    let key: Key = [0x5a; 32];
    let proof = Proof {
        leaf: Some((key, value(b"one"))),
        siblings: chain(alloc, count)?,
    };
    Ok(is_judged(root, &key, Some("one"), &proof, fault))
}

#[test]
fn at_most_256_siblings_are_taken(rt: HostRuntime) -> Result<(), Fail> {
    for (count, root, fault) in CHAINS {
        assert!(rt;
            is_chain_judged(rt.alloc(), *count, root, *fault)?,
            "{count}"
        );
    }
    Ok(())
}
