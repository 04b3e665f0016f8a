// Claims on the map of forty entries, judged by one proof of five names. Verdicts are from outside, by Python's hashlib.
use crate::forty::{ITEMS, ROOT};
use crate::given::{Claimed, claims_of, list_of};
use jf_evidence::ProofFault;
use jf_hash::Hash;
use jf_multi::{ManyFault, ManyProof, verify_many};
use jf_path::Memory;
use std::alloc::Global;
use std::test::Fail;

// The root of no map that is known here.
const OTHER: Hash = [7; 32];

// Whether claims under a root are refused as expected, or accepted if no fault is given.
fn is_judged(
    alloc: Global,
    root: &Hash,
    claims: &[Claimed],
    proof: &ManyProof,
    fault: Option<ManyFault>,
) -> Result<bool, Memory> {
    let claims = claims_of(alloc, claims)?;
    Ok(verify_many(root, &claims, proof).err() == fault)
}

// A root, names with their values or `None`, and the fault.
const CLAIMS: &[(Hash, &[Claimed], Option<ManyFault>)] = &[
    (
        ROOT,
        &[
            ("n39", Some("vn39")),
            ("zz", None),
            ("n17", Some("vn17")),
            ("n3", Some("vn3")),
            ("q", None),
        ],
        None,
    ),
    (
        ROOT,
        &[
            ("q", None),
            ("n3", Some("vn3")),
            ("n17", Some("vn17")),
            ("zz", None),
            ("n39", Some("vn39")),
        ],
        None,
    ),
    (
        ROOT,
        &[
            ("n39", Some("vn39")),
            ("zz", None),
            ("n17", Some("vn17")),
            ("n3", Some("vn3")),
            ("q", None),
            ("n39", Some("vn39")),
            ("zz", None),
            ("n17", Some("vn17")),
            ("n3", Some("vn3")),
            ("q", None),
        ],
        None,
    ),
    (OTHER, &[], None),
    (
        ROOT,
        &[
            ("n39", Some("vn39")),
            ("zz", None),
            ("n17", Some("vn18")),
            ("n3", Some("vn3")),
            ("q", None),
        ],
        Some(ManyFault::Single(2, ProofFault::WrongLeaf)),
    ),
    (
        ROOT,
        &[
            ("n39", None),
            ("zz", None),
            ("n17", Some("vn17")),
            ("n3", Some("vn3")),
            ("q", None),
        ],
        Some(ManyFault::Single(0, ProofFault::WrongLeaf)),
    ),
    (
        ROOT,
        &[
            ("n39", Some("vn39")),
            ("zz", None),
            ("n17", Some("vn17")),
            ("n3", Some("vn3")),
            ("q", Some("")),
        ],
        Some(ManyFault::Single(4, ProofFault::WrongLeaf)),
    ),
    (
        OTHER,
        &[
            ("n39", Some("vn39")),
            ("zz", None),
            ("n17", Some("vn17")),
            ("n3", Some("vn3")),
            ("q", None),
        ],
        Some(ManyFault::Single(0, ProofFault::WrongRoot)),
    ),
    (
        OTHER,
        &[
            ("n17", Some("vn17")),
            ("n39", Some("vn39")),
            ("zz", None),
            ("n17", Some("vn17")),
            ("n3", Some("vn3")),
            ("q", None),
        ],
        Some(ManyFault::Single(0, ProofFault::WrongRoot)),
    ),
    (
        ROOT,
        &[
            ("n39", Some("vn39")),
            ("zz", None),
            ("n17", Some("vn17")),
            ("n3", Some("vn3")),
            ("q", None),
            ("n0", Some("vn0")),
        ],
        Some(ManyFault::Missing(5)),
    ),
    (
        ROOT,
        &[
            ("n39", Some("wrong")),
            ("zz", None),
            ("n17", Some("vn17")),
            ("n3", Some("vn3")),
            ("q", None),
            ("n0", Some("vn0")),
        ],
        Some(ManyFault::Missing(5)),
    ),
    (ROOT, &[("x16", None)], None),
];

#[test]
fn claims_are_judged_in_any_order_and_the_first_fault_is_told(rt: HostRuntime) -> Result<(), Fail> {
    let proof = Box::new(
        rt.alloc(),
        ManyProof::of(rt.alloc(), list_of(rt.alloc(), ITEMS)?)?,
    )?;
    for (root, claims, fault) in CLAIMS {
        assert!(rt; is_judged(rt.alloc(), root, claims, &proof, *fault)?);
    }
    Ok(())
}
