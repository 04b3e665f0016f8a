// Claims that are refused and claims that agree, under a root from outside, by Python's hashlib. No lists that collide
// are known.
use crate::two_entries::{ROOT, proof_of_x, siblings_of_x};
use jf_collide::{Audit, Judged, audit};
use jf_hash::{Hash, key_of, value};
use jf_path::{Bytes, HashList, Memory};
use jf_proof::{Proof, ProofFault};
use std::alloc::Global;
use std::test::Fail;

// The root of the map that has `1` at `a`.
const ONE: Hash = [
    0x9b, 0xb7, 0x2c, 0x39, 0xf1, 0x3d, 0x2b, 0x51, 0x2e, 0xa3, 0x4e, 0xae, 0x99, 0xa2, 0x8f, 0x6d,
    0x80, 0x7a, 0x13, 0x4a, 0xb1, 0x25, 0xe8, 0x91, 0x72, 0x31, 0x0c, 0x6f, 0x6e, 0xa7, 0x2f, 0x8f,
];

// The root of no map that is known here.
const OTHER: Hash = [7; 32];

fn copied_claim(alloc: Global, claim: Option<&str>) -> Result<Option<Bytes>, Memory> {
    match claim {
        Some(text) => Ok(Some(Bytes::copy_of(alloc, text.as_bytes())?)),
        None => Ok(None),
    }
}

// A claim on a name, with the proof by the leaf of `x`.
fn judged_claim(alloc: Global, name: &str, claim: Option<&str>) -> Result<Judged, Memory> {
    Ok(Judged {
        key: key_of(name.as_bytes()),
        claim: copied_claim(alloc, claim)?,
        proof: proof_of_x(alloc, &siblings_of_x())?,
    })
}

// Whether two claims agree, or the given one is refused as expected.
fn comes_to(
    alloc: Global,
    root: &Hash,
    first: &Judged,
    second: &Judged,
    refused: Option<(u64, ProofFault)>,
) -> Result<bool, Memory> {
    match audit(alloc, root, first, second)? {
        Audit::Agree => Ok(refused.is_none()),
        Audit::Refused { which, why } => Ok(refused == Some((which, why))),
        Audit::Collision(_, _) => Ok(false),
    }
}

// Whether claims on two names agree, or the given one is refused as expected.
fn is_audited(
    alloc: Global,
    root: &Hash,
    first: (&str, Option<&str>),
    second: (&str, Option<&str>),
    refused: Option<(u64, ProofFault)>,
) -> Result<bool, Memory> {
    let first = Box::new(alloc, judged_claim(alloc, first.0, first.1)?)?;
    let second = Box::new(alloc, judged_claim(alloc, second.0, second.1)?)?;
    comes_to(alloc, root, &first, &second, refused)
}

const VALUE: (&str, Option<&str>) = ("x", Some("one"));

const ABSENCE: (&str, Option<&str>) = ("z24", None);

const OTHER_VALUE: (&str, Option<&str>) = ("x", Some("two"));

const OTHER_KEY: (&str, Option<&str>) = ("y30", None);

// A root, two claims, and which of them is refused and why.
const PAIRS: &[(
    Hash,
    (&str, Option<&str>),
    (&str, Option<&str>),
    Option<(u64, ProofFault)>,
)] = &[
    (ROOT, VALUE, VALUE, None),
    (ROOT, VALUE, ABSENCE, None),
    (ROOT, ABSENCE, ABSENCE, None),
    (ROOT, OTHER_VALUE, VALUE, Some((0, ProofFault::WrongLeaf))),
    (ROOT, VALUE, OTHER_VALUE, Some((1, ProofFault::WrongLeaf))),
    (
        ROOT,
        OTHER_KEY,
        OTHER_VALUE,
        Some((0, ProofFault::WrongPrefix)),
    ),
    (ROOT, VALUE, OTHER_KEY, Some((1, ProofFault::WrongPrefix))),
    (OTHER, VALUE, OTHER_KEY, Some((0, ProofFault::WrongRoot))),
];

#[test]
fn claims_agree_or_the_first_that_is_refused_is_told(rt: HostRuntime) -> Result<(), Fail> {
    for (root, first, second, refused) in PAIRS {
        assert!(rt; is_audited(rt.alloc(), root, *first, *second, *refused)?);
    }
    Ok(())
}

#[test]
fn one_claim_given_twice_agrees(rt: HostRuntime) -> Result<(), Fail> {
    let only = Judged {
        key: key_of(b"a"),
        claim: copied_claim(rt.alloc(), Some("1"))?,
        proof: Proof {
            leaf: Some((key_of(b"a"), value(b"1"))),
            siblings: HashList::new(rt.alloc()),
        },
    };
    assert!(rt; comes_to(rt.alloc(), &ONE, &only, &only, None)?);
    Ok(())
}
