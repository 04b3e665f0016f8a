// Replies to `prove`, and what they show of a name under a root. Roots, keys and hashes are from outside, by Python's
// hashlib.
use jf_ask::{Lookup, LookupFault, look_up};
use jf_evidence::ProofFault;
use jf_path::{Bytes, Memory};
use jf_text::hash_of;
use std::alloc::Global;
use std::test::Fail;

// The map that has `1` at `a`.
const ONE: &str = "9bb72c39f13d2b512ea34eae99a28f6d807a134ab125e89172310c6f6ea72f8f";

// The map that has `22` at `b` too: the keys of `a` and `b` have just their first bit in common, 0; that of `c` begins
// with 1.
const TWO: &str = "d22189d895b6523204958425e959d4c78370fb4e8d104658d25dea583f3dc647";

// The map that has the empty value at `a`.
const VOID: &str = "fd2307270c401be83da0714a181eca80af07f330a43f98b4cb378a5abd422684";

const HEAD: &str = "7 ok proof 2\n";

const A: &str = "name 61\n";

const CLAIM: &str = "claim =31\n";

const FORGED: &str = "claim =32\n";

const NONE: &str = "claim none\n";

const LEAF: &str =
    "leaf 19d5f57c8e8b3cd760f853bb8d7900d68e10ef02674383de65a9b4d65e419b26 f254fd9353abb55f60a0942b46382c2428aa019d102cd9985275c0fb42a8dbb3\n";

// The leaf of the forged value.
const FORGED_LEAF: &str =
    "leaf 19d5f57c8e8b3cd760f853bb8d7900d68e10ef02674383de65a9b4d65e419b26 e6d2f38b796ebe79778972da19dec75bafb856918cc62160e500cd243f8c5836\n";

const VOID_LEAF: &str =
    "leaf 19d5f57c8e8b3cd760f853bb8d7900d68e10ef02674383de65a9b4d65e419b26 084fed08b978af4d7d196a7446a86b58009e636b611db16211b65a9aadff29c5\n";

const LOW: &str = "side 62cd93dd56dac0c0031243e7429f0fa848ea0ec28a7faf65902554fd1f91eb66\n";

const HIGH: &str = "side 6e340b9cffb37a989ca544e6bb780a2c78901d3fb33738768511a30617afa01d\n";

// The same, without the line feed that ends it.
const LAST: &str = "side 6e340b9cffb37a989ca544e6bb780a2c78901d3fb33738768511a30617afa01d";

const B: &str =
    "9 ok proof 2\nname 62\nclaim =3232\nleaf 6fe4ff1a836fcb881bbe03ff848bb731a5584708153d9bc6dc1d6430579a6a12 2b027502d6ac2b71b6f6f36a470b9be2bdfd5149247145a07d1109309f1e522f\nside 9bb72c39f13d2b512ea34eae99a28f6d807a134ab125e89172310c6f6ea72f8f\n";

const C: &str =
    "7 ok proof 1\nname 63\nclaim none\nleaf none\nside a5366c71b00d60c91455d5941525c27b4681a65b920b79dd2808482ad2e88aaa\n";

// A line that sets the root of the first map.
const SETS_ONE: &str =
    "7 ok root 9bb72c39f13d2b512ea34eae99a28f6d807a134ab125e89172310c6f6ea72f8f\n";

const NO_BLOCK: Lookup<'static> = Lookup::Refused(LookupFault::NoBlock);

const OTHER_NAME: Lookup<'static> = Lookup::Refused(LookupFault::OtherName);

const WRONG_LEAF: Lookup<'static> = Lookup::Refused(LookupFault::Claim(ProofFault::WrongLeaf));

const WRONG_PREFIX: Lookup<'static> = Lookup::Refused(LookupFault::Claim(ProofFault::WrongPrefix));

const WRONG_ROOT: Lookup<'static> = Lookup::Refused(LookupFault::Claim(ProofFault::WrongRoot));

// A root, a name, a reply in parts, and what it shows.
const REPLIES: &[(&str, &[u8], &[&str], Lookup<'static>)] = &[
    (
        TWO,
        b"a",
        &[HEAD, A, CLAIM, LEAF, LOW, HIGH],
        Lookup::Value(b"31"),
    ),
    (
        TWO,
        b"a",
        &["proof 2\n", A, CLAIM, LEAF, LOW, HIGH],
        Lookup::Value(b"31"),
    ),
    (
        TWO,
        b"a",
        &[HEAD, A, CLAIM, LEAF, LOW, LAST],
        Lookup::Value(b"31"),
    ),
    (TWO, b"b", &[B, HIGH], Lookup::Value(b"3232")),
    (TWO, b"c", &[C], Lookup::Absent),
    // The key of `z` agrees with that of `a` in two bits, so the leaf of `a` shows its absence under two siblings.
    (
        TWO,
        b"z",
        &[HEAD, "name 7a\n", NONE, LEAF, LOW, HIGH],
        Lookup::Absent,
    ),
    (
        TWO,
        b"z",
        &["proof 3\n", "name 7a\n", NONE, LEAF, HIGH, LOW, HIGH],
        WRONG_PREFIX,
    ),
    (
        ONE,
        b"a",
        &["0 ok proof 0\n", A, CLAIM, LEAF],
        Lookup::Value(b"31"),
    ),
    (
        VOID,
        b"a",
        &["0 ok proof 0\n", A, "claim =\n", VOID_LEAF],
        Lookup::Value(b""),
    ),
    // Forged values, and a forged absence.
    (TWO, b"a", &[HEAD, A, FORGED, LEAF, LOW, HIGH], WRONG_LEAF),
    (
        TWO,
        b"a",
        &[HEAD, A, FORGED, FORGED_LEAF, LOW, HIGH],
        WRONG_ROOT,
    ),
    (TWO, b"a", &[HEAD, A, NONE, LEAF, LOW, HIGH], WRONG_LEAF),
    (
        TWO,
        b"a",
        &[HEAD, A, NONE, "leaf none\n", LOW, HIGH],
        WRONG_ROOT,
    ),
    // The siblings in another order, and the proof of one version under the root of another.
    (TWO, b"a", &[HEAD, A, CLAIM, LEAF, HIGH, LOW], WRONG_ROOT),
    (ONE, b"a", &[HEAD, A, CLAIM, LEAF, LOW, HIGH], WRONG_ROOT),
    (TWO, b"a", &["0 ok proof 0\n", A, CLAIM, LEAF], WRONG_ROOT),
    // The block of another name, and of a longer one.
    (TWO, b"a", &[B, HIGH], OTHER_NAME),
    (TWO, b"ab", &[HEAD, A, CLAIM, LEAF, LOW, HIGH], OTHER_NAME),
    (TWO, b"", &[HEAD, A, CLAIM, LEAF, LOW, HIGH], OTHER_NAME),
    // Lines that set another root, before the block, in it and after it.
    (
        TWO,
        b"a",
        &[SETS_ONE, "0 ok proof 0\n", A, CLAIM, LEAF],
        NO_BLOCK,
    ),
    (
        TWO,
        b"a",
        &[HEAD, A, CLAIM, LEAF, LOW, SETS_ONE, HIGH],
        NO_BLOCK,
    ),
    (
        TWO,
        b"a",
        &[HEAD, A, CLAIM, LEAF, LOW, HIGH, SETS_ONE],
        NO_BLOCK,
    ),
    // A missing sibling, one too many, and other lines after the block.
    (TWO, b"a", &[HEAD, A, CLAIM, LEAF, LOW], NO_BLOCK),
    (
        TWO,
        b"a",
        &[HEAD, A, CLAIM, LEAF, LOW, HIGH, HIGH],
        NO_BLOCK,
    ),
    (
        TWO,
        b"a",
        &[HEAD, A, CLAIM, LEAF, LOW, HIGH, "\n"],
        NO_BLOCK,
    ),
    (TWO, b"a", &[HEAD, A, CLAIM, LEAF, LOW, HIGH, "x"], NO_BLOCK),
    (
        TWO,
        b"a",
        &[HEAD, A, CLAIM, LEAF, LOW, HIGH, B, HIGH],
        NO_BLOCK,
    ),
    // Refusals, and nothing.
    (TWO, b"a", &["7 no kept 3 5\n"], NO_BLOCK),
    (TWO, b"a", &[], NO_BLOCK),
];

// Joins these parts.
fn parts_in_a_row(alloc: Global, parts: &[&str]) -> Result<Bytes, Memory> {
    let mut text = Bytes::new(alloc);
    for part in parts {
        text.append(part.as_bytes())?;
    }
    Ok(text)
}

fn same(found: Lookup<'_>, wanted: Lookup<'_>) -> bool {
    match (found, wanted) {
        (Lookup::Value(digits), Lookup::Value(others)) => digits == others,
        (Lookup::Absent, Lookup::Absent) => true,
        (Lookup::Refused(why), Lookup::Refused(other)) => why == other,
        _ => false,
    }
}

fn shows(root: &str, name: &[u8], reply: &Bytes, wanted: Lookup<'_>) -> Result<(), Fail> {
    let Some(root) = hash_of(root.as_bytes()) else {
        return Err(Fail::new("this is no root"));
    };
    if same(look_up(&root, name, reply.as_slice()), wanted) {
        Ok(())
    } else {
        Err(Fail::new("the reply shows something else"))
    }
}

#[test]
fn replies_show_what_they_prove(rt: HostRuntime) -> Result<(), Fail> {
    for (root, name, parts, wanted) in REPLIES {
        let reply = parts_in_a_row(rt.alloc(), parts)?;
        shows(root, name, &reply, *wanted)?;
    }
    Ok(())
}

// A block of this many siblings, whose first line says so.
fn deep(alloc: Global, head: &str, siblings: u64) -> Result<Bytes, Memory> {
    let mut text = parts_in_a_row(alloc, &[head, A, CLAIM, LEAF])?;
    for _ in 0..siblings {
        text.append(HIGH.as_bytes())?;
    }
    Ok(text)
}

#[test]
fn a_block_has_at_most_256_siblings(rt: HostRuntime) -> Result<(), Fail> {
    shows(
        TWO,
        b"a",
        &deep(rt.alloc(), "proof 256\n", 256)?,
        WRONG_ROOT,
    )?;
    shows(TWO, b"a", &deep(rt.alloc(), "proof 257\n", 257)?, NO_BLOCK)
}
