// What replies to `prove` show of a name under a root. Roots, keys and hashes are by Python's `hashlib`.
use jf_evidence::ProofFault;
use jf_play::blocks::Parts;
use jf_play::files::bytes_of;
use jf_play::play::{NO_FAULTS, has_ended, new_disk, play_line};
use jf_run::LookupFault;
use jf_run::status::Status;
use std::alloc::Global;
use std::sync::Wait;
use std::test::Fail;
use std::thread::Threads;

// The map that has `1` at `a`.
const ONE: &str = "9bb72c39f13d2b512ea34eae99a28f6d807a134ab125e89172310c6f6ea72f8f";

// The map that has `22` at `b` too: the keys of `a` and `b` have just their first bit in common, 0; that of `c` begins
// with 1.
const TWO: &str = "d22189d895b6523204958425e959d4c78370fb4e8d104658d25dea583f3dc647";

// The map that has the empty value at `a`.
const VOID: &str = "fd2307270c401be83da0714a181eca80af07f330a43f98b4cb378a5abd422684";

const HEAD: &[u8] = b"7 ok proof 2\n";

const A: &[u8] = b"name 61\n";

const CLAIM: &[u8] = b"claim =31\n";

const FORGED: &[u8] = b"claim =32\n";

const NONE: &[u8] = b"claim none\n";

const LEAF: &[u8] =
    b"leaf 19d5f57c8e8b3cd760f853bb8d7900d68e10ef02674383de65a9b4d65e419b26 f254fd9353abb55f60a0942b46382c2428aa019d102cd9985275c0fb42a8dbb3\n";

// The leaf of the forged value.
const FORGED_LEAF: &[u8] =
    b"leaf 19d5f57c8e8b3cd760f853bb8d7900d68e10ef02674383de65a9b4d65e419b26 e6d2f38b796ebe79778972da19dec75bafb856918cc62160e500cd243f8c5836\n";

const VOID_LEAF: &[u8] =
    b"leaf 19d5f57c8e8b3cd760f853bb8d7900d68e10ef02674383de65a9b4d65e419b26 084fed08b978af4d7d196a7446a86b58009e636b611db16211b65a9aadff29c5\n";

const LOW: &[u8] = b"side 62cd93dd56dac0c0031243e7429f0fa848ea0ec28a7faf65902554fd1f91eb66\n";

const HIGH: &[u8] = b"side 6e340b9cffb37a989ca544e6bb780a2c78901d3fb33738768511a30617afa01d\n";

// The same, without the line feed that ends it.
const LAST: &[u8] = b"side 6e340b9cffb37a989ca544e6bb780a2c78901d3fb33738768511a30617afa01d";

const B: &[u8] = b"9 ok proof 2\n\
    name 62\n\
    claim =3232\n\
    leaf 6fe4ff1a836fcb881bbe03ff848bb731a5584708153d9bc6dc1d6430579a6a12 2b027502d6ac2b71b6f6f36a470b9be2bdfd5149247145a07d1109309f1e522f\n\
    side 9bb72c39f13d2b512ea34eae99a28f6d807a134ab125e89172310c6f6ea72f8f\n";

const C: &[u8] = b"7 ok proof 1\n\
    name 63\n\
    claim none\n\
    leaf none\n\
    side a5366c71b00d60c91455d5941525c27b4681a65b920b79dd2808482ad2e88aaa\n";

// A line that sets the root of the first map.
const SETS_ONE: &[u8] =
    b"7 ok root 9bb72c39f13d2b512ea34eae99a28f6d807a134ab125e89172310c6f6ea72f8f\n";

// A root, a name, a reply in parts, and what it shows.
const SHOWN: &[(&str, &str, Parts, &[u8])] = &[
    (
        TWO,
        "61",
        &[HEAD, A, CLAIM, LEAF, LOW, HIGH],
        b"value =31\n",
    ),
    (
        TWO,
        "61",
        &[b"proof 2\n", A, CLAIM, LEAF, LOW, LAST],
        b"value =31\n",
    ),
    (TWO, "62", &[B, HIGH], b"value =3232\n"),
    (
        ONE,
        "61",
        &[b"0 ok proof 0\n", A, CLAIM, LEAF],
        b"value =31\n",
    ),
    (
        VOID,
        "61",
        &[b"0 ok proof 0\n", A, b"claim =\n", VOID_LEAF],
        b"value =\n",
    ),
    (TWO, "63", &[C], b"none\n"),
    // The key of `z` agrees with that of `a` in two bits, so the leaf of `a` shows its absence under two siblings.
    (
        TWO,
        "7a",
        &[HEAD, b"name 7a\n", NONE, LEAF, LOW, HIGH],
        b"none\n",
    ),
];

// A root, a name, a reply in parts, why it shows nothing, and what is written.
const REFUSED: &[(&str, &str, Parts, LookupFault, &[u8])] = &[
    // A forged value, and a forged absence.
    (
        TWO,
        "61",
        &[HEAD, A, FORGED, LEAF, LOW, HIGH],
        LookupFault::Claim(ProofFault::WrongLeaf),
        b"refused 2\n",
    ),
    (
        TWO,
        "61",
        &[HEAD, A, NONE, LEAF, LOW, HIGH],
        LookupFault::Claim(ProofFault::WrongLeaf),
        b"refused 2\n",
    ),
    (
        TWO,
        "7a",
        &[b"proof 3\n", b"name 7a\n", NONE, LEAF, HIGH, LOW, HIGH],
        LookupFault::Claim(ProofFault::WrongPrefix),
        b"refused 3\n",
    ),
    (
        TWO,
        "61",
        &[HEAD, A, FORGED, FORGED_LEAF, LOW, HIGH],
        LookupFault::Claim(ProofFault::WrongRoot),
        b"refused 4\n",
    ),
    // The proof of one version under the root of another.
    (
        ONE,
        "61",
        &[HEAD, A, CLAIM, LEAF, LOW, HIGH],
        LookupFault::Claim(ProofFault::WrongRoot),
        b"refused 4\n",
    ),
    // Another name, and a longer one.
    (
        TWO,
        "61",
        &[B, HIGH],
        LookupFault::OtherName,
        b"refused 5\n",
    ),
    (
        TWO,
        "6161",
        &[HEAD, A, CLAIM, LEAF, LOW, HIGH],
        LookupFault::OtherName,
        b"refused 5\n",
    ),
    // A line that sets another root, before the block, in it and after it.
    (
        TWO,
        "61",
        &[SETS_ONE, b"0 ok proof 0\n", A, CLAIM, LEAF],
        LookupFault::NoBlock,
        b"refused 6\n",
    ),
    (
        TWO,
        "61",
        &[HEAD, A, CLAIM, LEAF, LOW, SETS_ONE, HIGH],
        LookupFault::NoBlock,
        b"refused 6\n",
    ),
    (
        TWO,
        "61",
        &[HEAD, A, CLAIM, LEAF, LOW, HIGH, SETS_ONE],
        LookupFault::NoBlock,
        b"refused 6\n",
    ),
    // A missing sibling, one too many, bytes and lines after the block, a second block, a refusal, and nothing.
    (
        TWO,
        "61",
        &[HEAD, A, CLAIM, LEAF, LOW],
        LookupFault::NoBlock,
        b"refused 6\n",
    ),
    (
        TWO,
        "61",
        &[HEAD, A, CLAIM, LEAF, LOW, HIGH, HIGH],
        LookupFault::NoBlock,
        b"refused 6\n",
    ),
    (
        TWO,
        "61",
        &[HEAD, A, CLAIM, LEAF, LOW, HIGH, b"x"],
        LookupFault::NoBlock,
        b"refused 6\n",
    ),
    (
        TWO,
        "61",
        &[HEAD, A, CLAIM, LEAF, LOW, HIGH, b"\n"],
        LookupFault::NoBlock,
        b"refused 6\n",
    ),
    (
        TWO,
        "61",
        &[HEAD, A, CLAIM, LEAF, LOW, HIGH, B, HIGH],
        LookupFault::NoBlock,
        b"refused 6\n",
    ),
    (
        TWO,
        "61",
        &[b"7 no retired 3\n"],
        LookupFault::NoBlock,
        b"refused 6\n",
    ),
    (TWO, "61", &[], LookupFault::NoBlock, b"refused 6\n"),
];

// Whether `judge` ends so on a reply.
fn is_judged<H: Threads + Wait + Sync>(
    rt: &H,
    alloc: Global,
    asked: (&str, &str, Parts),
    status: Status,
    text: &[u8],
) -> Result<bool, Fail> {
    let line = format!(in alloc; "judge {} {}", asked.0, asked.1)?;
    let input = bytes_of(alloc, asked.2)?;
    let disk = new_disk(alloc, b"", &[])?;
    let played = play_line(rt, alloc, disk, line.as_str(), &input, NO_FAULTS)?;
    Ok(has_ended(&played, status, None, text) && played.entries == 0)
}

#[test]
fn a_reply_shows_a_value_or_its_absence(rt: HostRuntime) -> Result<(), Fail> {
    for (number, row) in SHOWN.iter().enumerate() {
        let asked = (row.0, row.1, row.2);
        assert!(rt;
            is_judged(&rt, rt.alloc(), asked, Status::Done, row.3)?,
            "of {number}"
        );
    }
    Ok(())
}

#[test]
fn a_reply_that_shows_nothing_is_refused_by_its_first_fault(rt: HostRuntime) -> Result<(), Fail> {
    for (number, row) in REFUSED.iter().enumerate() {
        let asked = (row.0, row.1, row.2);
        assert!(rt;
            is_judged(&rt, rt.alloc(), asked, Status::NotShown(row.3), row.4)?,
            "of {number}"
        );
    }
    Ok(())
}
