// Blocks of many claims, and what is said of them among roots and proof blocks. Keys and hashes are from outside, by
// Python's hashlib.
use crate::verdicts::are_answered;
use std::test::Fail;

// The map that has `1` at `a`.
const ROOT: &str = "root 9bb72c39f13d2b512ea34eae99a28f6d807a134ab125e89172310c6f6ea72f8f\n";

// The claim on `a` that holds there, and one that doesn't.
const CLAIM: &str = "claim 61 =31\n";

const OTHER_CLAIM: &str = "claim 61 =32\n";

// The claim that there is no `b`.
const ABSENT: &str = "claim 62 none\n";

// The only leaf.
const END: &str =
    "end 19d5f57c8e8b3cd760f853bb8d7900d68e10ef02674383de65a9b4d65e419b26 f254fd9353abb55f60a0942b46382c2428aa019d102cd9985275c0fb42a8dbb3\n";

// The whole map, by its root alone.
const REST: &str = "rest 9bb72c39f13d2b512ea34eae99a28f6d807a134ab125e89172310c6f6ea72f8f\n";

// The claim on `a`, as a block with a proof of its own.
const PROOF: &str =
    "proof 0\nname 61\nclaim =31\nleaf 19d5f57c8e8b3cd760f853bb8d7900d68e10ef02674383de65a9b4d65e419b26 f254fd9353abb55f60a0942b46382c2428aa019d102cd9985275c0fb42a8dbb3\n";

// A root of no map.
const NO_MAP: &str = "root 0707070707070707070707070707070707070707070707070707070707070707\n";

// Inputs in parts, and what is said of them.
const INPUTS: &[(&[&str], &'static str)] = &[
    (&[ROOT, "many 2 1\n", CLAIM, ABSENT, END], "accepted\n"),
    (&[ROOT, "many 2 1\n", CLAIM, ABSENT, REST], "refused 2 1\n"),
    (
        &[ROOT, "many 2 1\n", OTHER_CLAIM, ABSENT, END],
        "refused 3 1 2\n",
    ),
    (
        &[ROOT, "many 3 1\n", CLAIM, ABSENT, OTHER_CLAIM, END],
        "refused 3 3 2\n",
    ),
    (
        &[NO_MAP, "many 2 1\n", CLAIM, ABSENT, END],
        "refused 3 1 4\n",
    ),
    // No claim, and no item.
    (&[ROOT, "many 0 1\n", REST], "accepted\n"),
    (&[ROOT, "many 0 0\n"], "refused 1\n"),
    (&[ROOT, "many 1 0\n", CLAIM], "refused 1\n"),
    (
        &[ROOT, "many 1 2\n", CLAIM, "fork\n", "end none\n"],
        "refused 1\n",
    ),
    // Among other blocks.
    (
        &[
            ROOT,
            "many 1 1\n",
            CLAIM,
            END,
            PROOF,
            "many 1 1\n",
            CLAIM,
            END,
        ],
        "accepted\naccepted\naccepted\n",
    ),
    // No root.
    (
        &["many 2 1\n", CLAIM, ABSENT, END],
        "syntax 1\nsyntax 2\nsyntax 3\nsyntax 4\n",
    ),
    // The input ends in the claims, and in the items.
    (&[ROOT, "many 2 1\n", CLAIM], "syntax 4\n"),
    (&[ROOT, "many 1 1\n", CLAIM], "syntax 4\n"),
    // An item in place of a claim, and a claim in place of an item.
    (&[ROOT, "many 2 1\n", CLAIM, "fork\n"], "syntax 4\n"),
    (
        &[ROOT, "many 1 1\n", CLAIM, ABSENT, "many 1 1\n", ABSENT, END],
        "syntax 4\naccepted\n",
    ),
    // A root may be set only between blocks.
    (
        &[ROOT, "many 1 1\n", ROOT, CLAIM, END],
        "syntax 3\nsyntax 4\nsyntax 5\n",
    ),
    // Too many claims, too many items, and a number of a reply.
    (&[ROOT, "many 10001 1\n"], "syntax 2\n"),
    (&[ROOT, "many 1 5120002\n"], "syntax 2\n"),
    (&[ROOT, "many 10000 5120001\n"], "syntax 3\n"),
    (&[ROOT, "7 ok many 0 1\n"], "syntax 2\n"),
];

#[test]
fn blocks_of_many_claims_are_answered(rt: HostRuntime) -> Result<(), Fail> {
    for (parts, wanted) in INPUTS {
        are_answered(rt.alloc(), parts, wanted)?;
    }
    Ok(())
}
