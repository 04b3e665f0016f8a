// What the mode `verify` says of blocks of the mode `many`, after a line with a root. The verdicts are from Python.
use crate::stores::{BLOCK, ONE_NAME};
use jf_play::play::{NO_FAULTS, has_ended, play_after};
use jf_play::roots::{EMPTY, ONE};
use jf_run::status::Status;
use std::alloc::Global;
use std::sync::Wait;
use std::test::Fail;
use std::thread::Threads;

// A root, a block, and the verdict on it.
const VERDICTS: &[(&str, &str, &str)] = &[
    (ONE, BLOCK, "accepted\n"),
    // A rest in place of the last line.
    (
        ONE,
        "many 2 1\nclaim 61 =31\nclaim 62 none\nrest 9bb72c39f13d2b512ea34eae99a28f6d807a134ab125e89172310c6f6ea72f8f\n",
        "refused 2 1\n",
    ),
    // Another value.
    (
        ONE,
        "many 2 1\nclaim 61 =32\nclaim 62 none\nend 19d5f57c8e8b3cd760f853bb8d7900d68e10ef02674383de65a9b4d65e419b26 f254fd9353abb55f60a0942b46382c2428aa019d102cd9985275c0fb42a8dbb3\n",
        "refused 3 1 2\n",
    ),
    // The same, as the second claim.
    (
        ONE,
        "many 2 1\nclaim 62 none\nclaim 61 =32\nend 19d5f57c8e8b3cd760f853bb8d7900d68e10ef02674383de65a9b4d65e419b26 f254fd9353abb55f60a0942b46382c2428aa019d102cd9985275c0fb42a8dbb3\n",
        "refused 3 2 2\n",
    ),
    // No claim.
    (
        ONE,
        "many 0 1\nrest 9bb72c39f13d2b512ea34eae99a28f6d807a134ab125e89172310c6f6ea72f8f\n",
        "accepted\n",
    ),
    // No whole tree.
    (ONE, "many 0 1\nfork\n", "refused 1\n"),
    // Another root.
    (EMPTY, BLOCK, "refused 3 1 4\n"),
];

// The text of a line with a root, and a block.
fn under_root(alloc: Global, root: &str, block: &[u8]) -> Result<Vec<u8>, Fail> {
    let mut text = b"root ".to_vec(alloc)?;
    text.extend_from_slice(root.as_bytes())?;
    text.push(b'\n')?;
    text.extend_from_slice(block)?;
    Ok(text)
}

// Whether `verify` writes this verdict on a block under a root.
fn is_judged<H: Threads + Wait + Sync>(
    rt: &H,
    alloc: Global,
    row: &(&str, &str, &str),
) -> Result<bool, Fail> {
    let text = under_root(alloc, row.0, row.1.as_bytes())?;
    let played = play_after(rt, alloc, "", "verify", &text, NO_FAULTS)?;
    Ok(has_ended(&played, Status::Done, None, row.2.as_bytes()))
}

#[test]
fn blocks_of_many_claims_are_judged_under_a_root(rt: HostRuntime) -> Result<(), Fail> {
    for row in VERDICTS {
        assert!(rt; is_judged(&rt, rt.alloc(), row)?, "of {}", row.1);
    }
    Ok(())
}

// Whether `verify` accepts what `many` wrote, after the root of the version.
fn is_accepted<H: Threads + Wait + Sync>(rt: &H, alloc: Global) -> Result<bool, Fail> {
    let written = play_after(rt, alloc, ONE_NAME, "many 1", b"62\n61\n", NO_FAULTS)?;
    let text = under_root(alloc, ONE, &written.text)?;
    let judged = play_after(rt, alloc, "", "verify", &text, NO_FAULTS)?;
    Ok(has_ended(&judged, Status::Done, None, b"accepted\n"))
}

#[test]
fn what_is_written_is_accepted(rt: HostRuntime) -> Result<(), Fail> {
    assert!(rt; is_accepted(&rt, rt.alloc())?);
    Ok(())
}
