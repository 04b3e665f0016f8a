// Proof blocks at the bounds of what `verify` reads. The hashes are from Python's `hashlib`.
use jf_play::blocks::{EMPTY_SIDE, Parts};
use jf_play::files::bytes_of;
use jf_play::play::{NO_FAULTS, has_ended, new_disk, play};
use jf_run::status::Status;
use std::alloc::Global;
use std::sync::Wait;
use std::test::Fail;
use std::thread::Threads;

// The root of `put 61 =31`.
const ROOT: &[u8] = b"root 9bb72c39f13d2b512ea34eae99a28f6d807a134ab125e89172310c6f6ea72f8f\n";

// The lines of a proof of it, up to the siblings.
const LINES: &[u8] = b"name 61\n\
    claim =31\n\
    leaf 19d5f57c8e8b3cd760f853bb8d7900d68e10ef02674383de65a9b4d65e419b26 f254fd9353abb55f60a0942b46382c2428aa019d102cd9985275c0fb42a8dbb3\n";

// An input in parts, after which come so many siblings, and the verdict on it.
const ROWS: &[(Parts, usize, &[u8])] = &[
    (&[ROOT, b"proof 0\n", LINES], 0, b"accepted\n"),
    (&[ROOT, b"proof 256\n", LINES], 256, b"refused 4\n"),
    (&[ROOT, b"proof 257\n", LINES], 257, b"refused 1\n"),
    (&[ROOT, b"proof 65535\n"], 0, b"syntax 3\n"),
    (&[ROOT, b"proof 65536\n"], 0, b"syntax 2\n"),
];

// The input, with so many siblings.
fn deep(alloc: Global, input: Parts, siblings: usize) -> Result<Vec<u8>, Fail> {
    let mut text = bytes_of(alloc, input)?;
    for _ in 0..siblings {
        text.extend_from_slice(EMPTY_SIDE)?;
    }
    Ok(text)
}

// Whether an input is judged so.
fn is_judged<H: Threads + Wait + Sync>(
    rt: &H,
    alloc: Global,
    row: &(Parts, usize, &[u8]),
) -> Result<bool, Fail> {
    let input = deep(alloc, row.0, row.1)?;
    let disk = new_disk(alloc, b"", &[])?;
    let played = play(rt, alloc, disk, "verify", &input, NO_FAULTS)?;
    Ok(has_ended(&played, Status::Done, None, row.2))
}

#[test]
fn blocks_are_judged_by_their_siblings(rt: HostRuntime) -> Result<(), Fail> {
    for (number, row) in ROWS.iter().enumerate() {
        assert!(rt; is_judged(&rt, rt.alloc(), row)?, "of {number}");
    }
    Ok(())
}
