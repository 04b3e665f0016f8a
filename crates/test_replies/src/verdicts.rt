// Proof blocks that are judged without a store, with values from Python's `hashlib`.
use jf_disk::{Disk, MemDisk, Side};
use jf_play::play::{Faults, NO_FAULTS, Played, has_ended, new_disk, play};
use jf_play::roots::{EMPTY, ONE};
use jf_run::status::Status;
use std::alloc::Global;
use std::sync::Wait;
use std::test::Fail;
use std::thread::Threads;

const NAME: &str = "name 61\n";

const CLAIM: &str = "claim =31\n";

const LEAF: &str =
    "leaf 19d5f57c8e8b3cd760f853bb8d7900d68e10ef02674383de65a9b4d65e419b26 f254fd9353abb55f60a0942b46382c2428aa019d102cd9985275c0fb42a8dbb3\n";

// The replies to `root v1` and `prove v1 61`, with this root and this claim.
fn replies(alloc: Global, root: &str, claim: &str) -> Result<Vec<u8>, Fail> {
    let mut text = Vec::new(alloc);
    for part in ["1 ok root ", root, "\n1 ok proof 0\n", NAME, claim, LEAF] {
        text.extend_from_slice(part.as_bytes())?;
    }
    Ok(text)
}

// Side A of a disk that no run may touch.
const UNTOUCHED: &[u8] = b"\x01\x07\0";

// Whether a disk had no call and no fault, and side A is unchanged.
fn is_untouched(disk: &MemDisk) -> bool {
    disk.moment() == 0 && disk.faults() == 0 && disk.bytes(Side::A) == UNTOUCHED
}

// The root and the claim of a proof block, and the verdict on it.
const BLOCKS: &[(&str, &str, &str)] = &[
    (ONE, CLAIM, "accepted\n"),
    (ONE, "claim =32\n", "refused 2\n"),
    (EMPTY, CLAIM, "refused 4\n"),
];

// Whether a block gets the verdict `want`, over a damaged disk whose first call would fail.
fn is_judged<H: Threads + Wait + Sync>(
    rt: &H,
    alloc: Global,
    block: &[u8],
    want: &str,
) -> Result<bool, Fail> {
    let disk = new_disk(alloc, UNTOUCHED, &[0])?;
    let played = play(rt, alloc, disk, "verify", block, NO_FAULTS)?;
    let ended = has_ended(&played, Status::Done, None, want.as_bytes());
    Ok(ended && played.entries == 0 && is_untouched(&played.disk))
}

#[test]
fn replies_are_judged_with_no_store(rt: HostRuntime) -> Result<(), Fail> {
    let alloc = rt.alloc();
    for (root, claim, want) in BLOCKS {
        let block = replies(alloc, root, claim)?;
        assert!(rt;
            is_judged(&rt, alloc, &block, want)?,
            "of {root} and {claim}"
        );
    }
    Ok(())
}

// Runs `verify` over a new disk, with the faults of the source and the sink.
fn judged_run<H: Threads + Wait + Sync>(
    rt: &H,
    alloc: Global,
    blocks: &[u8],
    faults: Faults,
) -> Result<Played<MemDisk>, Fail> {
    play(
        rt,
        alloc,
        new_disk(alloc, b"", &[])?,
        "verify",
        blocks,
        faults,
    )
}

// The second call of the source or of the sink fails: the status of the judging, and what it wrote.
const FAULTS: &[(Faults, Status, &str)] = &[
    (
        Faults {
            piece: 100,
            source: &[1],
            sink: &[],
        },
        Status::ReadFault,
        "",
    ),
    (
        Faults {
            piece: 100,
            source: &[],
            sink: &[1],
        },
        Status::WriteFault,
        "accepte",
    ),
];

#[test]
fn a_fault_ends_the_judging(rt: HostRuntime) -> Result<(), Fail> {
    let alloc = rt.alloc();
    let block = replies(alloc, ONE, CLAIM)?;
    for (faults, status, told) in FAULTS {
        let played = judged_run(&rt, alloc, &block, *faults)?;
        assert!(rt;
            has_ended(&played, *status, None, told.as_bytes()),
            "of {told}"
        );
    }
    Ok(())
}

const FIFTH_READ: Faults = Faults {
    piece: 100,
    source: &[4],
    sink: &[],
};

#[test]
fn what_was_judged_before_a_fault_is_told(rt: HostRuntime) -> Result<(), Fail> {
    let alloc = rt.alloc();
    let mut blocks = replies(alloc, ONE, CLAIM)?;
    blocks.extend_from_slice(&replies(alloc, ONE, CLAIM)?)?;
    let played = judged_run(&rt, alloc, &blocks, FIFTH_READ)?;
    assert!(rt; has_ended(&played, Status::ReadFault, None, b"accepted\n"));
    Ok(())
}

// The replies of a run that proves a name that is there, and one that isn't.
fn proof_replies<H: Threads + Wait + Sync>(rt: &H, alloc: Global) -> Result<Vec<u8>, Fail> {
    let script = b"put 61 =31\ncommit\nroot v1\nprove v1 61\nprove v1 62\n";
    let disk = new_disk(alloc, b"", &[])?;
    Ok(play(rt, alloc, disk, "run", script, NO_FAULTS)?.text)
}

#[test]
fn the_replies_of_a_run_are_judged(rt: HostRuntime) -> Result<(), Fail> {
    let alloc = rt.alloc();
    let text = proof_replies(&rt, alloc)?;
    let played = judged_run(&rt, alloc, &text, NO_FAULTS)?;
    let verdicts = b"syntax 1\nsyntax 2\naccepted\naccepted\n";
    assert!(rt; has_ended(&played, Status::Done, None, verdicts));
    Ok(())
}
