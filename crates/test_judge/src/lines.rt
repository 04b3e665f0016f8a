// The line that results from a reply, and how judging it ends.
use crate::replies::{
    A, B, C, CLAIM, HEAD, HIGH, HONEST, LEAF, LOW, NONE, ONE, SETS_ONE, TWO, VOID, VOID_LEAF,
    parts_in_a_row,
};
use jf_ask::LookupFault;
use jf_evidence::ProofFault;
use jf_io::{MemSink, MemSource};
use jf_judge::{Judged, judge_reply};
use jf_path::Bytes;
use jf_text::hash_of;
use std::alloc::Global;
use std::test::Fail;

const WRONG_LEAF: Judged = Judged::Refused(LookupFault::Claim(ProofFault::WrongLeaf));

const WRONG_PREFIX: Judged = Judged::Refused(LookupFault::Claim(ProofFault::WrongPrefix));

const WRONG_ROOT: Judged = Judged::Refused(LookupFault::Claim(ProofFault::WrongRoot));

const OTHER_NAME: Judged = Judged::Refused(LookupFault::OtherName);

const NO_BLOCK: Judged = Judged::Refused(LookupFault::NoBlock);

// A root, a name, a reply in parts, the line that results from it, and how judging it ends.
const REPLIES: &[(&str, &[u8], &[&str], &str, Judged)] = &[
    (TWO, b"a", HONEST, "value =31\n", Judged::Shown),
    (
        TWO,
        b"a",
        &["proof 2\n", A, CLAIM, LEAF, LOW, HIGH],
        "value =31\n",
        Judged::Shown,
    ),
    (TWO, b"b", &[B, HIGH], "value =3232\n", Judged::Shown),
    (
        VOID,
        b"a",
        &["0 ok proof 0\n", A, "claim =\n", VOID_LEAF],
        "value =\n",
        Judged::Shown,
    ),
    (TWO, b"c", &[C], "none\n", Judged::Shown),
    (
        TWO,
        b"z",
        &[HEAD, "name 7a\n", NONE, LEAF, LOW, HIGH],
        "none\n",
        Judged::Shown,
    ),
    // A forged value, an absence by a leaf that is too far, and the root of another version.
    (
        TWO,
        b"a",
        &[HEAD, A, "claim =32\n", LEAF, LOW, HIGH],
        "refused 2\n",
        WRONG_LEAF,
    ),
    (
        TWO,
        b"z",
        &["proof 3\n", "name 7a\n", NONE, LEAF, HIGH, LOW, HIGH],
        "refused 3\n",
        WRONG_PREFIX,
    ),
    (ONE, b"a", HONEST, "refused 4\n", WRONG_ROOT),
    // The block of another name.
    (TWO, b"a", &[B, HIGH], "refused 5\n", OTHER_NAME),
    (TWO, b"ab", HONEST, "refused 5\n", OTHER_NAME),
    // A line that sets the root, before the block and after it.
    (
        TWO,
        b"a",
        &[SETS_ONE, "0 ok proof 0\n", A, CLAIM, LEAF],
        "refused 6\n",
        NO_BLOCK,
    ),
    (
        TWO,
        b"a",
        &[HEAD, A, CLAIM, LEAF, LOW, HIGH, SETS_ONE],
        "refused 6\n",
        NO_BLOCK,
    ),
    // A byte after the block, one line too few, and no block.
    (
        TWO,
        b"a",
        &[HEAD, A, CLAIM, LEAF, LOW, HIGH, "x"],
        "refused 6\n",
        NO_BLOCK,
    ),
    (
        TWO,
        b"a",
        &[HEAD, A, CLAIM, LEAF, LOW],
        "refused 6\n",
        NO_BLOCK,
    ),
    (TWO, b"a", &["7 no kept 3 5\n"], "refused 6\n", NO_BLOCK),
    (TWO, b"a", &[], "refused 6\n", NO_BLOCK),
];

fn comes_to(
    alloc: Global,
    root: &str,
    name: &[u8],
    reply: Bytes,
    line: &str,
    how: Judged,
) -> Result<(), Fail> {
    let Some(root) = hash_of(root.as_bytes()) else {
        return Err(Fail::new("this is no root"));
    };
    let mut source = MemSource::new(reply, 100, Vec::new(alloc));
    let mut sink = MemSink::new(alloc, 3, 100, Vec::new(alloc))?;
    if judge_reply(alloc, &root, name, &mut source, &mut sink) == how
        && sink.text() == line.as_bytes()
    {
        Ok(())
    } else {
        Err(Fail::new("the reply comes to something else"))
    }
}

#[test]
fn replies_come_to_lines(rt: HostRuntime) -> Result<(), Fail> {
    for (root, name, parts, line, how) in REPLIES {
        let reply = parts_in_a_row(rt.alloc(), parts)?;
        comes_to(rt.alloc(), root, name, reply, line, *how)?;
    }
    Ok(())
}
