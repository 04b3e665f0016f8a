// Inputs, and what is said of them. Keys and hashes are from outside, by Python's hashlib. No lists that collide are
// known.
use jf_blocks::write_proof;
use jf_hash::{empty, key_of, leaf, value};
use jf_path::{Bytes, HashList, Memory};
use jf_proof::Proof;
use jf_verify::{Judge, judge_text};
use std::alloc::Global;
use std::test::Fail;

// The map that has `1` at `a`.
const ROOT: &str = "root 9bb72c39f13d2b512ea34eae99a28f6d807a134ab125e89172310c6f6ea72f8f\n";

const NAME: &str = "name 61\n";

const CLAIM: &str = "claim =31\n";

const LEAF: &str =
    "leaf 19d5f57c8e8b3cd760f853bb8d7900d68e10ef02674383de65a9b4d65e419b26 f254fd9353abb55f60a0942b46382c2428aa019d102cd9985275c0fb42a8dbb3\n";

// The map that has `22` at `b` too: the keys of `a` and `b` have just their first bit in common, 0; that of `c` begins
// with 1.
const ROOT_OF_TWO: &str = "root d22189d895b6523204958425e959d4c78370fb4e8d104658d25dea583f3dc647\n";

const SIDES: &str =
    "side 62cd93dd56dac0c0031243e7429f0fa848ea0ec28a7faf65902554fd1f91eb66\nside 6e340b9cffb37a989ca544e6bb780a2c78901d3fb33738768511a30617afa01d\n";

const ABSENT: &str =
    "proof 1\nname 63\nclaim none\nleaf none\nside a5366c71b00d60c91455d5941525c27b4681a65b920b79dd2808482ad2e88aaa\n";

// The empty map.
const ROOT_OF_NONE: &str =
    "root 6e340b9cffb37a989ca544e6bb780a2c78901d3fb33738768511a30617afa01d\n";

// Inputs in parts, and what is said of them.
const INPUTS: &[(&[&str], &'static str)] = &[
    (&[], ""),
    (&[ROOT, "proof 0\n", NAME, CLAIM, LEAF], "accepted\n"),
    (
        &["7 ok ", ROOT, "8 ok ", "proof 0\n", NAME, CLAIM, LEAF],
        "accepted\n",
    ),
    (
        &[ROOT, "proof 0\n", NAME, "claim =32\n", LEAF],
        "refused 2\n",
    ),
    (
        &[ROOT_OF_NONE, "proof 0\n", NAME, CLAIM, LEAF],
        "refused 4\n",
    ),
    (
        &["proof 0\n", NAME, CLAIM, LEAF],
        "syntax 1\nsyntax 2\nsyntax 3\nsyntax 4\n",
    ),
    (
        &[
            ROOT,
            "proof 0\n",
            NAME,
            LEAF,
            "proof 0\n",
            NAME,
            CLAIM,
            LEAF,
        ],
        "syntax 4\naccepted\n",
    ),
    (&[ROOT, "proof 0\n", NAME], "syntax 4\n"),
    (&[ROOT, "proof 65536\n"], "syntax 2\n"),
    (
        &[ROOT_OF_TWO, "proof 2\n", NAME, CLAIM, LEAF, SIDES],
        "accepted\n",
    ),
    (&[ROOT_OF_TWO, ABSENT, ABSENT], "accepted\naccepted\n"),
    (
        &[ROOT_OF_NONE, "proof 0\n", NAME, "claim none\nleaf none"],
        "accepted\n",
    ),
    // The proof of one version under the root of the next.
    (
        &[ROOT_OF_TWO, "proof 0\n", NAME, CLAIM, LEAF],
        "refused 4\n",
    ),
    // The key of `z` agrees with that of `a` in two bits, so the proof may have up to two siblings.
    (
        &[
            ROOT_OF_TWO,
            "proof 2\n",
            "name 7a\nclaim none\n",
            LEAF,
            SIDES,
        ],
        "accepted\n",
    ),
    (
        &[
            ROOT_OF_TWO,
            "proof 3\n",
            "name 7a\nclaim none\n",
            LEAF,
            "side 6e340b9cffb37a989ca544e6bb780a2c78901d3fb33738768511a30617afa01d\n",
            SIDES,
        ],
        "refused 3\n",
    ),
    // A root may be set only between blocks.
    (
        &[ROOT, "proof 0\n", NAME, ROOT, CLAIM, LEAF],
        "syntax 4\nsyntax 5\nsyntax 6\n",
    ),
];

// Joins these parts.
fn parts_in_a_row(alloc: Global, parts: &[&str]) -> Result<Bytes, Memory> {
    let mut text = Bytes::new(alloc);
    for part in parts {
        text.append(part.as_bytes())?;
    }
    Ok(text)
}

fn same(text: &Bytes, wanted: &str) -> Result<(), Fail> {
    if text.as_slice() == wanted.as_bytes() {
        Ok(())
    } else {
        Err(Fail::new("another text was given"))
    }
}

fn is_answered(alloc: Global, input: &Bytes, wanted: &str) -> Result<(), Fail> {
    let mut out = Bytes::new(alloc);
    judge_text(alloc, input.as_slice(), &mut out)?;
    same(&out, wanted)
}

pub(crate) fn are_answered(alloc: Global, parts: &[&str], wanted: &str) -> Result<(), Fail> {
    let input = parts_in_a_row(alloc, parts)?;
    is_answered(alloc, &input, wanted)
}

#[test]
fn inputs_are_answered(rt: HostRuntime) -> Result<(), Fail> {
    for (parts, wanted) in INPUTS {
        are_answered(rt.alloc(), parts, wanted)?;
    }
    Ok(())
}

// Judges these lines, each given without its line feed, and then the end of the input.
fn lines_are_answered(alloc: Global, lines: &[&[u8]], wanted: &str) -> Result<(), Fail> {
    let mut judge = Judge::new(alloc);
    let mut out = Bytes::new(alloc);
    for line in lines {
        judge.line(alloc, line, &mut out)?;
    }
    judge.end(alloc, &mut out)?;
    same(&out, wanted)
}

// A line of one byte more than may be read.
const LONG: &[u8] = &[b'0'; 8501];

#[test]
fn a_long_line_is_judged_by_its_length(rt: HostRuntime) -> Result<(), Fail> {
    let lines = [ROOT.trim_end().as_bytes(), LONG, b"proof 0".as_slice()];
    lines_are_answered(rt.alloc(), &lines, "syntax 2\nsyntax 4\n")
}

// A block of this many siblings.
fn deep(alloc: Global, siblings: u64) -> Result<Bytes, Memory> {
    let mut text = parts_in_a_row(alloc, &[ROOT, "proof 257\n", NAME, CLAIM, LEAF])?;
    for _ in 0..siblings {
        text.append(b"side 6e340b9cffb37a989ca544e6bb780a2c78901d3fb33738768511a30617afa01d\n")?;
    }
    Ok(text)
}

#[test]
fn a_proof_of_257_siblings_is_too_deep(rt: HostRuntime) -> Result<(), Fail> {
    let input = deep(rt.alloc(), 257)?;
    is_answered(rt.alloc(), &input, "refused 1\n")
}

// The proof of `a` in the map that has `22` at `b` too.
fn proof_of_two(alloc: Global) -> Result<Proof, Memory> {
    let mut siblings = HashList::new(alloc);
    siblings.push(leaf(&key_of(b"b"), &value(b"22")))?;
    siblings.push(empty())?;
    Ok(Proof {
        leaf: Some((key_of(b"a"), value(b"1"))),
        siblings,
    })
}

fn is_written(alloc: Global, proof: &Proof, wanted: &[&str]) -> Result<bool, Memory> {
    let mut out = Bytes::new(alloc);
    write_proof(b"a", Some(b"1"), proof, &mut out)?;
    Ok(out.as_slice() == parts_in_a_row(alloc, wanted)?.as_slice())
}

#[test]
fn a_proof_is_written_in_lines(rt: HostRuntime) -> Result<(), Fail> {
    let proof = proof_of_two(rt.alloc())?;
    assert!(rt; is_written(rt.alloc(), &proof, &[NAME, CLAIM, LEAF, SIDES])?);
    Ok(())
}
