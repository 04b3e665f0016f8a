// Texts of chunk blocks and their results. Keys and hashes are from outside, by Python's hashlib.
use crate::reading::{Came, blocks_of, came_to, is_answered_alike, root_of, taken_count};
use jf_receive::{BlockFault, Blocks, RangeFault};
use std::alloc::Global;
use std::test::Fail;

// The empty map.
const NONE: &str = "root 6e340b9cffb37a989ca544e6bb780a2c78901d3fb33738768511a30617afa01d";

// The map that has `1` at `a`.
const ONE: &str = "root 9bb72c39f13d2b512ea34eae99a28f6d807a134ab125e89172310c6f6ea72f8f";

// The map that has `2` at `b` too. Its keys come in this order, and agree in one bit.
const TWO: &str = "root 3e92b77a6f4a7dcc426f134b3415f3af7eb39e5c8ac7599c94f5a3c83fe07425";

const A: &str = "entry 19d5f57c8e8b3cd760f853bb8d7900d68e10ef02674383de65a9b4d65e419b26 =31";

const B: &str = "entry 6fe4ff1a836fcb881bbe03ff848bb731a5584708153d9bc6dc1d6430579a6a12 =32";

// The leaf of `b`, which is on the right of the way to `a`.
const LEAF_OF_B: &str = "side 523314ab33c912d434792b42083d03c32d7e90b536b35c355a01ad0bb7925da2";

const EMPTY: &str = "side 6e340b9cffb37a989ca544e6bb780a2c78901d3fb33738768511a30617afa01d";

// The map that has `1` at each letter from `a` to `f`.
const SIX: &str = "root 6c9ccb50129259c61b0292b566b5a6c2a3a9e4df2b046bfe879e14741b47e853";

// The first two entries of that map, the next two and the last two, each as a chunk.
const FIRST_OF_SIX: &[&str] = &[
    "chunk 2 5 4",
    "entry 015cbd08524dfe93e53e4947992eda31976b55b2358d4515eaee3cf98a0f07f3 =31",
    "entry 0e6ae2f9626ebbd0e0e1fdc6c7dce6c358993bab33a5ffbd09ddd107f7704ad5 =31",
    "side 9bb72c39f13d2b512ea34eae99a28f6d807a134ab125e89172310c6f6ea72f8f",
    "side 6e340b9cffb37a989ca544e6bb780a2c78901d3fb33738768511a30617afa01d",
    "side e4b3d05618b1fff6b104f8ffbd03c6962676ef69489d07c2ab09bbb48e13e90f",
    "side f57649c4fe8b214f152db04a20361337d5d3ea54f6154a20d0bb6f04e7f96ef9",
];

const NEXT_OF_SIX: &[&str] = &[
    "chunk 2 2 1",
    "entry 19d5f57c8e8b3cd760f853bb8d7900d68e10ef02674383de65a9b4d65e419b26 =31",
    "entry 6fe4ff1a836fcb881bbe03ff848bb731a5584708153d9bc6dc1d6430579a6a12 =31",
    "side f57649c4fe8b214f152db04a20361337d5d3ea54f6154a20d0bb6f04e7f96ef9",
];

const LAST_OF_SIX: &[&str] = &[
    "chunk 2 3 0",
    "entry c7366da1307f33b7b9361dbd9b0988cf19b0cf4857db81c32d832f656dc5022a =31",
    "entry eae14b1bf39b39adc8946cba6356a8578a75c0a6c211ef84d3e27a0ee4c97151 =31",
];

// A root, lines in parts, how many of them are taken, and their result.
type Row = (
    &'static str,
    &'static [&'static [&'static str]],
    usize,
    Came,
);

const WHOLE: &[Row] = &[
    (NONE, &[], 0, Came::Whole(0)),
    (ONE, &[&["chunk 1 0 0", A]], 2, Came::Whole(1)),
    (
        TWO,
        &[
            &["chunk 1 2 2", A, LEAF_OF_B, EMPTY],
            &["chunk 1 2 1", B, EMPTY],
        ],
        7,
        Came::Whole(2),
    ),
    (
        TWO,
        &[&["7 ok chunk 2 2 1", A, B, EMPTY]],
        4,
        Came::Whole(2),
    ),
    (
        SIX,
        &[FIRST_OF_SIX, NEXT_OF_SIX, LAST_OF_SIX],
        14,
        Came::Whole(6),
    ),
];

const REFUSED_BLOCKS: &[Row] = &[
    (TWO, &[&["chunk 1 2 1", B, EMPTY]], 2, CHUNK_1_WRONG_ROOT),
    (
        TWO,
        &[&["chunk 0 0 0"]],
        0,
        Came::Refused(BlockFault::Chunk(1, RangeFault::Empty)),
    ),
    (
        TWO,
        &[&["chunk 2 0 0", B, A]],
        2,
        Came::Refused(BlockFault::Chunk(1, RangeFault::Order)),
    ),
    (
        TWO,
        &[&["chunk 2 257 0", A, B]],
        2,
        Came::Refused(BlockFault::Chunk(1, RangeFault::Count)),
    ),
    (
        TWO,
        &[&["chunk 1 2 1", A, LEAF_OF_B]],
        2,
        Came::Refused(BlockFault::Chunk(1, RangeFault::Count)),
    ),
    (
        TWO,
        &[&["chunk 2 1 1", A, B, EMPTY]],
        3,
        Came::Refused(BlockFault::Chunk(1, RangeFault::Lone)),
    ),
    (
        TWO,
        &[
            &["chunk 1 2 2", A, LEAF_OF_B, EMPTY],
            &["chunk 1 2 2", A, LEAF_OF_B, EMPTY],
        ],
        7,
        Came::Refused(BlockFault::Chunk(5, RangeFault::Order)),
    ),
    // Two entries are left out between two chunks.
    (
        SIX,
        &[FIRST_OF_SIX, LAST_OF_SIX],
        9,
        Came::Refused(BlockFault::Chunk(8, RangeFault::WrongRoot)),
    ),
];

const CHUNK_1_WRONG_ROOT: Came = Came::Refused(BlockFault::Chunk(1, RangeFault::WrongRoot));

const REFUSED_LINES: &[Row] = &[
    (
        TWO,
        &[&["chunk 1001 0 0"]],
        0,
        Came::Refused(BlockFault::Line(1)),
    ),
    (
        TWO,
        &[&["chunk 1 65536 0"]],
        0,
        Came::Refused(BlockFault::Line(1)),
    ),
    (
        TWO,
        &[&["chunk 1 0 65536"]],
        0,
        Came::Refused(BlockFault::Line(1)),
    ),
    (
        TWO,
        &[&["chunk 01 0 0"]],
        0,
        Came::Refused(BlockFault::Line(1)),
    ),
    (
        TWO,
        &[&["chunk 1 0"]],
        0,
        Came::Refused(BlockFault::Line(1)),
    ),
    (
        TWO,
        &[&["ok chunk 1 0 0"]],
        0,
        Came::Refused(BlockFault::Line(1)),
    ),
    (
        TWO,
        &[&["1 no range 2"]],
        0,
        Came::Refused(BlockFault::Line(1)),
    ),
    (
        TWO,
        &[&["chunk 1 0 0"]],
        1,
        Came::Refused(BlockFault::Line(2)),
    ),
    (
        TWO,
        &[&["chunk 1 2 2", A, LEAF_OF_B]],
        3,
        Came::Refused(BlockFault::Line(4)),
    ),
    (
        TWO,
        &[&["chunk 2 2 1", A, EMPTY, B]],
        2,
        Came::Refused(BlockFault::Line(3)),
    ),
    (
        TWO,
        &[&["chunk 1 2 2", A, B]],
        2,
        Came::Refused(BlockFault::Line(3)),
    ),
    (
        TWO,
        &[&["chunk 1 2 2", A, LEAF_OF_B, EMPTY], &[""]],
        4,
        Came::Refused(BlockFault::Line(5)),
    ),
    (
        TWO,
        &[&["chunk 1 0 0", "entry 19D5 =31"]],
        1,
        Came::Refused(BlockFault::Line(2)),
    ),
    // The earlier block decides.
    (
        TWO,
        &[&["chunk 1 2 1", B, EMPTY], &["chunk"]],
        2,
        CHUNK_1_WRONG_ROOT,
    ),
];

// Feeds lines in parts, and returns how many were taken before the first that is refused.
fn all_taken(blocks: &mut Blocks, parts: &[&[&str]]) -> usize {
    let mut sum: usize = 0;
    for part in parts {
        let count = taken_count(blocks, part);
        sum = sum.saturating_add(count);
        if count < part.len() {
            return sum;
        }
    }
    sum
}

fn comes_to(alloc: Global, row: &Row) -> Result<bool, Fail> {
    let mut blocks = blocks_of(alloc, row.0)?;
    let count = all_taken(&mut blocks, row.1);
    Ok(count == row.2 && came_to(blocks) == row.3)
}

fn come_to(alloc: Global, rows: &[Row]) -> Result<bool, Fail> {
    for row in rows {
        if !comes_to(alloc, row)? {
            return Ok(false);
        }
    }
    Ok(true)
}

#[test]
fn whole_blocks_are_added(rt: HostRuntime) -> Result<(), Fail> {
    assert!(rt; come_to(rt.alloc(), WHOLE)?);
    Ok(())
}

#[test]
fn a_block_is_refused_at_its_last_line(rt: HostRuntime) -> Result<(), Fail> {
    assert!(rt; come_to(rt.alloc(), REFUSED_BLOCKS)?);
    Ok(())
}

#[test]
fn a_line_is_refused_at_that_line(rt: HostRuntime) -> Result<(), Fail> {
    assert!(rt; come_to(rt.alloc(), REFUSED_LINES)?);
    Ok(())
}

// Whether a refusal comes again at another line, and at the end of the lines.
fn stays(alloc: Global, row: &Row) -> Result<bool, Fail> {
    let mut blocks = blocks_of(alloc, row.0)?;
    let _ = all_taken(&mut blocks, row.1);
    Ok(is_answered_alike(&mut blocks, row.3) && came_to(blocks) == row.3)
}

#[test]
fn a_refusal_stays(rt: HostRuntime) -> Result<(), Fail> {
    for row in REFUSED_BLOCKS {
        assert!(rt; stays(rt.alloc(), row)?);
    }
    Ok(())
}

#[test]
fn the_first_chunk_alone_is_not_the_whole(rt: HostRuntime) -> Result<(), Fail> {
    let mut blocks = blocks_of(rt.alloc(), TWO)?;
    let count = taken_count(&mut blocks, &["chunk 1 2 2", A, LEAF_OF_B, EMPTY]);
    assert_eq!(rt; (count, came_to(blocks)), (4, Came::Else(root_of(ONE)?)));
    Ok(())
}

// A line of one byte more than may be read.
const LONG: &[u8] = &[b'0'; 8501];

#[test]
fn a_long_line_matches_nothing(rt: HostRuntime) -> Result<(), Fail> {
    let mut blocks = blocks_of(rt.alloc(), TWO)?;
    assert_eq!(rt; blocks.line(LONG), Err(BlockFault::Line(1)));
    Ok(())
}
