// The map of two keys that differ only in their last bit, in two chunks. Root and hashes are from Python's hashlib.
use crate::reading::{Came, blocks_of, came_to, taken_count};
use jf_receive::Blocks;
use std::test::Fail;

const ROOT: &str = "root 668447dcc38dfdce2140606cdaf78bf156f60759928e2290069210136570fcc2";

const FIRST: &[&str] = &[
    "chunk 1 256 131",
    "entry 5a5a5a5a5a5a5a5a5a5a5a5a5a5a5a5a5a5a5a5a5a5a5a5a5a5a5a5a5a5a5a10 =31",
    "side 1f013732473ff7b87c8d7f1a25a7b5e0764c104a60507eef3c403b20fed3bc9c",
];

const SECOND: &[&str] = &[
    "chunk 1 256 130",
    "entry 5a5a5a5a5a5a5a5a5a5a5a5a5a5a5a5a5a5a5a5a5a5a5a5a5a5a5a5a5a5a5a11 =32",
];

const EMPTY: &str = "side 6e340b9cffb37a989ca544e6bb780a2c78901d3fb33738768511a30617afa01d";

// Feeds empty hashes as siblings, and returns whether all were taken.
fn are_taken(blocks: &mut Blocks, count: usize) -> bool {
    for _ in 0..count {
        if blocks.line(EMPTY.as_bytes()).is_err() {
            return false;
        }
    }
    true
}

// Feeds the two chunks, and returns whether all lines were taken.
fn both_taken(blocks: &mut Blocks) -> bool {
    taken_count(blocks, FIRST) == 3
        && are_taken(blocks, 130)
        && taken_count(blocks, SECOND) == 2
        && are_taken(blocks, 130)
}

#[test]
fn keys_that_agree_in_255_bits_stand_apart(rt: HostRuntime) -> Result<(), Fail> {
    let mut blocks = blocks_of(rt.alloc(), ROOT)?;
    let all = both_taken(&mut blocks);
    assert_eq!(rt; (all, came_to(blocks)), (true, Came::Whole(2)));
    Ok(())
}
