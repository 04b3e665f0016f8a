// A source that fails: each block whose last line was taken has landed by then. A block has 150 bytes.
use crate::inputs::{Input, THREE, follow, has_landed};
use jf_engine_play::stores::new_store;
use jf_follow::Followed;
use std::alloc::Global;
use std::test::Fail;
use std::thread::Threads;

// Sources of which one call fails, and how many blocks were taken whole before it.
const FAILING: &[(Input, u64)] = &[
    ((THREE, 150, &[0]), 0),
    ((THREE, 149, &[1]), 0),
    ((THREE, 150, &[1]), 1),
    ((THREE, 299, &[1]), 1),
    ((THREE, 150, &[2]), 2),
    ((THREE, 1_000, &[1]), 3),
];

fn stops_there<H: Threads + Sync>(rt: &H, alloc: Global, row: &(Input, u64)) -> Result<bool, Fail> {
    let came = follow(rt, alloc, new_store(rt, alloc)?, &row.0, "")?;
    let as_expected = came.how == Followed::ReadFault
        && came.landings == row.1
        && came.is_as_expected;
    Ok(as_expected && has_landed(rt, alloc, came.engine, row.1)?)
}

#[test]
fn a_block_lands_before_more_is_asked_for(rt: HostRuntime) -> Result<(), Fail> {
    for row in FAILING {
        assert!(rt; stops_there(&rt, rt.alloc(), row)?);
    }
    Ok(())
}
