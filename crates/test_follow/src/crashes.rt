// A disk that fails in each of its calls in turn, and what a crash leaves.
use crate::inputs::{Input, THREE, THREE_TOLD, follow, has_landed, leaves_front};
use jf_disk::Disk;
use jf_engine_play::stores::{disk_in, disk_of, new_store, open};
use jf_follow::Followed;
use std::alloc::Global;
use std::test::Fail;
use std::thread::Threads;

const INPUT: Input = (THREE, 1_000, &[]);

fn is_followed<H: Threads + Sync>(rt: &H, alloc: Global) -> Result<bool, Fail> {
    let came = follow(rt, alloc, new_store(rt, alloc)?, &INPUT, THREE_TOLD)?;
    let as_expected = came.how == Followed::Done && came.landings == 3 && came.is_as_expected;
    Ok(as_expected && has_landed(rt, alloc, came.engine, 3)?)
}

// Whether the input ends so on a disk of which one call fails, and whether each image from the opening on has the first
// versions, those that were acknowledged by then among them.
fn stops_well<H: Threads + Sync>(rt: &H, alloc: Global, failing: u64) -> Result<bool, Fail> {
    let disk = disk_of(alloc, &[], &[], &[failing])?;
    let Ok(engine) = open(rt, alloc, disk) else {
        return Ok(false);
    };
    let first = engine.disk().moment();
    let came = follow(rt, alloc, Box::new(alloc, engine)?, &INPUT, "")?;
    let landings = came.landings;
    let mut is_well = came.how == Followed::DiskFault && came.is_as_expected && landings < 3;
    let disk = disk_in(alloc, came.engine)?;
    for moment in first..disk.moment().saturating_add(1) {
        let least = (moment.saturating_sub(first) / 4).min(landings);
        if !leaves_front(rt, alloc, &disk, moment, least)? {
            is_well = false;
        }
    }
    Ok(is_well)
}

#[test]
fn three_landings_are_followed(rt: HostRuntime) -> Result<(), Fail> {
    assert!(rt; is_followed(&rt, rt.alloc())?);
    Ok(())
}

#[test]
fn a_disk_that_fails_leaves_the_first_versions(rt: HostRuntime) -> Result<(), Fail> {
    // The opening of a new store makes the first calls, and three landings the twelve after them.
    let first = new_store(&rt, rt.alloc())?.disk().moment();
    for call in first..first.saturating_add(12) {
        assert!(rt; stops_well(&rt, rt.alloc(), call)?);
    }
    Ok(())
}
