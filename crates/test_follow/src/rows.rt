// The results of inputs. Keys and roots are by Python's `hashlib`.
use crate::inputs::{Input, follow, has_landed};
use jf_engine_play::roots::{EMPTY, OF_A};
use jf_engine_play::stores::{new_store, reopened_store};
use jf_follow::{FollowFault, FollowRefused, Followed};
use std::alloc::Global;
use std::test::Fail;
use std::thread::Threads;

const FIRST: &str = "landing 1 9bb72c39f13d2b512ea34eae99a28f6d807a134ab125e89172310c6f6ea72f8f 1\n\
    put 19d5f57c8e8b3cd760f853bb8d7900d68e10ef02674383de65a9b4d65e419b26 =31\n";

const FIRST_TOLD: &str =
    "followed 1 9bb72c39f13d2b512ea34eae99a28f6d807a134ab125e89172310c6f6ea72f8f\n";

const DIFFERS: FollowFault = FollowFault::Differs {
    version: 1,
    announced: EMPTY,
    found: OF_A,
};

// The first landing, in pieces.
const PIECES: &[Input] = &[(FIRST, 1, &[]), (FIRST, 80, &[]), (FIRST, 1_000, &[])];

// Inputs that are refused over a new store, why, and how many landings were made before.
const REFUSED: &[(Input, FollowRefused, u64)] = &[
    // The root of no key for that of the batch.
    (
        (
            "landing 1 6e340b9cffb37a989ca544e6bb780a2c78901d3fb33738768511a30617afa01d 1\n\
            put 19d5f57c8e8b3cd760f853bb8d7900d68e10ef02674383de65a9b4d65e419b26 =31\n",
            1_000,
            &[],
        ),
        FollowRefused::Block(1, DIFFERS),
        0,
    ),
    // Another root for version 0.
    (
        (
            "landing 0 9bb72c39f13d2b512ea34eae99a28f6d807a134ab125e89172310c6f6ea72f8f 0\n",
            1_000,
            &[],
        ),
        FollowRefused::Block(
            1,
            FollowFault::Differs {
                version: 0,
                announced: OF_A,
                found: EMPTY,
            },
        ),
        0,
    ),
    // A version that isn't the next.
    (
        (
            "landing 3 9bb72c39f13d2b512ea34eae99a28f6d807a134ab125e89172310c6f6ea72f8f 1\n\
            put 19d5f57c8e8b3cd760f853bb8d7900d68e10ef02674383de65a9b4d65e419b26 =31\n",
            1_000,
            &[],
        ),
        FollowRefused::Block(1, FollowFault::Gap(0)),
        0,
    ),
    // A line that is missing at the end.
    (
        (
            "landing 1 9bb72c39f13d2b512ea34eae99a28f6d807a134ab125e89172310c6f6ea72f8f 1\n",
            1_000,
            &[],
        ),
        FollowRefused::Line(2),
        0,
    ),
    // Keys out of order.
    (
        (
            "landing 1 9bb72c39f13d2b512ea34eae99a28f6d807a134ab125e89172310c6f6ea72f8f 2\n\
            put 6fe4ff1a836fcb881bbe03ff848bb731a5584708153d9bc6dc1d6430579a6a12 =32\n\
            put 19d5f57c8e8b3cd760f853bb8d7900d68e10ef02674383de65a9b4d65e419b26 =31\n",
            1_000,
            &[],
        ),
        FollowRefused::Line(3),
        0,
    ),
    // A block that comes twice, and then its version with the root of no key.
    (
        (
            "landing 1 9bb72c39f13d2b512ea34eae99a28f6d807a134ab125e89172310c6f6ea72f8f 1\n\
            put 19d5f57c8e8b3cd760f853bb8d7900d68e10ef02674383de65a9b4d65e419b26 =31\n\
            landing 1 9bb72c39f13d2b512ea34eae99a28f6d807a134ab125e89172310c6f6ea72f8f 1\n\
            put 19d5f57c8e8b3cd760f853bb8d7900d68e10ef02674383de65a9b4d65e419b26 =31\n\
            landing 1 6e340b9cffb37a989ca544e6bb780a2c78901d3fb33738768511a30617afa01d 0\n",
            70,
            &[],
        ),
        FollowRefused::Block(5, DIFFERS),
        1,
    ),
];

fn is_followed_twice<H: Threads + Sync>(
    rt: &H,
    alloc: Global,
    input: &Input,
) -> Result<bool, Fail> {
    let once = follow(rt, alloc, new_store(rt, alloc)?, input, FIRST_TOLD)?;
    let first = once.how == Followed::Done && once.landings == 1 && once.is_as_expected;
    let store = reopened_store(rt, alloc, once.engine)?;
    let again = follow(rt, alloc, store, input, FIRST_TOLD)?;
    Ok(first && again.how == Followed::Done && again.landings == 0 && again.is_as_expected)
}

fn is_refused<H: Threads + Sync>(
    rt: &H,
    alloc: Global,
    row: &(Input, FollowRefused, u64),
) -> Result<bool, Fail> {
    let came = follow(rt, alloc, new_store(rt, alloc)?, &row.0, "")?;
    let as_expected = came.how == Followed::Refused(row.1)
        && came.landings == row.2
        && came.is_as_expected;
    Ok(as_expected && has_landed(rt, alloc, came.engine, row.2)?)
}

#[test]
fn landings_are_followed_once(rt: HostRuntime) -> Result<(), Fail> {
    for input in PIECES {
        assert!(rt; is_followed_twice(&rt, rt.alloc(), input)?);
    }
    Ok(())
}

#[test]
fn a_refused_input_leaves_the_versions_before(rt: HostRuntime) -> Result<(), Fail> {
    for row in REFUSED {
        assert!(rt; is_refused(&rt, rt.alloc(), row)?);
    }
    Ok(())
}
