// What the files of stores show, beside what the stores say and what `compact` then writes.
use jf_check::{StoreCheck, Unchecked, check_files};
use jf_disk::{MemDisk, Side};
use jf_engine_play::steps::{Step, THREE, take_each};
use jf_engine_play::stores::{Store, new_store};
use jf_io::Nowhere;
use jf_join::Workers;
use std::alloc::Global;
use std::test::Fail;
use std::thread::Threads;

// The steps that are taken on new stores.
const STORES: &[&[Step]] = &[
    &[],
    &[Step::Land(&[(b'a', Some(b'1'))])],
    &[Step::LandAll(THREE)],
    &[Step::LandAll(THREE), Step::Prune(2)],
    &[
        Step::Land(&[(b'a', Some(b'1')), (b'b', Some(b'2'))]),
        Step::Compact,
    ],
    &[
        Step::LandAll(THREE),
        Step::Compact,
        Step::Land(&[(b'c', Some(b'3')), (b'd', Some(b'4')), (b'e', Some(b'5'))]),
        Step::Prune(3),
    ],
    &[Step::Import(7, &[(b'a', b'1')])],
];

// The side that has a generation: the first one is on side A.
fn side_of(generation: u64) -> Side {
    if generation % 2 == 1 {
        Side::A
    } else {
        Side::B
    }
}

// What the files of a disk show.
fn found_on<H: Threads + Sync>(
    rt: &H,
    alloc: Global,
    disk: &MemDisk,
) -> Result<Result<StoreCheck, Unchecked>, Fail> {
    let a = disk.bytes(Side::A).to_vec(alloc)?;
    let b = disk.bytes(Side::B).to_vec(alloc)?;
    let mut sink = Nowhere;
    Ok(check_files(rt, alloc, Some(a), Some(b), Workers::ONE, &mut sink))
}

// What a store says of itself, and how many bytes `compact` then writes.
fn check_of_store(alloc: Global, store: &mut Store) -> Result<StoreCheck, Fail> {
    let state = store.state();
    let generation = store.compact(alloc)?;
    Ok(StoreCheck::Sound {
        live: Some(side_of(state.generation)),
        kept: state.kept,
        checkpoint: store.disk().bytes(side_of(generation)).len() as u64,
    })
}

fn are_alike<H: Threads + Sync>(rt: &H, alloc: Global, steps: &[Step]) -> Result<bool, Fail> {
    let mut store = new_store(rt, alloc)?;
    take_each(rt, alloc, &mut store, steps)?;
    let found = found_on(rt, alloc, store.disk())?;
    Ok(found == Ok(check_of_store(alloc, &mut store)?))
}

#[test]
fn files_show_what_their_store_says_and_what_compact_writes(rt: HostRuntime) -> Result<(), Fail> {
    for steps in STORES {
        assert!(rt; are_alike(&rt, rt.alloc(), steps)?, "after {steps:?}");
    }
    Ok(())
}
