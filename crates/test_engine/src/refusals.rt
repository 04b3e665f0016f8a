// Calls that a store refuses, and stays as it was.
use crate::records::{END, File, LAST_GENERATION, file_bytes};
use jf_disk::{Disk, MemDisk};
use jf_engine::{Engine, EngineFault, Which};
use jf_engine_play::steps::{Step, THREE, take, take_each};
use jf_engine_play::stores::{Store, disk_of, store_on};
use std::alloc::Global;
use std::test::Fail;
use std::thread::Threads;

// Side A at first, the steps, and the one that is refused, or isn't.
type Refusal = (File, &'static [Step], Step, Option<EngineFault>);

const LAST_VERSION: Option<EngineFault> = Some(EngineFault::Last(Which::Version));

const LAST_OF_FILES: Option<EngineFault> = Some(EngineFault::Last(Which::Generation));

const REFUSALS: &[Refusal] = &[
    // the head is 2^64 - 2; it is 2^64 - 4, and there are three versions after it, or two
    (
        &[],
        &[Step::Import(u64::MAX - 1, &[])],
        Step::Land(&[]),
        LAST_VERSION,
    ),
    (
        &[],
        &[Step::Import(u64::MAX - 3, &[])],
        Step::LandAll(THREE),
        LAST_VERSION,
    ),
    (
        &[],
        &[Step::Import(u64::MAX - 3, &[])],
        Step::LandAll(&[&[], &[]]),
        None,
    ),
    // the generation is 2^64 - 2
    (&[LAST_GENERATION, END], &[], Step::Compact, LAST_OF_FILES),
    (
        &[LAST_GENERATION, END],
        &[],
        Step::Import(3, &[]),
        LAST_OF_FILES,
    ),
    // the store isn't new: its head isn't version 0, or it is, and there is a key
    (
        &[],
        &[Step::Land(&[])],
        Step::Import(3, &[]),
        Some(EngineFault::NotEmpty(1)),
    ),
    (
        &[],
        &[Step::Import(0, &[(b'a', b'1')])],
        Step::Import(3, &[]),
        Some(EngineFault::NotEmpty(0)),
    ),
    (
        &[LAST_GENERATION, END],
        &[Step::Land(&[])],
        Step::Import(3, &[]),
        Some(EngineFault::NotEmpty(1)),
    ),
    // an import of version 0 without keys leaves a new store
    (&[], &[Step::Import(0, &[])], Step::Import(3, &[]), None),
];

// The store after the steps.
fn after<H: Threads + Sync>(rt: &H, alloc: Global, refusal: &Refusal) -> Result<Store, Fail> {
    let side_a = file_bytes(alloc, refusal.0)?;
    let mut engine = store_on(rt, alloc, disk_of(alloc, &side_a, &[], &[])?)?;
    take_each(rt, alloc, &mut engine, refusal.1)?;
    Ok(engine)
}

// Whether a step is refused with this fault, and makes no call on the disk then.
fn is_refused<H: Threads + Sync>(
    rt: &H,
    alloc: Global,
    engine: &mut Engine<MemDisk>,
    step: &Step,
    why: Option<EngineFault>,
) -> Result<bool, Fail> {
    let (state, moment) = (engine.state(), engine.disk().moment());
    let taken = take(rt, alloc, engine, step)?;
    Ok(match why {
        None => taken.is_ok(),
        Some(why) => {
            taken == Err(why) && engine.state() == state && engine.disk().moment() == moment
        }
    })
}

fn goes_so<H: Threads + Sync>(rt: &H, alloc: Global, refusal: &Refusal) -> Result<bool, Fail> {
    let mut engine = after(rt, alloc, refusal)?;
    let is_so = is_refused(rt, alloc, &mut engine, &refusal.2, refusal.3)?;
    Ok(is_so && !engine.is_broken())
}

#[test]
fn the_last_numbers_and_stores_with_keys_are_refused(rt: HostRuntime) -> Result<(), Fail> {
    for (place, refusal) in REFUSALS.iter().enumerate() {
        assert!(rt; goes_so(&rt, rt.alloc(), refusal)?, "refusal {place}");
    }
    Ok(())
}
