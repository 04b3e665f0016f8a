// Steps on a store: what a crash after each call of the disk leaves, and what is left after each call that fails.
use crate::crashes::{Found, leaves_at, leaves_since, shows};
use jf_disk::{Disk, MemDisk, Side};
use jf_engine::{Engine, EngineFault};
use jf_engine_play::roots::{EMPTY, OF_A, OF_B, OF_BOTH};
use jf_engine_play::steps::{Step, THREE, take, take_each};
use jf_engine_play::stores::{Store, disk_in, disk_of, store_on};
use std::alloc::Global;
use std::test::Fail;
use std::thread::Threads;

// Side B at first, steps on the new store there, and one more after its files were opened again; how many calls of the
// disk that one makes; and what is found before and after it.
type Case = (&'static [u8], &'static [Step], Step, u64, Found, Found);

const PUT_A: Step = Step::Land(&[(b'a', Some(b'1'))]);

const PUT_B: Step = Step::Land(&[(b'b', Some(b'2'))]);

const BOTH: Step = Step::Import(9, &[(b'a', b'1'), (b'b', b'2')]);

// Landings: write and sync of the record, write and sync of its gate. The last one is on side B.
const LANDINGS: &[Case] = &[
    (
        &[],
        &[],
        PUT_A,
        4,
        ((0, 0, 0, 1, 1), EMPTY),
        ((0, 0, 1, 2, 1), OF_A),
    ),
    (
        &[],
        &[PUT_A],
        PUT_B,
        4,
        ((0, 0, 1, 2, 1), OF_A),
        ((0, 0, 2, 5, 1), OF_BOTH),
    ),
    (
        &[],
        &[PUT_A, Step::Compact],
        PUT_B,
        4,
        ((0, 0, 1, 2, 2), OF_A),
        ((0, 0, 2, 5, 2), OF_BOTH),
    ),
];

// Several landings in one record.
const GROUPS: &[Case] = &[
    (
        &[],
        &[],
        Step::LandAll(THREE),
        4,
        ((0, 0, 0, 1, 1), EMPTY),
        ((0, 0, 3, 6, 1), OF_B),
    ),
    (
        &[],
        &[PUT_A],
        Step::LandAll(&[&[], &[(b'b', Some(b'2'))]]),
        4,
        ((0, 0, 1, 2, 1), OF_A),
        ((0, 0, 3, 6, 1), OF_BOTH),
    ),
];

// Floors: below the head, at the head, and the present one.
const FLOORS: &[Case] = &[
    (
        &[],
        &[Step::LandAll(THREE)],
        Step::Prune(2),
        4,
        ((0, 0, 3, 6, 1), OF_B),
        ((0, 2, 3, 4, 1), OF_B),
    ),
    (
        &[],
        &[Step::LandAll(THREE), Step::Prune(1)],
        Step::Prune(3),
        4,
        ((0, 1, 3, 5, 1), OF_B),
        ((0, 3, 3, 1, 1), OF_B),
    ),
    (
        &[],
        &[PUT_A],
        Step::Prune(0),
        4,
        ((0, 0, 1, 2, 1), OF_A),
        ((0, 0, 1, 2, 1), OF_A),
    ),
];

// Next generations. Before the four calls of the checkpoint come: the other side's length; a read of its gate, unless it
// is empty; a write and a sync of the gate, unless that is closed; and a cut and a sync, if there is more than the gate.
const GENERATIONS: &[Case] = &[
    (
        &[],
        &[Step::LandAll(THREE), Step::Prune(2)],
        Step::Compact,
        7,
        ((0, 2, 3, 4, 1), OF_B),
        ((0, 2, 3, 4, 2), OF_B),
    ),
    (
        &[0, 7, 7],
        &[],
        Step::Compact,
        8,
        ((0, 0, 0, 1, 1), EMPTY),
        ((0, 0, 0, 1, 2), EMPTY),
    ),
    // over the generation before
    (
        &[],
        &[PUT_A, Step::Compact, PUT_B],
        Step::Compact,
        10,
        ((0, 0, 2, 5, 2), OF_BOTH),
        ((0, 0, 2, 5, 3), OF_BOTH),
    ),
];

// Imports, whose calls are those of a next generation.
const IMPORTS: &[Case] = &[
    (
        &[],
        &[],
        BOTH,
        7,
        ((0, 0, 0, 1, 1), EMPTY),
        ((9, 9, 9, 3, 2), OF_BOTH),
    ),
    (
        &[],
        &[Step::Compact],
        BOTH,
        10,
        ((0, 0, 0, 1, 2), EMPTY),
        ((9, 9, 9, 3, 3), OF_BOTH),
    ),
];

// The files before the step.
fn files_before<H: Threads + Sync>(
    rt: &H,
    alloc: Global,
    case: &Case,
) -> Result<Box<MemDisk>, Fail> {
    let mut engine = store_on(rt, alloc, disk_of(alloc, &[], case.0, &[])?)?;
    take_each(rt, alloc, &mut engine, case.1)?;
    disk_in(alloc, engine)
}

// The store of these files, on a disk on which these calls fail.
fn store_of<H: Threads + Sync>(
    rt: &H,
    alloc: Global,
    files: &MemDisk,
    failing: &[u64],
) -> Result<Store, Fail> {
    let disk = disk_of(alloc, files.bytes(Side::A), files.bytes(Side::B), failing)?;
    store_on(rt, alloc, disk)
}

// Whether the step succeeds by its calls of the disk, of which the first has this number; a crash before its end leaves
// what was before or is after it, and one at its end what is after it.
fn succeeds<H: Threads + Sync>(
    rt: &H,
    alloc: Global,
    files: &MemDisk,
    since: u64,
    case: &Case,
) -> Result<bool, Fail> {
    let mut engine = store_of(rt, alloc, files, &[])?;
    let was = shows(&engine, &case.4);
    take(rt, alloc, &mut engine, &case.2)??;
    let end = since.saturating_add(case.3);
    let disk = engine.disk();
    Ok(
        was && shows(&engine, &case.5)
            && disk.moment() == end
            && leaves_since(rt, alloc, disk, since, (&case.4, &case.5))?
            && leaves_at(rt, alloc, disk, end, (&case.5, &case.5))?,
    )
}

// Whether a store refuses a step with this fault, and shows what was before it.
fn is_refused<H: Threads + Sync>(
    rt: &H,
    alloc: Global,
    engine: &mut Engine<MemDisk>,
    case: &Case,
    why: EngineFault,
) -> Result<bool, Fail> {
    let taken = take(rt, alloc, engine, &case.2)?;
    Ok(taken == Err(why) && engine.is_broken() && shows(engine, &case.4))
}

// Whether the step meets the fault of this call; the store takes no step after that; and a crash leaves what was before or
// is after the step.
fn breaks<H: Threads + Sync>(
    rt: &H,
    alloc: Global,
    files: &MemDisk,
    since: u64,
    failing: u64,
    case: &Case,
) -> Result<bool, Fail> {
    let mut engine = store_of(rt, alloc, files, &[failing])?;
    let is_broken = is_refused(rt, alloc, &mut engine, case, EngineFault::DiskFault)?
        && is_refused(rt, alloc, &mut engine, case, EngineFault::Broken)?;
    Ok(is_broken && leaves_since(rt, alloc, engine.disk(), since, (&case.4, &case.5))?)
}

// Whether each call of the step that fails breaks the store.
fn each_breaks<H: Threads + Sync>(
    rt: &H,
    alloc: Global,
    files: &MemDisk,
    since: u64,
    case: &Case,
) -> Result<bool, Fail> {
    for call in 0..case.3 {
        if !breaks(rt, alloc, files, since, since.saturating_add(call), case)? {
            return Ok(false);
        }
    }
    Ok(true)
}

fn goes_so<H: Threads + Sync>(rt: &H, alloc: Global, case: &Case) -> Result<bool, Fail> {
    let files = files_before(rt, alloc, case)?;
    let since = store_of(rt, alloc, &files, &[])?.disk().moment();
    Ok(succeeds(rt, alloc, &files, since, case)? && each_breaks(rt, alloc, &files, since, case)?)
}

#[test]
fn a_stopped_landing_leaves_its_version_or_none(rt: HostRuntime) -> Result<(), Fail> {
    for (place, case) in LANDINGS.iter().enumerate() {
        assert!(rt; goes_so(&rt, rt.alloc(), case)?, "landing {place}");
    }
    Ok(())
}

#[test]
fn stopped_landings_leave_all_versions_or_none(rt: HostRuntime) -> Result<(), Fail> {
    for (place, case) in GROUPS.iter().enumerate() {
        assert!(rt; goes_so(&rt, rt.alloc(), case)?, "group {place}");
    }
    Ok(())
}

#[test]
fn a_stopped_floor_leaves_the_old_or_the_new_one(rt: HostRuntime) -> Result<(), Fail> {
    for (place, case) in FLOORS.iter().enumerate() {
        assert!(rt; goes_so(&rt, rt.alloc(), case)?, "floor {place}");
    }
    Ok(())
}

#[test]
fn a_stopped_generation_leaves_the_old_or_the_next_one(rt: HostRuntime) -> Result<(), Fail> {
    for (place, case) in GENERATIONS.iter().enumerate() {
        assert!(rt; goes_so(&rt, rt.alloc(), case)?, "generation {place}");
    }
    Ok(())
}

#[test]
fn a_stopped_import_leaves_the_new_store_or_its_version(rt: HostRuntime) -> Result<(), Fail> {
    for (place, case) in IMPORTS.iter().enumerate() {
        assert!(rt; goes_so(&rt, rt.alloc(), case)?, "import {place}");
    }
    Ok(())
}
