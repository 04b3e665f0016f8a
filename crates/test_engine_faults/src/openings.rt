// Openings: what a crash after each call of the disk leaves, and what is left after each call that fails.
use crate::crashes::{Found, leaves_since, shows};
use jf_disk::{Disk, MemDisk, Side};
use jf_engine::{EngineFault, OpenFault, OpenRefused};
use jf_engine_play::roots::{EMPTY, OF_A, OF_BOTH};
use jf_engine_play::steps::{Step, take, take_each};
use jf_engine_play::stores::{disk_in, disk_of, open, store_on};
use std::alloc::Global;
use std::test::Fail;
use std::thread::Threads;

// Side A at first, steps on the store there, the number of calls of the disk that an opening makes then, and what it finds.
type Case = (&'static [u8], &'static [Step], u64, Found);

const NEW: Found = ((0, 0, 0, 1, 1), EMPTY);

const PUT_A: Step = Step::Land(&[(b'a', Some(b'1'))]);

const PUT_B: Step = Step::Land(&[(b'b', Some(b'2'))]);

// An opening makes six calls: a sync of each side, and its length and bytes. Files without a record are then initialised:
// the length of side A; a read of its gate, unless it is empty; a write and a sync of the gate, unless that is closed; a cut
// and a sync, if there is more than the gate; and the four calls of a record.
const CASES: &[Case] = &[
    (&[], &[], 13, NEW),
    (&[1], &[], 14, NEW),
    (&[0], &[], 12, NEW),
    (&[0, 7, 7], &[], 14, NEW),
    (&[0x5a, 5, 0, 0, 0, 0, 0, 0, 0, 0, 0], &[], 14, NEW),
    (&[], &[PUT_A], 6, ((0, 0, 1, 2, 1), OF_A)),
    (
        &[],
        &[PUT_A, Step::Compact, PUT_B],
        6,
        ((0, 0, 2, 5, 2), OF_BOTH),
    ),
];

// The files that are opened.
fn files_of<H: Threads + Sync>(rt: &H, alloc: Global, case: &Case) -> Result<Box<MemDisk>, Fail> {
    let disk = disk_of(alloc, case.0, &[], &[])?;
    if case.1.is_empty() {
        return Ok(disk);
    }
    let mut engine = store_on(rt, alloc, disk)?;
    take_each(rt, alloc, &mut engine, case.1)?;
    disk_in(alloc, engine)
}

// A disk with these files, on which these calls fail.
fn copy_of(alloc: Global, files: &MemDisk, failing: &[u64]) -> Result<Box<MemDisk>, Fail> {
    disk_of(alloc, files.bytes(Side::A), files.bytes(Side::B), failing)
}

// Whether the files are opened by so many calls, and each crash leaves the same.
fn succeeds<H: Threads + Sync>(
    rt: &H,
    alloc: Global,
    files: &MemDisk,
    calls: u64,
    found: &Found,
) -> Result<bool, Fail> {
    let engine = store_on(rt, alloc, copy_of(alloc, files, &[])?)?;
    let disk = engine.disk();
    Ok(
        shows(&engine, found)
            && disk.moment() == calls
            && leaves_since(rt, alloc, disk, 0, (found, found))?,
    )
}

// The disk of an opening that met a fault.
fn faulty_disk<H: Threads + Sync>(
    rt: &H,
    alloc: Global,
    disk: Box<MemDisk>,
) -> Result<Box<MemDisk>, Fail> {
    match open(rt, alloc, disk) {
        Err(
            OpenRefused {
                disk,
                why: OpenFault::DiskFault,
            },
        ) => Ok(Box::new(alloc, disk)?),
        _ => Err(Fail::new("the fault is not told")),
    }
}

// Whether an opening meets the fault of each of its calls, and each crash leaves the same.
fn each_fails<H: Threads + Sync>(
    rt: &H,
    alloc: Global,
    files: &MemDisk,
    calls: u64,
    found: &Found,
) -> Result<bool, Fail> {
    for call in 0..calls {
        let disk = faulty_disk(rt, alloc, copy_of(alloc, files, &[call])?)?;
        if !leaves_since(rt, alloc, &disk, 0, (found, found))? {
            return Ok(false);
        }
    }
    Ok(true)
}

fn goes_so<H: Threads + Sync>(
    rt: &H,
    alloc: Global,
    files: &MemDisk,
    calls: u64,
    found: &Found,
) -> Result<bool, Fail> {
    Ok(succeeds(rt, alloc, files, calls, found)? && each_fails(rt, alloc, files, calls, found)?)
}

#[test]
fn a_stopped_opening_leaves_the_same_store(rt: HostRuntime) -> Result<(), Fail> {
    for (place, case) in CASES.iter().enumerate() {
        let files = files_of(&rt, rt.alloc(), case)?;
        assert!(rt;
            goes_so(&rt, rt.alloc(), &files, case.2, &case.3)?,
            "files {place}"
        );
    }
    Ok(())
}

// The files of a new store on which a landing broke off at this call.
fn files_broken_at<H: Threads + Sync>(
    rt: &H,
    alloc: Global,
    call: u64,
) -> Result<Box<MemDisk>, Fail> {
    let mut engine = store_on(rt, alloc, disk_of(alloc, &[], &[], &[call])?)?;
    if take(rt, alloc, &mut engine, &PUT_A)? != Err(EngineFault::DiskFault) {
        return Err(Fail::new("the fault is not told"));
    }
    disk_in(alloc, engine)
}

// The calls of a landing on a new store, and what is found in the files if it broke off there.
const BROKEN_AT: &[(u64, Found)] = &[
    (13, NEW),
    (14, NEW),
    (15, NEW),
    (16, ((0, 0, 1, 2, 1), OF_A)),
];

#[test]
fn an_opening_that_is_stopped_after_another_stop_leaves_the_same(
    rt: HostRuntime,
) -> Result<(), Fail> {
    for (call, found) in BROKEN_AT {
        let files = files_broken_at(&rt, rt.alloc(), *call)?;
        assert!(rt; goes_so(&rt, rt.alloc(), &files, 6, found)?, "at {call}");
    }
    Ok(())
}
