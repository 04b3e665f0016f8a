// Opening the store that files hold already: what is found, and that no byte of them changes.
use crate::damage::{AFTER, AT_FIRST, AT_LANDING, BEFORE, Edit, Opened, edited_file};
use crate::generations::AT_FIRST_OF_B;
use crate::records::{END, File, LANDED, NEW, SECOND};
use jf_disk::{MemDisk, Side};
use jf_engine::{Engine, Existing, OpenRefused};
use jf_engine_play::stores::{disk_of, workers_of};
use std::alloc::Global;
use std::test::Fail;
use std::thread::Threads;

// What is found: no store, or a store's numbers, or why it isn't opened.
type Found = Option<Opened>;

// Side A and what is done to it, side B and what is done to it, and what is found then.
type Case = (File, &'static [Edit], File, &'static [Edit], Found);

const CASES: &[Case] = &[
    // no byte; a closed gate on a side, and on both
    (&[], &[], &[], &[], None),
    (&[END], &[], &[], &[], None),
    (&[], &[], &[END], &[], None),
    (&[END], &[], &[END], &[], None),
    // a first record of which a part was written, before its gate was opened; all of it; and the same on side B
    (NEW, &[Edit::Cut(50), Edit::Set(0, 0)], &[], &[], None),
    (NEW, &[Edit::Set(0, 0)], &[], &[], None),
    (&[], &[], NEW, &[Edit::Cut(50), Edit::Set(0, 0)], None),
    // a new store; one on side B; a landing, and one whose gate is closed
    (NEW, &[], &[], &[], Some(BEFORE)),
    (&[], &[], NEW, &[], Some(BEFORE)),
    (LANDED, &[], &[], &[], Some(AFTER)),
    (LANDED, &[Edit::Set(100, 0)], &[], &[], Some(BEFORE)),
    // a first record that is cut, and another value in the landing
    (LANDED, &[Edit::Cut(50)], &[], &[], Some(AT_FIRST)),
    (LANDED, &[Edit::Set(204, 0x32)], &[], &[], Some(AT_LANDING)),
    // side B is damaged, over a new store and alone
    (
        NEW,
        &[],
        &[SECOND, END],
        &[Edit::Cut(50)],
        Some(AT_FIRST_OF_B),
    ),
    (&[], &[], NEW, &[Edit::Cut(50)], Some(AT_FIRST_OF_B)),
];

fn has_bytes(disk: &MemDisk, a: &[u8], b: &[u8]) -> bool {
    disk.bytes(Side::A) == a && disk.bytes(Side::B) == b
}

// What is found of files of these bytes, and whether they have them still.
fn found_of<H: Threads + Sync>(
    rt: &H,
    alloc: Global,
    a: &[u8],
    b: &[u8],
) -> Result<(Found, bool), Fail> {
    let disk = Box::into_inner(disk_of(alloc, a, b, &[])?);
    Ok(
        match Engine::open_existing(rt, alloc, disk, workers_of(1)?) {
            Ok(Existing::Store(engine)) => (
                Some(Ok(engine.state())),
                has_bytes(engine.disk(), a, b),
            ),
            Ok(Existing::Absent(disk)) => (None, has_bytes(&disk, a, b)),
            Err(OpenRefused { disk, why }) => (Some(Err(why)), has_bytes(&disk, a, b)),
        },
    )
}

fn is_found<H: Threads + Sync>(rt: &H, alloc: Global, case: &Case) -> Result<bool, Fail> {
    let side_a = edited_file(alloc, case.0, case.1)?;
    let side_b = edited_file(alloc, case.2, case.3)?;
    let (found, is_unchanged) = found_of(rt, alloc, &side_a, &side_b)?;
    Ok(found == case.4 && is_unchanged)
}

#[test]
fn files_without_a_store_are_told_and_no_file_changes(rt: HostRuntime) -> Result<(), Fail> {
    for case in CASES {
        assert!(rt; is_found(&rt, rt.alloc(), case)?, "{case:?}");
    }
    Ok(())
}
