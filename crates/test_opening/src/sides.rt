// Two files of which both hold bytes: which of them counts, and where damage is reported, worked out from the order in
// docs/FORMATS.md.
use crate::openings::{Change, Files, LANDED, NEW, changed_file, is_damaged};
use crate::records::{BATCH, LANDING_IN_1};
use jf_disk::Side;
use jf_play::files::{
    CHECKPOINT, CHECKPOINT_1, END, File, GROUP, LANDING, LANDING_OF_NOTHING, LANDING_OF_TWO, SECOND,
};
use std::alloc::Global;
use std::sync::Wait;
use std::test::Fail;
use std::thread::Threads;

const NONE: File = &[];

// A new store of generation 2.
const NEW_SECOND: File = &[SECOND, END];

// An open gate and no whole record.
const OPEN: File = &[&[b"\x01\x07\0"]];

// A record of kind 7, which is whole.
const SEVEN: File = &[&[b"\x01\x07\0\0\0\0\0\0\0\0"], END];

// A checkpoint whose payload is too short for a generation.
const SHORT: File = &[&[b"\x01\x05\0\0\0\0\0\0\0\x07\0\0\0\0\0\0\x01"], END];

// A checkpoint that is a generation alone.
const BARE: File = &[&[b"\x01\x05\0\0\0\0\0\0\0\x08\0\0\0\0\0\0\0\x03"], END];

// What two files are, side A, side B, bytes that are changed on side B, and the place of damage.
type Row = (&'static str, File, File, &'static [Change], Side, u64);

// More bytes than any of these files has.
const ALL: usize = 10_000;

const DAMAGED: &[Row] = &[
    // Gates and lengths, side A first.
    ("open gates on both", OPEN, OPEN, &[], Side::A, 0),
    ("an open gate on b", NONE, OPEN, &[], Side::B, 0),
    (
        "a damaged b that is not live",
        LANDED,
        OPEN,
        &[],
        Side::B,
        0,
    ),
    (
        "a landing that isn't whole on a side that isn't live",
        &[CHECKPOINT, &[b"\x01\x03"]],
        NEW_SECOND,
        &[],
        Side::A,
        100,
    ),
    (
        "an open gate at the end of b",
        NEW,
        NEW_SECOND,
        &[(100, 0x01)],
        Side::B,
        100,
    ),
    (
        "no checkpoint on a, an open gate on b",
        SEVEN,
        OPEN,
        &[],
        Side::B,
        0,
    ),
    // First records, side A first.
    ("another kind on both", SEVEN, SEVEN, &[], Side::A, 0),
    ("another kind on b", NEW, SEVEN, &[], Side::B, 0),
    ("another kind on b alone", NONE, SEVEN, &[], Side::B, 0),
    ("a landing first", &[LANDING, END], NONE, &[], Side::A, 0),
    (
        "a landing first on b",
        NEW,
        &[LANDING, END],
        &[],
        Side::B,
        0,
    ),
    ("a short checkpoint", SHORT, NEW, &[], Side::A, 0),
    ("a short checkpoint on b", NEW, SHORT, &[], Side::B, 0),
    // Generations.
    ("one generation on both", NEW, NEW, &[], Side::B, 0),
    (
        "one generation, and a landing",
        LANDED,
        NEW,
        &[],
        Side::B,
        0,
    ),
    (
        "one generation in two formats",
        NEW,
        &[CHECKPOINT_1, END],
        &[],
        Side::B,
        0,
    ),
    (
        "one generation before what a says",
        BARE,
        BARE,
        &[],
        Side::B,
        0,
    ),
    // The records of the live side.
    (
        "a live b that is no more than a generation",
        NEW,
        BARE,
        &[],
        Side::B,
        0,
    ),
    (
        "a live a that is no more than a generation",
        BARE,
        NEW_SECOND,
        &[],
        Side::A,
        0,
    ),
    ("no generation", NONE, NEW_SECOND, &[(17, 0x00)], Side::B, 0),
    (
        "the last generation",
        NEW,
        NEW_SECOND,
        &[
            (10, 0xff),
            (11, 0xff),
            (12, 0xff),
            (13, 0xff),
            (14, 0xff),
            (15, 0xff),
            (16, 0xff),
            (17, 0xff),
        ],
        Side::B,
        0,
    ),
    (
        "a landing of version 2 first",
        NEW,
        &[SECOND, LANDING_OF_NOTHING, END],
        &[],
        Side::B,
        100,
    ),
    (
        "another value on b",
        NEW,
        &[SECOND, LANDING, END],
        &[(204, 0x32)],
        Side::B,
        100,
    ),
    (
        "a second landing of version 1",
        &[CHECKPOINT, LANDING, LANDING, END],
        NONE,
        &[],
        Side::A,
        222,
    ),
    (
        "a second checkpoint",
        &[CHECKPOINT, LANDING, SECOND, END],
        NONE,
        &[],
        Side::A,
        222,
    ),
    (
        "a record of the first format of all",
        &[BATCH, END],
        NONE,
        &[],
        Side::A,
        0,
    ),
    (
        "a record of kind 1",
        &[CHECKPOINT, BATCH, END],
        NONE,
        &[],
        Side::A,
        100,
    ),
    // Internal nodes of another format than the checkpoint's.
    (
        "a node of format 2 after format 1",
        &[CHECKPOINT_1, LANDING_OF_TWO, END],
        NONE,
        &[],
        Side::A,
        100,
    ),
    (
        "nodes of format 2 in a group after format 1",
        &[CHECKPOINT_1, GROUP, END],
        NONE,
        &[],
        Side::A,
        100,
    ),
    (
        "a node of format 1 after format 2",
        &[CHECKPOINT, LANDING, LANDING_OF_NOTHING, LANDING_IN_1, END],
        NONE,
        &[],
        Side::A,
        344,
    ),
];

// Whether files are damaged as a row says, and a refused opening changes neither.
fn is_damaged_so<H: Threads + Wait + Sync>(rt: &H, alloc: Global, row: &Row) -> Result<bool, Fail> {
    let files = Files {
        a: changed_file(alloc, row.1, ALL, &[])?,
        b: changed_file(alloc, row.2, ALL, row.3)?,
    };
    is_damaged(rt, alloc, &files, row.4, row.5)
}

#[test]
fn damage_is_told_with_its_side(rt: HostRuntime) -> Result<(), Fail> {
    let alloc = rt.alloc();
    for row in DAMAGED {
        assert!(rt; is_damaged_so(&rt, alloc, row)?, "{}", row.0);
    }
    Ok(())
}
