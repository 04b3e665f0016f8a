// Tables of payloads that spell no record: each bound, and each field that is wrong.
use crate::parts::{
    COUNTED, EMPTY, HASH, INNER, KEY, LAST, LEAF, N0, N1, N2, N3, NEVER, NULL, ROOT0, ROOT1, ROOT2,
    VALUE, parts_in_a_row,
};
use crate::records::is_refused;
use jf_codec::Format;
use std::alloc::Global;
use std::test::Fail;

type Row = (&'static str, u8, Format, &'static [&'static [u8]]);

const KINDS: &[Row] = &[
    ("no kind", 0, Format::Two, &[N1]),
    ("a batch", 1, Format::Two, &[N1, N0]),
    ("a later kind", 7, Format::Two, &[N1]),
    ("the last kind", 255, Format::Two, &[N1]),
    (
        "a checkpoint of format 1",
        4,
        Format::Two,
        &[N1, N0, N0, N0, EMPTY, N0],
    ),
    (
        "a checkpoint of format 2",
        5,
        Format::One,
        &[N1, N0, N0, N0, EMPTY, N0],
    ),
];

const LANDINGS: &[Row] = &[
    (
        "equal fresh names",
        3,
        Format::Two,
        &[N1, HASH, N2, ROOT1, NULL, ROOT1, NULL, N0],
    ),
    (
        "fresh names that descend",
        3,
        Format::Two,
        &[N1, HASH, N2, ROOT1, NULL, ROOT0, NULL, N0],
    ),
    (
        "equal stale names",
        3,
        Format::Two,
        &[N1, HASH, N0, N2, ROOT0, ROOT0],
    ),
    (
        "stale names that descend",
        3,
        Format::Two,
        &[N1, HASH, N0, N3, ROOT0, ROOT2, ROOT1],
    ),
    (
        "a fresh node more",
        3,
        Format::Two,
        &[N1, HASH, N0, ROOT1, NULL, N0],
    ),
    (
        "a fresh node fewer",
        3,
        Format::Two,
        &[N1, HASH, N2, ROOT1, NULL, N0],
    ),
    (
        "a stale name more",
        3,
        Format::Two,
        &[N1, HASH, N0, N0, ROOT0],
    ),
    (
        "a stale name fewer",
        3,
        Format::Two,
        &[N1, HASH, N0, N2, ROOT0],
    ),
    (
        "all nodes that there can be",
        3,
        Format::Two,
        &[N1, HASH, NEVER, N0],
    ),
    (
        "a tag of 4",
        3,
        Format::Two,
        &[N1, HASH, N1, ROOT1, &[4], N0],
    ),
    (
        "no node of format 2",
        3,
        Format::Two,
        &[N1, HASH, N1, ROOT1, INNER, N1, HASH, N1, KEY, N0],
    ),
    (
        "no node of format 1",
        3,
        Format::One,
        &[N1, HASH, N1, ROOT1, COUNTED, N1, N2, HASH, N1, N1, KEY, N0],
    ),
    (
        "a value of 4,097 bytes",
        3,
        Format::Two,
        &[
            N1,
            HASH,
            N1,
            ROOT1,
            LEAF,
            KEY,
            &[0, 0, 16, 1],
            &[0; 4097],
            N0,
        ],
    ),
    (
        "a path of 65 nibbles",
        3,
        Format::Two,
        &[N1, HASH, N0, N1, N1, &[65], &[0; 33]],
    ),
];

const CHECKPOINTS: &[Row] = &[
    ("generation 0", 5, Format::Two, &[N0, N0, N0, N0, EMPTY, N0]),
    (
        "the last generation",
        4,
        Format::One,
        &[NEVER, N0, N0, N0, EMPTY, N0],
    ),
    (
        "the last version",
        5,
        Format::Two,
        &[N1, NEVER, NEVER, NEVER, EMPTY, N0],
    ),
    (
        "a base above the floor",
        5,
        Format::Two,
        &[N1, N1, N0, N1, EMPTY, N0],
    ),
    (
        "a floor above the head",
        4,
        Format::One,
        &[N1, N0, N2, N1, EMPTY, EMPTY, N0],
    ),
    ("a root fewer", 5, Format::Two, &[N1, N0, N1, N1, EMPTY, N0]),
    (
        "a root more",
        5,
        Format::Two,
        &[N1, N0, N0, N0, EMPTY, EMPTY, N0],
    ),
    (
        "all roots that there can be",
        5,
        Format::Two,
        &[N1, N0, N0, LAST, EMPTY, N0],
    ),
    (
        "equal names",
        5,
        Format::Two,
        &[
            N1, N0, N0, N0, EMPTY, N2, ROOT0, NULL, N1, ROOT0, NULL, NEVER,
        ],
    ),
    (
        "names that descend",
        4,
        Format::One,
        &[
            N1, N0, N0, N0, EMPTY, N2, ROOT1, NULL, N1, ROOT0, NULL, NEVER,
        ],
    ),
    (
        "no version since",
        5,
        Format::Two,
        &[N1, N0, N0, N0, EMPTY, N1, ROOT0, NULL],
    ),
    (
        "no node of format 2",
        5,
        Format::Two,
        &[
            N1, N0, N0, N0, EMPTY, N1, ROOT0, INNER, N1, HASH, N1, KEY, NEVER,
        ],
    ),
    (
        "no node of format 1",
        4,
        Format::One,
        &[
            N1, N0, N0, N0, EMPTY, N1, ROOT0, COUNTED, N1, N2, HASH, N1, N1, KEY, NEVER,
        ],
    ),
];

const GROUPS: &[Row] = &[
    ("no landing", 6, Format::Two, &[N0]),
    ("one landing", 6, Format::Two, &[N1, N1, HASH, N0, N0]),
    (
        "equal versions",
        6,
        Format::Two,
        &[N2, N1, HASH, N0, N0, N1, HASH, N0, N0],
    ),
    (
        "versions that descend",
        6,
        Format::One,
        &[N2, N2, HASH, N0, N0, N1, HASH, N0, N0],
    ),
    (
        "a version left out",
        6,
        Format::Two,
        &[N2, N1, HASH, N0, N0, N3, HASH, N0, N0],
    ),
    (
        "a version after the last number",
        6,
        Format::Two,
        &[N2, NEVER, HASH, N0, N0, N0, HASH, N0, N0],
    ),
    (
        "names that descend in the last",
        6,
        Format::Two,
        &[N2, N1, HASH, N0, N0, N2, HASH, N0, N2, ROOT1, ROOT0],
    ),
    (
        "a leaf without its value",
        6,
        Format::Two,
        &[N2, N1, HASH, N1, ROOT1, LEAF, KEY, N0, N2, HASH, N0, N0],
    ),
    (
        "a byte left",
        6,
        Format::One,
        &[
            N2,
            N1,
            HASH,
            N0,
            N0,
            N2,
            HASH,
            N1,
            ROOT2,
            LEAF,
            KEY,
            VALUE,
            N0,
            &[0],
        ],
    ),
];

fn are_refused(alloc: Global, row: &Row) -> Result<bool, Fail> {
    let payload = parts_in_a_row(alloc, row.3)?;
    Ok(is_refused(alloc, row.1, &payload, row.2))
}

#[test]
fn other_kinds_are_refused(rt: HostRuntime) -> Result<(), Fail> {
    for row in KINDS {
        assert!(rt; are_refused(rt.alloc(), row)?, "{}", row.0);
    }
    Ok(())
}

#[test]
fn what_is_no_landing_is_refused(rt: HostRuntime) -> Result<(), Fail> {
    for row in LANDINGS {
        assert!(rt; are_refused(rt.alloc(), row)?, "{}", row.0);
    }
    Ok(())
}

#[test]
fn what_is_no_checkpoint_is_refused(rt: HostRuntime) -> Result<(), Fail> {
    for row in CHECKPOINTS {
        assert!(rt; are_refused(rt.alloc(), row)?, "{}", row.0);
    }
    Ok(())
}

#[test]
fn what_is_no_group_is_refused(rt: HostRuntime) -> Result<(), Fail> {
    for row in GROUPS {
        assert!(rt; are_refused(rt.alloc(), row)?, "{}", row.0);
    }
    Ok(())
}
