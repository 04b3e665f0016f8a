// The map that has `two` at `y30` and `one` at `x`, whose keys come in this order and agree in 3 bits, in chunks. Its
// hashes are from outside, by Python's hashlib.
use crate::given::{NONE, Row, comes_to};
use jf_hash::Hash;
use jf_range::RangeFault;
use jf_restore::RestoreRefused;
use std::test::Fail;

// The root of the map.
const ROOT: Hash = [
    0x70, 0xc4, 0x44, 0xfe, 0xb5, 0x46, 0x34, 0x63, 0xcc, 0xa8, 0x26, 0x0d, 0xe1, 0x24, 0x94, 0xe6,
    0x37, 0x72, 0x0a, 0x49, 0x43, 0x41, 0x7c, 0x09, 0xe9, 0x52, 0x57, 0x88, 0xed, 0x9a, 0xa8, 0x46,
];

// The hash of the leaf of `x`.
const LEAF_OF_X: Hash = [
    0x31, 0x34, 0x6b, 0x37, 0xcb, 0x4a, 0x8f, 0x56, 0xc3, 0x8d, 0x46, 0xdc, 0x02, 0x6b, 0xe7, 0xc8,
    0xdb, 0x69, 0x9f, 0xd4, 0xe4, 0x09, 0x50, 0xd7, 0x31, 0xa9, 0x58, 0xfc, 0x3b, 0x02, 0xda, 0x70,
];

// The hash of the leaf of `y30`, which is the root of that entry alone.
const LEAF_OF_Y30: Hash = [
    0x14, 0x58, 0x8f, 0x26, 0xf1, 0xaa, 0x91, 0x28, 0xb6, 0x75, 0x5d, 0x73, 0x92, 0x76, 0x5d, 0x60,
    0xa8, 0xd5, 0xf3, 0xbf, 0x9f, 0x77, 0x4a, 0xe1, 0x57, 0xe6, 0xf1, 0xd5, 0xb1, 0x37, 0x6a, 0xa0,
];

const Y30: &[(&str, &str)] = &[("y30", "two")];

const X: &[(&str, &str)] = &[("x", "one")];

const BOTH: &[(&str, &str)] = &[("y30", "two"), ("x", "one")];

const TURNED: &[(&str, &str)] = &[("x", "one"), ("y30", "two")];

const OTHER_VALUE: &[(&str, &str)] = &[("y30", "two"), ("x", "two")];

// The hashes on the right of the way to `y30`, and of the way to `x`, whose lowest sibling is on the left.
const BEYOND_Y30: &[Hash] = &[LEAF_OF_X, NONE, NONE];

const BEYOND_X: &[Hash] = &[NONE, NONE];

const EMPTY: Option<RestoreRefused> = Some(RestoreRefused::Chunk(RangeFault::Empty));

const ORDER: Option<RestoreRefused> = Some(RestoreRefused::Chunk(RangeFault::Order));

const COUNT: Option<RestoreRefused> = Some(RestoreRefused::Chunk(RangeFault::Count));

const LONE: Option<RestoreRefused> = Some(RestoreRefused::Chunk(RangeFault::Lone));

const WRONG_ROOT: Option<RestoreRefused> = Some(RestoreRefused::Chunk(RangeFault::WrongRoot));

// Chunks one after the other, and whether all of them are the whole map.
const RESTORES: &[(&[Row], Result<u64, RestoreRefused>)] = &[
    (&[(Y30, 4, BEYOND_Y30, None), (X, 4, BEYOND_X, None)], Ok(2)),
    (&[(BOTH, 4, BEYOND_X, None)], Ok(2)),
    (
        &[(Y30, 4, BEYOND_Y30, None)],
        Err(RestoreRefused::NotWhole(LEAF_OF_Y30)),
    ),
    (
        &[(X, 4, BEYOND_X, WRONG_ROOT)],
        Err(RestoreRefused::NotWhole(NONE)),
    ),
    (
        &[
            (Y30, 4, BEYOND_Y30, None),
            (Y30, 4, BEYOND_Y30, ORDER),
            (X, 4, BEYOND_X, None),
        ],
        Ok(2),
    ),
];

// Chunks that are each refused by a restore without entries, by the first check that fails.
const REFUSED: &[Row] = &[
    (&[], 257, &[], EMPTY),
    (TURNED, 257, &[], ORDER),
    (TURNED, 4, BEYOND_X, ORDER),
    (BOTH, 257, &[], COUNT),
    (BOTH, 4, &[NONE], COUNT),
    (BOTH, 4, BEYOND_Y30, COUNT),
    (BOTH, 3, BEYOND_X, LONE),
    (BOTH, 0, &[], LONE),
    (OTHER_VALUE, 4, BEYOND_X, WRONG_ROOT),
    (X, 4, BEYOND_X, WRONG_ROOT),
    (Y30, 0, &[], WRONG_ROOT),
];

#[test]
fn chunks_in_their_order_make_the_whole(rt: HostRuntime) -> Result<(), Fail> {
    for (rows, whole) in RESTORES {
        assert!(rt; comes_to(rt.alloc(), ROOT, rows, *whole)?);
    }
    Ok(())
}

#[test]
fn a_chunk_is_refused_by_the_first_check_that_fails(rt: HostRuntime) -> Result<(), Fail> {
    let nothing = Err(RestoreRefused::NotWhole(NONE));
    assert!(rt; comes_to(rt.alloc(), ROOT, REFUSED, nothing)?);
    Ok(())
}

#[test]
fn no_chunk_makes_the_map_without_entries(rt: HostRuntime) -> Result<(), Fail> {
    assert!(rt; comes_to(rt.alloc(), NONE, &[], Ok(0))?);
    assert!(rt; comes_to(rt.alloc(), NONE, &[(&[], 0, &[], EMPTY)], Ok(0))?);
    Ok(())
}
