// The hashes of ranges of places. Expected values are Python's hashlib over the tag 02 and the two halves, pair by
// pair.
ghost use Rattle.std.specs.Prelude.{IsTrue};
ghost use Rattle.jf_hash.specs.Ranges.{IsRange};

use jf_hash::{Hash, Ranges, Slot, sixteen};
use jf_path::{Bitmap, Memory};
use std::alloc::Global;
use std::test::Fail;

// The empty hash: that of the byte 0.
const EMPTY: Hash = [
    0x6e, 0x34, 0x0b, 0x9c, 0xff, 0xb3, 0x7a, 0x98, 0x9c, 0xa5, 0x44, 0xe6, 0xbb, 0x78, 0x0a, 0x2c,
    0x78, 0x90, 0x1d, 0x3f, 0xb3, 0x37, 0x38, 0x76, 0x85, 0x11, 0xa3, 0x06, 0x17, 0xaf, 0xa0, 0x1d,
];

const ONES: Hash = [0x11; 32];

const TWOS: Hash = [0x22; 32];

const THREES: Hash = [0x33; 32];

const GAP: Slot = Slot::Absent;

const LEAF_ONES: Slot = Slot::Leaf(ONES);

const LEAF_TWOS: Slot = Slot::Leaf(TWOS);

const LINK: Slot = Slot::Inner(THREES);

// A node without a child.
const NONE: [Slot; 16] = [
    GAP, GAP, GAP, GAP, GAP, GAP, GAP, GAP, GAP, GAP, GAP, GAP, GAP, GAP, GAP, GAP,
];

// A leaf at place 5.
const LEAF: [Slot; 16] = [
    GAP, GAP, GAP, GAP, GAP, LEAF_ONES, GAP, GAP, GAP, GAP, GAP, GAP, GAP, GAP, GAP, GAP,
];

// An internal node at place 5.
const INNER: [Slot; 16] = [
    GAP, GAP, GAP, GAP, GAP, LINK, GAP, GAP, GAP, GAP, GAP, GAP, GAP, GAP, GAP, GAP,
];

// A leaf in the first half, and an internal node in the second.
const APART: [Slot; 16] = [
    GAP, LEAF_ONES, GAP, GAP, GAP, GAP, GAP, GAP, GAP, GAP, GAP, GAP, LINK, GAP, GAP, GAP,
];

// Two leaves in the last pair.
const LAST: [Slot; 16] = [
    GAP, GAP, GAP, GAP, GAP, GAP, GAP, GAP, GAP, GAP, GAP, GAP, GAP, GAP, LEAF_ONES, LEAF_TWOS,
];

// What a node has, its places, where a range begins and how many places it has, and the range's hash.
const RANGES: &[(&str, &[Slot; 16], usize, usize, Hash)] = &[
    ("no child", &NONE, 0, 16, EMPTY),
    ("one leaf", &LEAF, 0, 16, ONES),
    ("one leaf, in its half", &LEAF, 0, 8, ONES),
    ("one leaf, at its place", &LEAF, 5, 1, ONES),
    (
        "one internal node",
        &INNER,
        0,
        16,
        [
            0x0d, 0x1e, 0xcc, 0xa4, 0x29, 0x44, 0x02, 0x6e, 0x97, 0x5d, 0x8c, 0x3e, 0x92, 0x5c,
            0x67, 0x46, 0x75, 0x4b, 0xfd, 0xa8, 0x3a, 0x65, 0x7c, 0x91, 0xf3, 0xef, 0xcb, 0x1b,
            0x27, 0xdd, 0xab, 0x65,
        ],
    ),
    (
        "one internal node, in its half",
        &INNER,
        0,
        8,
        [
            0x42, 0x79, 0xc2, 0x1a, 0xb9, 0xaf, 0x31, 0xf6, 0x49, 0x19, 0xe4, 0xbf, 0x5c, 0x1c,
            0xf0, 0x4e, 0xc5, 0x60, 0x76, 0xb5, 0xf1, 0xa0, 0x00, 0x10, 0x24, 0x5d, 0x41, 0xce,
            0x9f, 0x79, 0x1b, 0x0c,
        ],
    ),
    ("one internal node, in the other half", &INNER, 8, 8, EMPTY),
    (
        "one internal node, in its quarter",
        &INNER,
        4,
        4,
        [
            0xb8, 0xd6, 0xb7, 0x9f, 0x6b, 0xc5, 0x94, 0x71, 0x5d, 0xb9, 0x41, 0xc7, 0x8f, 0x9d,
            0x75, 0xd7, 0x73, 0x2b, 0xde, 0xc2, 0xb8, 0x40, 0x6f, 0x4c, 0x72, 0x26, 0x67, 0xb5,
            0x8e, 0x1d, 0xaf, 0x73,
        ],
    ),
    (
        "one internal node, in its pair",
        &INNER,
        4,
        2,
        [
            0xf5, 0xec, 0x77, 0x43, 0xaa, 0x10, 0x00, 0xcb, 0xd2, 0x3f, 0x78, 0xbe, 0xd6, 0xb4,
            0x03, 0xe8, 0xd2, 0x15, 0x6b, 0xcb, 0x03, 0x40, 0xb0, 0x6a, 0x22, 0x4a, 0x5a, 0x3a,
            0x3c, 0xc9, 0xc5, 0x6d,
        ],
    ),
    ("one internal node, at its place", &INNER, 5, 1, THREES),
    (
        "a leaf and an internal node",
        &APART,
        0,
        16,
        [
            0x76, 0xc2, 0xac, 0x68, 0xf9, 0x4f, 0x60, 0x7e, 0x36, 0x14, 0xac, 0x86, 0x6b, 0x12,
            0x24, 0x94, 0x8c, 0x4c, 0xdb, 0x8d, 0xb9, 0xef, 0x78, 0xd1, 0x58, 0xad, 0xf8, 0xcb,
            0xf3, 0x3b, 0xcd, 0xaa,
        ],
    ),
    ("the half of the leaf", &APART, 0, 8, ONES),
    (
        "the half of the internal node",
        &APART,
        8,
        8,
        [
            0x3f, 0xa2, 0x5e, 0x0e, 0xa8, 0x7c, 0x6c, 0x11, 0xa9, 0xc0, 0x8f, 0xfe, 0x05, 0xa2,
            0xf0, 0xb1, 0x53, 0x5c, 0xb4, 0x90, 0x78, 0x93, 0x14, 0x14, 0xea, 0xfa, 0xdb, 0x3c,
            0x5b, 0x69, 0x74, 0x76,
        ],
    ),
    (
        "two leaves in the last pair",
        &LAST,
        0,
        16,
        [
            0x78, 0x24, 0x26, 0x7d, 0x63, 0x10, 0xa0, 0x53, 0x54, 0xb3, 0x34, 0x42, 0x5c, 0x6c,
            0x98, 0xc3, 0x0f, 0x54, 0x99, 0x20, 0x94, 0xcb, 0xe1, 0x71, 0x8b, 0x4e, 0x8e, 0x08,
            0x25, 0x2e, 0xcc, 0x18,
        ],
    ),
    (
        "two leaves, in the last half",
        &LAST,
        8,
        8,
        [
            0x9f, 0x45, 0x3c, 0x9e, 0x93, 0xcf, 0xed, 0xa4, 0x56, 0x35, 0x39, 0x04, 0x9f, 0xa7,
            0x37, 0xeb, 0x23, 0xb8, 0x81, 0xac, 0x00, 0xa4, 0x39, 0xbc, 0x02, 0x4a, 0xba, 0xb1,
            0x40, 0xef, 0x2a, 0x1b,
        ],
    ),
    (
        "two leaves, in the last quarter",
        &LAST,
        12,
        4,
        [
            0x15, 0xae, 0x36, 0x59, 0x80, 0x38, 0x40, 0xcc, 0xde, 0xf7, 0xb7, 0xfa, 0xf4, 0xa3,
            0x80, 0x8d, 0x74, 0xaa, 0x7a, 0x1d, 0x64, 0x98, 0x48, 0xfb, 0x43, 0xdd, 0xc0, 0x93,
            0x07, 0x70, 0xd1, 0xf9,
        ],
    ),
    (
        "two leaves, in the last pair",
        &LAST,
        14,
        2,
        [
            0xc4, 0x84, 0x05, 0x8e, 0x7e, 0x2b, 0x8f, 0xe5, 0xbb, 0xae, 0xfc, 0xb5, 0x23, 0xaa,
            0x44, 0x3b, 0xa4, 0xd8, 0xb5, 0x09, 0x30, 0x38, 0xdc, 0x1f, 0x81, 0x47, 0xe7, 0x48,
            0x23, 0xed, 0xa8, 0xf1,
        ],
    ),
    ("two leaves, in the pair before", &LAST, 12, 2, EMPTY),
    ("the last of two leaves", &LAST, 15, 1, TWOS),
];

// Whether a range of so many places may begin there.
fn is_range(start: usize, width: usize) -> bool
    ensures { IsTrue result → IsRange start width }
{
    matches!(width, 1 | 2 | 4 | 8 | 16) && start % width == 0 && start < 16
}

fn has_hash(slots: &[Slot; 16], start: usize, width: usize, expected: &Hash) -> bool {
    is_range(start, width) && sixteen(slots, start, width) == *expected
}

#[test]
fn a_range_is_hashed_from_its_halves(rt: HostRuntime) {
    for (what, slots, start, width, expected) in RANGES {
        assert!(rt; has_hash(slots, *start, *width, expected), "{what}");
    }
}

// `APART` with a leaf at place 5 too: two leaves stand in the half of that place, and one alone in its quarter.
const LOW_HALF: Hash = [
    0xc4, 0x84, 0x05, 0x8e, 0x7e, 0x2b, 0x8f, 0xe5, 0xbb, 0xae, 0xfc, 0xb5, 0x23, 0xaa, 0x44, 0x3b,
    0xa4, 0xd8, 0xb5, 0x09, 0x30, 0x38, 0xdc, 0x1f, 0x81, 0x47, 0xe7, 0x48, 0x23, 0xed, 0xa8, 0xf1,
];

const TOP: Hash = [
    0xba, 0xee, 0xc3, 0x3c, 0xd0, 0x9c, 0x1c, 0x43, 0x4b, 0x68, 0xf9, 0xb9, 0x26, 0x96, 0x57, 0xea,
    0xbe, 0x5d, 0xb7, 0x6b, 0x23, 0xd8, 0xfc, 0xa5, 0x38, 0xf7, 0xe7, 0x46, 0x47, 0xfd, 0x8e, 0x42,
];

fn changed_slots() -> [Slot; 16] {
    let mut slots = APART;
    slots[5] = LEAF_TWOS;
    slots
}

fn changed_at_5() -> Bitmap {
    let mut changed = Bitmap::none();
    changed.set(5, true);
    changed
}

// The ranges of two to eight places.
const WIDE: &[(usize, usize)] = &[
    (0, 2),
    (2, 2),
    (4, 2),
    (6, 2),
    (8, 2),
    (10, 2),
    (12, 2),
    (14, 2),
    (0, 4),
    (4, 4),
    (8, 4),
    (12, 4),
    (0, 8),
    (8, 8),
];

// Whether the same is kept of a range.
fn has_same(one: &Ranges, other: &Ranges, start: usize, width: usize) -> bool {
    width >= 2
        && width <= 8
        && is_range(start, width)
        && one.hash(start, width).copied() == other.hash(start, width).copied()
}

fn are_same(one: &Ranges, other: &Ranges) -> bool {
    for (start, width) in WIDE {
        if !has_same(one, other, *start, *width) {
            return false;
        }
    }
    true
}

// Whether the hashes and that of all places are those of the changed places.
fn is_hashed_anew(alloc: Global, after: &Ranges, top: &Hash) -> Result<bool, Memory> {
    let (anew, anew_top) = Ranges::of(alloc, &changed_slots())?;
    Ok(are_same(after, &anew) && *top == anew_top)
}

fn is_copied(alloc: Global, ranges: &Ranges) -> Result<bool, Memory> {
    let copy = ranges.copy(alloc)?;
    Ok(are_same(ranges, &copy))
}

fn has_changed_hashes(before: &Ranges, after: &Ranges) -> bool {
    after.hash(4, 2).is_none()
        && after.hash(0, 8).copied() == Some(LOW_HALF)
        && after.hash(8, 8).copied() == before.hash(8, 8).copied()
}

#[test]
fn a_change_leaves_the_hashes_of_the_changed_places(rt: HostRuntime) -> Result<(), Fail> {
    let (before, old_top) = Ranges::of(rt.alloc(), &APART)?;
    let (after, top) = before.updated_ranges(
        rt.alloc(),
        &old_top,
        &changed_slots(),
        changed_at_5(),
    )?;
    assert!(rt; is_hashed_anew(rt.alloc(), &after, &top)?);
    assert!(rt; has_changed_hashes(&before, &after));
    assert_eq!(rt; top, TOP);
    Ok(())
}

#[test]
fn a_copy_has_the_same_hashes(rt: HostRuntime) -> Result<(), Fail> {
    let (ranges, _) = Ranges::of(rt.alloc(), &APART)?;
    assert!(rt; is_copied(rt.alloc(), &ranges)?);
    Ok(())
}
