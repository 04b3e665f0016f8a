// Inputs that are refused: why, what landed before, and that the refused block left nothing. Keys and roots are by Python's
// `hashlib`.
use crate::samples::{FIRST, RESTORE, RESTORE_LAST, Runs, THREE, disk_after};
use jf_disk::{Disk, MemDisk};
use jf_hash::Hash;
use jf_play::blocks::Parts;
use jf_play::files::bytes_of;
use jf_play::images::{CRASHES, image_of};
use jf_play::play::{NO_FAULTS, Played, has_ended, play_line};
use jf_play::roots::with_roots;
use jf_run::status::Status;
use jf_run::{FollowFault, FollowRefused};
use std::alloc::Global;
use std::sync::Wait;
use std::test::Fail;
use std::thread::Threads;

// The roots of no name, of `put 61 =31`, and of `put 61 =32`.
const OF_NONE: Hash = [
    110, 52, 11, 156, 255, 179, 122, 152, 156, 165, 68, 230, 187, 120, 10, 44, 120, 144, 29, 63,
    179, 55, 56, 118, 133, 17, 163, 6, 23, 175, 160, 29,
];

const OF_ONE: Hash = [
    155, 183, 44, 57, 241, 61, 43, 81, 46, 163, 78, 174, 153, 162, 143, 109, 128, 122, 19, 74, 177,
    37, 232, 145, 114, 49, 12, 111, 110, 167, 47, 143,
];

const OF_OTHER: Hash = [
    170, 86, 71, 253, 34, 61, 255, 72, 175, 185, 93, 179, 180, 180, 185, 219, 37, 246, 36, 79, 89,
    179, 241, 247, 160, 176, 54, 132, 85, 44, 185, 173,
];

// Runs that come before, an input over what they left, in parts; at which version that opens the store, why the input is
// refused, how many landings come before that, and the root of the head then, as a letter of `with_roots`.
struct Row {
    before: Runs,
    input: Parts,
    start: u64,
    why: FollowRefused,
    landings: u64,
    root: &'static str,
}

const NEW: Runs = &[];

const OTHER_ROOT: FollowRefused = FollowRefused::Block(
    1,
    FollowFault::Differs {
        version: 1,
        announced: OF_NONE,
        found: OF_ONE,
    },
);

const PUT_A: &[u8] = b"put 19d5f57c8e8b3cd760f853bb8d7900d68e10ef02674383de65a9b4d65e419b26 =31\n";

const PUT_B: &[u8] = b"put 6fe4ff1a836fcb881bbe03ff848bb731a5584708153d9bc6dc1d6430579a6a12 =33\n";

// First lines: of version 1 with the root of `PUT_A`, with that of no name, and with two changes.
const ONE: &[u8] =
    b"landing 1 9bb72c39f13d2b512ea34eae99a28f6d807a134ab125e89172310c6f6ea72f8f 1\n";

const WRONG: &[u8] =
    b"landing 1 6e340b9cffb37a989ca544e6bb780a2c78901d3fb33738768511a30617afa01d 1\n";

const PAIR: &[u8] =
    b"landing 1 6e340b9cffb37a989ca544e6bb780a2c78901d3fb33738768511a30617afa01d 2\n";

// A line of one byte more than may be read.
const LONG: &[u8] = &[b'0'; 8501];

// Blocks that are refused by the table.
const BLOCKS: &[Row] = &[
    // Another root than that of the changes.
    Row {
        before: NEW,
        input: &[WRONG, PUT_A],
        start: 0,
        why: OTHER_ROOT,
        landings: 0,
        root: "E",
    },
    // The same, of a version that is there.
    Row {
        before: &[("follow", FIRST)],
        input: &[WRONG, PUT_A],
        start: 1,
        why: OTHER_ROOT,
        landings: 0,
        root: "R",
    },
    Row {
        before: NEW,
        input: &[ONE, PUT_A, ONE, PUT_A, WRONG, PUT_A],
        start: 0,
        why: FollowRefused::Block(
            5,
            FollowFault::Differs {
                version: 1,
                announced: OF_NONE,
                found: OF_ONE,
            },
        ),
        landings: 1,
        root: "R",
    },
    // A version that the store made by itself.
    Row {
        before: &[("run", b"put 61 =32\ncommit\n")],
        input: &[THREE],
        start: 1,
        why: FollowRefused::Block(
            1,
            FollowFault::Differs {
                version: 1,
                announced: OF_ONE,
                found: OF_OTHER,
            },
        ),
        landings: 0,
        root: "S",
    },
    // Another root of version 0.
    Row {
        before: NEW,
        input: &[
            b"landing 0 9bb72c39f13d2b512ea34eae99a28f6d807a134ab125e89172310c6f6ea72f8f 1\n",
            PUT_A,
        ],
        start: 0,
        why: FollowRefused::Block(
            1,
            FollowFault::Differs {
                version: 0,
                announced: OF_ONE,
                found: OF_NONE,
            },
        ),
        landings: 0,
        root: "E",
    },
    // A version above the next one, whatever its root and its changes.
    Row {
        before: NEW,
        input: &[
            b"landing 3 9bb72c39f13d2b512ea34eae99a28f6d807a134ab125e89172310c6f6ea72f8f 1\n",
            PUT_A,
        ],
        start: 0,
        why: FollowRefused::Block(1, FollowFault::Gap(0)),
        landings: 0,
        root: "E",
    },
    Row {
        before: NEW,
        input: &[
            ONE,
            PUT_A,
            b"landing 18446744073709551615 6e340b9cffb37a989ca544e6bb780a2c78901d3fb33738768511a30617afa01d 0\n",
            b"no line after it is read\n",
        ],
        start: 0,
        why: FollowRefused::Block(3, FollowFault::Gap(1)),
        landings: 1,
        root: "R",
    },
    // A version below the first one whose root is recorded.
    Row {
        before: &[RESTORE],
        input: &[b"landing 0 6e340b9cffb37a989ca544e6bb780a2c78901d3fb33738768511a30617afa01d 0\n"],
        start: 1,
        why: FollowRefused::Block(1, FollowFault::Below(1)),
        landings: 0,
        root: "P",
    },
    // No version comes after the last one.
    Row {
        before: &[RESTORE_LAST],
        input: &[
            b"landing 18446744073709551614 6e340b9cffb37a989ca544e6bb780a2c78901d3fb33738768511a30617afa01d 0\n",
            b"landing 18446744073709551615 6e340b9cffb37a989ca544e6bb780a2c78901d3fb33738768511a30617afa01d 0\n",
        ],
        start: 18_446_744_073_709_551_614,
        why: FollowRefused::Block(2, FollowFault::Last),
        landings: 0,
        root: "E",
    },
];

// Lines that don't match or are missing.
const LINES: &[Row] = &[
    // A line is missing at the end, after the first line of a block and after two whole blocks.
    Row {
        before: NEW,
        input: &[ONE],
        start: 0,
        why: FollowRefused::Line(2),
        landings: 0,
        root: "E",
    },
    Row {
        before: NEW,
        input: &[ONE, PUT_A, ONE, PUT_A, PAIR, PUT_A],
        start: 0,
        why: FollowRefused::Line(7),
        landings: 1,
        root: "R",
    },
    // Keys out of order, and a key that comes twice. A line decides before the block, which would be refused too.
    Row {
        before: NEW,
        input: &[PAIR, PUT_B, PUT_A],
        start: 0,
        why: FollowRefused::Line(3),
        landings: 0,
        root: "E",
    },
    Row {
        before: NEW,
        input: &[PAIR, PUT_A, PUT_A],
        start: 0,
        why: FollowRefused::Line(3),
        landings: 0,
        root: "E",
    },
    // Lines of another sort: a command, an empty line, a reply, a block of too many changes.
    Row {
        before: NEW,
        input: &[ONE, b"put 61 =31\n"],
        start: 0,
        why: FollowRefused::Line(2),
        landings: 0,
        root: "E",
    },
    Row {
        before: NEW,
        input: &[ONE, PUT_A, b"\n"],
        start: 0,
        why: FollowRefused::Line(3),
        landings: 1,
        root: "R",
    },
    Row {
        before: NEW,
        input: &[
            b"1 ok commit 1 9bb72c39f13d2b512ea34eae99a28f6d807a134ab125e89172310c6f6ea72f8f\n",
        ],
        start: 0,
        why: FollowRefused::Line(1),
        landings: 0,
        root: "E",
    },
    Row {
        before: NEW,
        input: &[
            b"landing 1 9bb72c39f13d2b512ea34eae99a28f6d807a134ab125e89172310c6f6ea72f8f 10001\n",
        ],
        start: 0,
        why: FollowRefused::Line(1),
        landings: 0,
        root: "E",
    },
    // A line of more bytes than may be read.
    Row {
        before: NEW,
        input: &[ONE, LONG],
        start: 0,
        why: FollowRefused::Line(2),
        landings: 0,
        root: "E",
    },
];

// Whether a run was refused so, wrote nothing, and made these landings.
fn has_refused(played: &Played<MemDisk>, row: &Row) -> bool {
    let status = Status::Unfollowed(row.why);
    has_ended(played, status, Some(row.start), b"") && played.entries == row.landings
}

// How many calls on the disk an opening makes, and the landings of a row after it.
fn calls_of(row: &Row) -> u64 {
    let opening = if row.before.is_empty() { 13 } else { 6 };
    row.landings.saturating_mul(4).saturating_add(opening)
}

// Whether a disk opens at the version after a row's landings, with the row's root.
fn shows_before<H: Threads + Wait + Sync>(
    rt: &H,
    alloc: Global,
    disk: Box<MemDisk>,
    row: &Row,
) -> Result<bool, Fail> {
    let want = format!(in alloc; "0 ok root {}\n", row.root)?;
    let want = with_roots(alloc, want.as_str())?;
    let head = row.start.saturating_add(row.landings);
    let played = play_line(rt, alloc, disk, "run", b"root head\n", NO_FAULTS)?;
    Ok(has_ended(&played, Status::Done, Some(head), &want))
}

// Whether a disk, and each crash of it now, has these versions.
fn all_show<H: Threads + Wait + Sync>(
    rt: &H,
    alloc: Global,
    disk: Box<MemDisk>,
    row: &Row,
) -> Result<bool, Fail> {
    for crash in CRASHES {
        let image = image_of(alloc, &disk, disk.moment(), *crash)?;
        if !shows_before(rt, alloc, image, row)? {
            return Ok(false);
        }
    }
    shows_before(rt, alloc, disk, row)
}

// Whether a row's input is refused so, and no call on the disk is made for what was refused.
fn is_refused<H: Threads + Wait + Sync>(rt: &H, alloc: Global, row: &Row) -> Result<bool, Fail> {
    let disk = disk_after(rt, alloc, row.before)?;
    let before = disk.moment();
    let input = bytes_of(alloc, row.input)?;
    let played = play_line(rt, alloc, disk, "follow", &input, NO_FAULTS)?;
    let calls = played.disk.moment().saturating_sub(before);
    let as_expected = has_refused(&played, row) && calls == calls_of(row);
    Ok(as_expected && all_show(rt, alloc, played.disk, row)?)
}

#[test]
fn a_block_is_refused_by_the_first_row_that_holds(rt: HostRuntime) -> Result<(), Fail> {
    for (number, row) in BLOCKS.iter().enumerate() {
        assert!(rt; is_refused(&rt, rt.alloc(), row)?, "of {number}");
    }
    Ok(())
}

#[test]
fn a_line_is_refused_by_its_number(rt: HostRuntime) -> Result<(), Fail> {
    for (number, row) in LINES.iter().enumerate() {
        assert!(rt; is_refused(&rt, rt.alloc(), row)?, "of {number}");
    }
    Ok(())
}
