// Texts of landing blocks and their results.
use crate::reading::{Came, NOTHING, came_to};
use crate::samples::{DEL_A, EMPTY, ONE, PAIR, PUT_A, PUT_A_AGAIN, PUT_B, THREE, TWO};
use std::test::Fail;

// Lines and their results.
const WHOLE: &[(&[&str], Came)] = &[
    (&[], NOTHING),
    (
        &[ONE, PUT_A],
        Came {
            blocks: 1,
            changes: 1,
            version: 1,
            first: 1,
            refused: 0,
        },
    ),
    (
        &[ONE, PUT_A, TWO, PUT_A_AGAIN, THREE, PUT_B],
        Came {
            blocks: 3,
            changes: 3,
            version: 3,
            first: 5,
            refused: 0,
        },
    ),
    (
        &[EMPTY, EMPTY, PAIR, DEL_A, PUT_B],
        Came {
            blocks: 3,
            changes: 2,
            version: 4,
            first: 3,
            refused: 0,
        },
    ),
    // A line is missing at the end.
    (
        &[ONE],
        Came {
            refused: 2,
            ..NOTHING
        },
    ),
];

// Lines after one whole block of two lines, and the number of the line that is refused.
const REFUSED: &[(&[&str], u64)] = &[
    // A line is missing at the end.
    (&[ONE], 4),
    (&[PAIR, PUT_A], 5),
    // Keys that don't rise.
    (&[PAIR, PUT_B, PUT_A], 5),
    (&[PAIR, PUT_A, DEL_A], 5),
    // A line of the wrong sort.
    (&[PUT_A], 3),
    (&[ONE, TWO], 4),
    (&[""], 3),
    (&[ONE, ""], 4),
    // First lines out of form.
    (
        &["landing 01 9bb72c39f13d2b512ea34eae99a28f6d807a134ab125e89172310c6f6ea72f8f 1"],
        3,
    ),
    (
        &[
            "landing 18446744073709551616 9bb72c39f13d2b512ea34eae99a28f6d807a134ab125e89172310c6f6ea72f8f 1",
        ],
        3,
    ),
    (
        &["landing 1 9BB72C39f13d2b512ea34eae99a28f6d807a134ab125e89172310c6f6ea72f8f 1"],
        3,
    ),
    (
        &["landing 1 9bb72c39f13d2b512ea34eae99a28f6d807a134ab125e89172310c6f6ea72f8f 10001"],
        3,
    ),
    (
        &["landing 1 9bb72c39f13d2b512ea34eae99a28f6d807a134ab125e89172310c6f6ea72f8f"],
        3,
    ),
    (
        &["1 ok landing 1 9bb72c39f13d2b512ea34eae99a28f6d807a134ab125e89172310c6f6ea72f8f 1"],
        3,
    ),
    // Changes out of form.
    (
        &[
            ONE,
            "put 19d5f57c8e8b3cd760f853bb8d7900d68e10ef02674383de65a9b4d65e419b26 31",
        ],
        4,
    ),
    (
        &[
            ONE,
            "put 19d5f57c8e8b3cd760f853bb8d7900d68e10ef02674383de65a9b4d65e419b26 =3",
        ],
        4,
    ),
    (&[ONE, "put 61 =31"], 4),
    (
        &[
            ONE,
            "del 19d5f57c8e8b3cd760f853bb8d7900d68e10ef02674383de65a9b4d65e419b26 =31",
        ],
        4,
    ),
];

// After a block of two lines only that block has come.
fn is_refused_at(came: &Came, at: u64) -> bool {
    came.refused == at && came.blocks == 1 && came.first == 1
}

#[test]
fn whole_blocks_are_read(rt: HostRuntime) -> Result<(), Fail> {
    for row in WHOLE {
        assert!(rt; came_to(rt.alloc(), &[], row.0) == row.1);
    }
    Ok(())
}

#[test]
fn bad_lines_are_refused_at_their_number(rt: HostRuntime) -> Result<(), Fail> {
    for row in REFUSED {
        let came = came_to(rt.alloc(), &[ONE, PUT_A], row.0);
        assert!(rt; is_refused_at(&came, row.1));
    }
    Ok(())
}
