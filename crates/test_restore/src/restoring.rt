// Versions that are restored: what is written, what the files hold, and what a later run finds. The roots and bytes are
// from Python's `hashlib`.
use crate::records::RESTORED;
use jf_disk::{MemDisk, Side};
use jf_play::blocks::{
    EMPTY_SIDE, FIRST_BLOCK, FIRST_ENTRY, Parts, RESTORE_PAIR, SECOND_BLOCK, SECOND_ENTRY,
    play_of_parts,
};
use jf_play::files::{CHECKPOINT, END, File, IMPORTED, file_bytes};
use jf_play::play::{Faults, NO_FAULTS, Played, answers, has_ended};
use jf_play::roots::with_roots;
use jf_run::status::Status;
use std::alloc::Global;
use std::sync::Wait;
use std::test::Fail;
use std::thread::Threads;

// Words and their input over a new store, and what they write; then a script over what they left, the version at which it
// opens the store, and its replies. In the texts letters represent roots, as in `with_roots`.
struct Row {
    line: &'static str,
    input: Parts,
    text: &'static str,
    head: u64,
    script: &'static str,
    replies: &'static str,
}

const ROWS: &[Row] = &[
    // The last version that there can be.
    Row {
        line: "restore 18446744073709551614 6e340b9cffb37a989ca544e6bb780a2c78901d3fb33738768511a30617afa01d",
        input: &[],
        text: "restored 18446744073709551614 E 0\n",
        head: 18_446_744_073_709_551_614,
        script: "commit\nstatus\n",
        replies: "0 no last\n\
                  0 ok status base 18446744073709551614 floor 18446744073709551614 retired 18446744073709551614 \
                  head 18446744073709551614 kept 1 forks 0 generation 2\n",
    },
    // Two blocks, as the replies to `chunk` have them.
    Row {
        line: RESTORE_PAIR,
        input: &[FIRST_BLOCK, SECOND_BLOCK],
        text: "restored 1 P 2\n",
        head: 1,
        script: "get head 61\nget v1 62\nget head 63\nget v0 61\nroot v0\nroot v1\nroot head\ncount head\nnth v1 1\nstatus\n",
        replies: "0 ok value =31\n\
                  0 ok value =32\n\
                  0 ok none\n\
                  0 no retired 1\n\
                  0 no retired 1\n\
                  0 ok root P\n\
                  0 ok root P\n\
                  0 ok count 2\n\
                  0 ok nth 6fe4ff1a836fcb881bbe03ff848bb731a5584708153d9bc6dc1d6430579a6a12 =32\n\
                  0 ok status base 1 floor 1 retired 1 head 1 kept 3 forks 0 generation 2\n",
    },
    // One block of both entries without `n ok`; the store goes on.
    Row {
        line: "restore 7 3e92b77a6f4a7dcc426f134b3415f3af7eb39e5c8ac7599c94f5a3c83fe07425 --workers 2",
        input: &[b"chunk 2 2 1\n", FIRST_ENTRY, SECOND_ENTRY, EMPTY_SIDE],
        text: "restored 7 P 2\n",
        head: 7,
        script: "put 62 =33\ncommit\nget v7 62\nget head 62\nroot v7\nroot v8\nstatus\n",
        replies: "0 ok pending 1\n\
                  1 ok commit 8 Q\n\
                  1 ok value =32\n\
                  1 ok value =33\n\
                  1 ok root P\n\
                  1 ok root Q\n\
                  1 ok status base 7 floor 7 retired 7 head 8 kept 5 forks 0 generation 2\n",
    },
    // Entries as version 0, and no line feed at the end.
    Row {
        line: "restore 0 3e92b77a6f4a7dcc426f134b3415f3af7eb39e5c8ac7599c94f5a3c83fe07425",
        input: &[
            FIRST_BLOCK,
            b"chunk 1 2 1\n",
            SECOND_ENTRY,
            b"side 6e340b9cffb37a989ca544e6bb780a2c78901d3fb33738768511a30617afa01d",
        ],
        text: "restored 0 P 2\n",
        head: 0,
        script: "get v0 61\nget head 62\nstatus\n",
        replies: "0 ok value =31\n\
                  0 ok value =32\n\
                  0 ok status base 0 floor 0 retired 0 head 0 kept 3 forks 0 generation 2\n",
    },
    // A store that is new but for its generation.
    Row {
        line: "restore 0 6e340b9cffb37a989ca544e6bb780a2c78901d3fb33738768511a30617afa01d",
        input: &[],
        text: "restored 0 E 0\n",
        head: 0,
        script: "put 61 =31\ncommit\nstatus\n",
        replies: "0 ok pending 1\n\
                  1 ok commit 1 R\n\
                  1 ok status base 0 floor 0 retired 0 head 1 kept 2 forks 0 generation 2\n",
    },
];

// Whether words over a new store write this text, in which letters represent roots.
fn is_restored(alloc: Global, played: &Played<MemDisk>, text: &str) -> Result<bool, Fail> {
    let text = with_roots(alloc, text)?;
    Ok(has_ended(played, Status::Done, Some(0), &text) && played.entries == 0)
}

// Fails unless a script over the disk opens it at this version and has these replies.
fn are_replied<H: Threads + Wait + Sync>(
    rt: &H,
    alloc: Global,
    disk: Box<MemDisk>,
    row: &Row,
) -> Result<(), Fail> {
    let want = with_roots(alloc, row.replies)?;
    let _ = answers(rt, alloc, disk, row.script.as_bytes(), row.head, &want)?;
    Ok(())
}

fn is_found_again<H: Threads + Wait + Sync>(
    rt: &H,
    alloc: Global,
    row: &Row,
) -> Result<bool, Fail> {
    let played = play_of_parts(rt, alloc, row.line, row.input, NO_FAULTS)?;
    let restored = is_restored(alloc, &played, row.text)?;
    are_replied(rt, alloc, played.disk, row)?;
    Ok(restored)
}

#[test]
fn a_restored_version_is_found_again(rt: HostRuntime) -> Result<(), Fail> {
    for row in ROWS {
        assert!(rt; is_found_again(&rt, rt.alloc(), row)?, "of {}", row.line);
    }
    Ok(())
}

// Words and their input over a new store, and side B after them. Side A is unchanged.
const FILES: &[(&str, Parts, File)] = &[
    (
        "restore 18446744073709551614 6e340b9cffb37a989ca544e6bb780a2c78901d3fb33738768511a30617afa01d",
        &[],
        &[IMPORTED, END],
    ),
    (RESTORE_PAIR, &[FIRST_BLOCK, SECOND_BLOCK], &[RESTORED, END]),
];

// Whether side A has the checkpoint of a new store, and side B these records.
fn has_files(alloc: Global, disk: &MemDisk, b: File) -> Result<bool, Fail> {
    let a = file_bytes(alloc, &[CHECKPOINT, END])?;
    let b = file_bytes(alloc, b)?;
    Ok(disk.bytes(Side::A) == a.as_slice() && disk.bytes(Side::B) == b.as_slice())
}

fn leaves_checkpoint<H: Threads + Wait + Sync>(
    rt: &H,
    alloc: Global,
    row: &(&str, Parts, File),
) -> Result<bool, Fail> {
    let played = play_of_parts(rt, alloc, row.0, row.1, NO_FAULTS)?;
    has_files(alloc, &played.disk, row.2)
}

#[test]
fn a_restored_version_is_one_checkpoint(rt: HostRuntime) -> Result<(), Fail> {
    for row in FILES {
        assert!(rt; leaves_checkpoint(&rt, rt.alloc(), row)?, "of {}", row.0);
    }
    Ok(())
}

// The most bytes that the source gives in a call.
const PIECES: &[usize] = &[1, 11, 4096, 65_536];

// Whether both entries are restored from pieces of this length, to the same text and the same files.
fn pieces_change_nothing<H: Threads + Wait + Sync>(
    rt: &H,
    alloc: Global,
    piece: usize,
) -> Result<bool, Fail> {
    let faults = Faults { piece, ..NO_FAULTS };
    let played = play_of_parts(
        rt,
        alloc,
        RESTORE_PAIR,
        &[FIRST_BLOCK, SECOND_BLOCK],
        faults,
    )?;
    let restored = is_restored(alloc, &played, "restored 1 P 2\n")?;
    Ok(restored && has_files(alloc, &played.disk, &[RESTORED, END])?)
}

#[test]
fn the_pieces_of_an_input_change_nothing(rt: HostRuntime) -> Result<(), Fail> {
    for piece in PIECES {
        assert!(rt;
            pieces_change_nothing(&rt, rt.alloc(), *piece)?,
            "of {piece}"
        );
    }
    Ok(())
}
