// Inputs that are followed to their end. Keys and roots are by Python's `hashlib`.
use crate::samples::{FIRST, RESTORE, RESTORE_LAST, Runs, THREE, disk_after};
use jf_disk::MemDisk;
use jf_play::play::{Faults, NO_FAULTS, NO_INPUT, answers, has_ended, play_line};
use jf_play::roots::with_roots;
use jf_run::status::Status;
use std::alloc::Global;
use std::sync::Wait;
use std::test::Fail;
use std::thread::Threads;

// Runs that come before, words and an input over what they left; at which version that opens the store, how many landings it
// makes, what is written, and what a later run says of the roots of version 1 and of the head. In the texts letters
// represent roots, as in `with_roots`.
struct Row {
    before: Runs,
    words: &'static str,
    input: &'static [u8],
    start: u64,
    landings: u64,
    output: &'static str,
    roots: &'static str,
}

const NEW: Runs = &[];

const ROWS: &[Row] = &[
    Row {
        before: NEW,
        words: "follow",
        input: FIRST,
        start: 0,
        landings: 1,
        output: "followed 1 R\n",
        roots: "0 ok root R\n0 ok root R\n",
    },
    // The same again, over what it left.
    Row {
        before: &[("follow", FIRST)],
        words: "follow",
        input: FIRST,
        start: 1,
        landings: 0,
        output: "followed 1 R\n",
        roots: "0 ok root R\n0 ok root R\n",
    },
    Row {
        before: NEW,
        words: "follow --workers 7",
        input: THREE,
        start: 0,
        landings: 3,
        output: "followed 3 T\n",
        roots: "0 ok root R\n0 ok root T\n",
    },
    // A follower catches up from the whole text, or from a part of it that it lacks.
    Row {
        before: &[("follow", FIRST)],
        words: "follow --workers=1",
        input: THREE,
        start: 1,
        landings: 2,
        output: "followed 3 T\n",
        roots: "0 ok root R\n0 ok root T\n",
    },
    Row {
        before: &[("run", b"put 61 =31\ncommit\nput 61 =32\ncommit\n")],
        words: "follow --",
        input: b"landing 3 eefcf9b105d7d02e5a1d9bff2664e0ca9b96376d452f31b6091710fa35852ef1 1\n\
            put 6fe4ff1a836fcb881bbe03ff848bb731a5584708153d9bc6dc1d6430579a6a12 =33",
        start: 2,
        landings: 1,
        output: "followed 3 T\n",
        roots: "0 ok root R\n0 ok root T\n",
    },
    // Nothing, over a new store and over another one.
    Row {
        before: NEW,
        words: "follow",
        input: b"",
        start: 0,
        landings: 0,
        output: "followed 0 E\n",
        roots: "0 no future 0\n0 ok root E\n",
    },
    Row {
        before: &[("follow", FIRST)],
        words: "follow",
        input: b"",
        start: 1,
        landings: 0,
        output: "followed 1 R\n",
        roots: "0 ok root R\n0 ok root R\n",
    },
    // A block that comes twice, another batch for a version that is there, the root of version 0, and a batch of nothing.
    Row {
        before: NEW,
        words: "follow",
        input: b"landing 1 9bb72c39f13d2b512ea34eae99a28f6d807a134ab125e89172310c6f6ea72f8f 1\n\
            put 19d5f57c8e8b3cd760f853bb8d7900d68e10ef02674383de65a9b4d65e419b26 =31\n\
            landing 1 9bb72c39f13d2b512ea34eae99a28f6d807a134ab125e89172310c6f6ea72f8f 1\n\
            put 19d5f57c8e8b3cd760f853bb8d7900d68e10ef02674383de65a9b4d65e419b26 =31\n\
            landing 1 9bb72c39f13d2b512ea34eae99a28f6d807a134ab125e89172310c6f6ea72f8f 1\n\
            del 6fe4ff1a836fcb881bbe03ff848bb731a5584708153d9bc6dc1d6430579a6a12\n\
            landing 0 6e340b9cffb37a989ca544e6bb780a2c78901d3fb33738768511a30617afa01d 0\n\
            landing 2 9bb72c39f13d2b512ea34eae99a28f6d807a134ab125e89172310c6f6ea72f8f 0\n",
        start: 0,
        landings: 2,
        output: "followed 2 R\n",
        roots: "0 ok root R\n0 ok root R\n",
    },
    // A removal.
    Row {
        before: &[("follow", FIRST)],
        words: "follow",
        input: b"landing 2 6e340b9cffb37a989ca544e6bb780a2c78901d3fb33738768511a30617afa01d 2\n\
            del 19d5f57c8e8b3cd760f853bb8d7900d68e10ef02674383de65a9b4d65e419b26\n\
            del 6fe4ff1a836fcb881bbe03ff848bb731a5584708153d9bc6dc1d6430579a6a12\n",
        start: 1,
        landings: 1,
        output: "followed 2 E\n",
        roots: "0 ok root R\n0 ok root E\n",
    },
    // The roots of versions that were pruned are still there.
    Row {
        before: &[(
            "run",
            b"put 61 =31\ncommit\nput 61 =32\ncommit\nprune 2\ncompact\n",
        )],
        words: "follow",
        input: THREE,
        start: 2,
        landings: 1,
        output: "followed 3 T\n",
        roots: "0 no retired 2\n0 ok root T\n",
    },
    // From a restored version on.
    Row {
        before: &[RESTORE],
        words: "follow",
        input: b"landing 1 3e92b77a6f4a7dcc426f134b3415f3af7eb39e5c8ac7599c94f5a3c83fe07425 0\n\
            landing 2 c3e41b40c8ba505813fe5d14d2f0fb281ef050bcd864b214c98564746236623d 1\n\
            put 6fe4ff1a836fcb881bbe03ff848bb731a5584708153d9bc6dc1d6430579a6a12 =33\n",
        start: 1,
        landings: 1,
        output: "followed 2 Q\n",
        roots: "0 ok root P\n0 ok root Q\n",
    },
    // The last version that there can be.
    Row {
        before: &[RESTORE_LAST],
        words: "follow",
        input: b"landing 18446744073709551614 6e340b9cffb37a989ca544e6bb780a2c78901d3fb33738768511a30617afa01d 0\n",
        start: 18_446_744_073_709_551_614,
        landings: 0,
        output: "followed 18446744073709551614 E\n",
        roots: "0 no retired 18446744073709551614\n0 ok root E\n",
    },
];

// The most bytes that the source gives in a call.
const PIECES: &[usize] = &[1, 80, 65_536];

// Fails unless a later run over a disk has this head, and says this of the roots of version 1 and of the head.
fn has_roots<H: Threads + Wait + Sync>(
    rt: &H,
    alloc: Global,
    disk: Box<MemDisk>,
    head: u64,
    roots: &str,
) -> Result<(), Fail> {
    let want = with_roots(alloc, roots)?;
    let _ = answers(rt, alloc, disk, b"root v1\nroot head\n", head, &want)?;
    Ok(())
}

// Whether a row's input is followed so, given in pieces of this length.
fn is_followed<H: Threads + Wait + Sync>(
    rt: &H,
    alloc: Global,
    row: &Row,
    piece: usize,
) -> Result<bool, Fail> {
    let disk = disk_after(rt, alloc, row.before)?;
    let faults = Faults { piece, ..NO_FAULTS };
    let played = play_line(rt, alloc, disk, row.words, row.input, faults)?;
    let output = with_roots(alloc, row.output)?;
    let ended = has_ended(&played, Status::Done, Some(row.start), &output);
    let as_expected = ended && played.entries == row.landings;
    let head = row.start.saturating_add(row.landings);
    has_roots(rt, alloc, played.disk, head, row.roots)?;
    Ok(as_expected)
}

#[test]
fn blocks_are_landed_once_and_the_newest_version_is_told(rt: HostRuntime) -> Result<(), Fail> {
    for (number, row) in ROWS.iter().enumerate() {
        for piece in PIECES {
            assert!(rt; is_followed(&rt, rt.alloc(), row, *piece)?, "of {number}");
        }
    }
    Ok(())
}

// Words that aren't taken.
const OTHER_WORDS: &[&str] = &[
    "follow 1",
    "follow lead",
    "follow --workers 65",
    "follow --workers",
    "followed",
];

// Whether the program doesn't take these words.
fn is_not_taken<H: Threads + Wait + Sync>(
    rt: &H,
    alloc: Global,
    words: &str,
) -> Result<bool, Fail> {
    let disk = disk_after(rt, alloc, NEW)?;
    let played = play_line(rt, alloc, disk, words, b"", NO_INPUT)?;
    Ok(has_ended(&played, Status::Usage, None, b""))
}

#[test]
fn follow_takes_the_number_of_workers_alone(rt: HostRuntime) -> Result<(), Fail> {
    for words in OTHER_WORDS {
        assert!(rt; is_not_taken(&rt, rt.alloc(), words)?, "of {words}");
    }
    Ok(())
}
