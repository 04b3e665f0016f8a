// A source or a sink that fails in a call of a restore, or of a generated script: how the run ends, what it wrote, and what
// the files hold.
use crate::images::{Found, NEW, RESTORED, shows_either};
use jf_disk::{MemDisk, Side};
use jf_play::blocks::{FIRST_BLOCK, Parts, RESTORE_PAIR, SECOND_BLOCK, play_of_parts};
use jf_play::play::{Faults, NO_FAULTS, Played, has_ended};
use jf_play::roots::with_roots;
use jf_run::status::Status;
use std::alloc::Global;
use std::sync::Wait;
use std::test::Fail;
use std::thread::Threads;

// The two entries of `RESTORE_PAIR`, in 394 bytes.
const BLOCKS: Parts = &[FIRST_BLOCK, SECOND_BLOCK];

// A call of the source that fails, from 0. It gives 100 bytes in a call, so that it is asked four times for the blocks, and
// then for what isn't there.
const TAKES: &[&[u64]] = &[&[0], &[1], &[2], &[3], &[4]];

// Whether a run whose source failed wrote nothing, and wrote no record either.
fn has_read_fault(played: &Played<MemDisk>) -> bool {
    let ended = has_ended(played, Status::ReadFault, Some(0), b"");
    ended && played.entries == 0 && played.disk.bytes(Side::B).is_empty()
}

// Whether a restore whose source fails in this call leaves a new store.
fn leaves_new<H: Threads + Wait + Sync>(
    rt: &H,
    alloc: Global,
    source: &'static [u64],
) -> Result<bool, Fail> {
    let faults = Faults {
        source,
        ..NO_FAULTS
    };
    let played = play_of_parts(rt, alloc, RESTORE_PAIR, BLOCKS, faults)?;
    let ended = has_read_fault(&played);
    Ok(ended && shows_either(rt, alloc, played.disk, (NEW, NEW))?)
}

#[test]
fn a_source_that_fails_leaves_a_new_store(rt: HostRuntime) -> Result<(), Fail> {
    for source in TAKES {
        assert!(rt; leaves_new(&rt, rt.alloc(), source)?);
    }
    Ok(())
}

// Words and their input, a call of the sink that fails, from 0, and what is written: the sink takes 7 bytes in a call. Then
// what the files hold. In the texts letters represent roots, as in `with_roots`.
struct Row {
    line: &'static str,
    input: Parts,
    sink: &'static [u64],
    text: &'static [u8],
    found: Found,
}

const ROWS: &[Row] = &[
    Row {
        line: RESTORE_PAIR,
        input: BLOCKS,
        sink: &[0],
        text: b"",
        found: RESTORED,
    },
    Row {
        line: RESTORE_PAIR,
        input: BLOCKS,
        sink: &[1],
        text: b"restore",
        found: RESTORED,
    },
    Row {
        line: RESTORE_PAIR,
        input: BLOCKS,
        sink: &[2],
        text: b"restored 1 3e9",
        found: RESTORED,
    },
    // All but the line feed.
    Row {
        line: RESTORE_PAIR,
        input: BLOCKS,
        sink: &[11],
        text: b"restored 1 3e92b77a6f4a7dcc426f134b3415f3af7eb39e5c8ac7599c94f5a3c83fe07425 2",
        found: RESTORED,
    },
    Row {
        line: "generate 1 1 1",
        input: &[],
        sink: &[0],
        text: b"",
        found: GENERATED,
    },
    Row {
        line: "generate 1 1 1",
        input: &[],
        sink: &[2],
        text: b"refused 0\n1 ok",
        found: GENERATED,
    },
];

// The version that `generate 1 1 1` makes.
const GENERATED: Found = (
    1,
    "13201471d2abbc6bfd0479ef5a9fb337f40da1b8a8956ac886b54f9d1cca8031",
);

// Whether a run whose sink fails writes a front of its text, and the files hold all the same what it was to make.
fn makes_it_all_the_same<H: Threads + Wait + Sync>(
    rt: &H,
    alloc: Global,
    row: &Row,
) -> Result<bool, Fail> {
    let faults = Faults {
        sink: row.sink,
        ..NO_FAULTS
    };
    let played = play_of_parts(rt, alloc, row.line, row.input, faults)?;
    let ended = has_ended(&played, Status::WriteFault, Some(0), row.text);
    Ok(ended && shows_either(rt, alloc, played.disk, (row.found, row.found))?)
}

#[test]
fn a_sink_that_fails_changes_nothing_in_the_files(rt: HostRuntime) -> Result<(), Fail> {
    for row in ROWS {
        assert!(rt;
            makes_it_all_the_same(&rt, rt.alloc(), row)?,
            "of {}",
            row.line
        );
    }
    Ok(())
}

// One call more than are made: no call fails.
const PAST_THE_END: Faults = Faults {
    piece: 100,
    source: &[5],
    sink: &[12],
};

#[test]
fn no_call_comes_after_these(rt: HostRuntime) -> Result<(), Fail> {
    let alloc = rt.alloc();
    let want = with_roots(alloc, "restored 1 P 2\n")?;
    let played = play_of_parts(&rt, alloc, RESTORE_PAIR, BLOCKS, PAST_THE_END)?;
    assert!(rt; has_ended(&played, Status::Done, Some(0), &want));
    Ok(())
}
