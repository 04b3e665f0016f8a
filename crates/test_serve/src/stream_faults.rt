// A source or a sink that fails in a call: how two sessions end, what they write, and what the files hold.
use crate::serving::serve;
use jf_disk::MemDisk;
use jf_play::play::{Faults, NO_FAULTS, Played, has_ended, play};
use jf_run::status::Status;
use std::alloc::Global;
use std::sync::Wait;
use std::test::Fail;
use std::thread::Threads;

// One session lands a version. The lines of the other ask nothing of the store, so that the text is one.
const INPUT: &[u8] = b"commit\nsession\nput 63 =33\nget p0 61\n";

// The text, with the root of the empty map.
const TEXT: &[u8] = b"session\n\
    1 ok commit 1 6e340b9cffb37a989ca544e6bb780a2c78901d3fb33738768511a30617afa01d\n\
    session\n\
    0 ok pending 1\n\
    0 no nopin\n\
    ledger 1\n\
    landed 0 1 6e340b9cffb37a989ca544e6bb780a2c78901d3fb33738768511a30617afa01d head\n";

// The input has 36 bytes, so that the source, which gives 11 in a call, is asked four times for them, and then for what isn't
// there.
const PIECE: usize = 11;

const TAKES: usize = 5;

// The text has 211 bytes, so that the sink, which takes 7 in a call, is asked at least this often. It may be asked more often.
const PUTS: usize = 31;

// Calls of the source or of the sink, of which one fails at a time.
const CALLS: &[u64] = &[
    0, 1, 2, 3, 4, 5, 6, 7, 8, 9, 10, 11, 12, 13, 14, 15, 16, 17, 18, 19, 20, 21, 22, 23, 24, 25,
    26, 27, 28, 29, 30, 31, 32, 33, 34, 35, 36, 37, 38, 39, 40, 41, 42, 43, 44, 45, 46, 47,
];

// Whether a run ended as it must: no line is answered if a call of the source fails, and all are if a call of the sink does.
fn ends_well(played: &Played<MemDisk>) -> bool {
    let front = TEXT.starts_with(&played.text) && played.text.len() < TEXT.len();
    match played.status {
        Status::ReadFault => played.text.is_empty() && played.entries == 0,
        Status::WriteFault => front && played.entries == 1,
        Status::Done => played.text.as_slice() == TEXT && played.entries == 1,
        _ => false,
    }
}

// Fails unless a later run opens the store at this version.
fn has_version<H: Threads + Wait + Sync>(
    rt: &H,
    alloc: Global,
    disk: Box<MemDisk>,
    version: u64,
) -> Result<(), Fail> {
    let opened = play(rt, alloc, disk, "run", b"", NO_FAULTS)?;
    if has_ended(&opened, Status::Done, Some(version), b"") {
        Ok(())
    } else {
        Err(Fail::new("the files have another version"))
    }
}

// How a run with these faults ends. Fails if it ends otherwise than it must, or if its entries aren't those in the files.
fn end_of<H: Threads + Wait + Sync>(rt: &H, alloc: Global, faults: Faults) -> Result<Status, Fail> {
    let played = serve(rt, alloc, INPUT, faults)?;
    if !ends_well(&played) {
        return Err(Fail::new("the run ends otherwise"));
    }
    let status = played.status;
    has_version(rt, alloc, played.disk, played.entries)?;
    Ok(status)
}

// The faults of a source that fails in this call, and those of a sink.
fn of_source(number: usize) -> Faults {
    Faults {
        piece: PIECE,
        source: CALLS.chunks(1).nth(number).unwrap_or(&[]),
        sink: &[],
    }
}

fn of_sink(number: usize) -> Faults {
    Faults {
        piece: PIECE,
        source: &[],
        sink: CALLS.chunks(1).nth(number).unwrap_or(&[]),
    }
}

// Fails unless a run ends as it must whose source fails in this call, and one whose sink does.
fn are_stopped<H: Threads + Wait + Sync>(rt: &H, alloc: Global, number: usize) -> Result<(), Fail> {
    let taking = end_of(rt, alloc, of_source(number))?;
    let putting = end_of(rt, alloc, of_sink(number))?;
    let unread = taking == Status::ReadFault;
    if unread == (number < TAKES) && (putting == Status::WriteFault || number >= PUTS) {
        Ok(())
    } else {
        Err(Fail::new(number))
    }
}

#[test]
fn a_failed_call_ends_the_run_before_its_first_line_or_cuts_the_text(
    rt: HostRuntime,
) -> Result<(), Fail> {
    for number in 0..48 {
        are_stopped(&rt, rt.alloc(), number)?;
    }
    Ok(())
}
