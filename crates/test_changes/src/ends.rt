// A source or a sink that fails in a call: the run ends, a front of the replies is written, and the files have the entries made.
use crate::script::{REPLIES, SCRIPT, are_replies, is_between, lines_in, run_script, state_after};
use jf_disk::MemDisk;
use jf_play::play::{Faults, Played, has_ended};
use jf_run::status::Status;
use std::alloc::Global;
use std::sync::Wait;
use std::test::Fail;
use std::thread::Threads;

// The most bytes that the source gives in a call.
const PIECE: usize = 11;

// The script has 87 bytes, so that the source is asked eight times for them, and then for what isn't there.
const TAKES: usize = 9;

// The replies have 399 bytes, of which a call of the sink takes 7 at most, so that it is asked at least this often, and less
// often than `MOST` says.
const PUTS: usize = 57;

const MOST: usize = 69;

// Calls of the source or of the sink, of which one fails at a time.
const CALLS: &[u64] = &[
    0, 1, 2, 3, 4, 5, 6, 7, 8, 9, 10, 11, 12, 13, 14, 15, 16, 17, 18, 19, 20, 21, 22, 23, 24, 25,
    26, 27, 28, 29, 30, 31, 32, 33, 34, 35, 36, 37, 38, 39, 40, 41, 42, 43, 44, 45, 46, 47, 48, 49,
    50, 51, 52, 53, 54, 55, 56, 57, 58, 59, 60, 61, 62, 63, 64, 65, 66, 67, 68, 69,
];

// The list of this call alone.
fn call(number: usize) -> &'static [u64] {
    CALLS.chunks(1).nth(number).unwrap_or(&[])
}

// Fails unless the files of a run have its entries.
fn has_entries<H: Threads + Wait + Sync>(
    rt: &H,
    alloc: Global,
    played: Played<MemDisk>,
) -> Result<(), Fail> {
    let state = state_after(played.entries);
    is_between(rt, alloc, played.disk, (state, state))
}

// How many lines end in the bytes that the source gives before this call.
fn lines_before(call: usize) -> usize {
    match SCRIPT.get(..call.saturating_mul(PIECE)) {
        Some(taken) => lines_in(taken),
        None => lines_in(SCRIPT),
    }
}

// Whether a run ended at a fault of its source, and answered so many lines.
fn is_unread(played: &Played<MemDisk>, lines: usize) -> bool {
    let ended = played.status == Status::ReadFault && played.start == Some(0);
    ended && are_replies(&played.text, lines)
}

// Fails unless a run whose source fails in this call answers the lines before and no other.
fn answers_lines_before<H: Threads + Wait + Sync>(
    rt: &H,
    alloc: Global,
    number: usize,
) -> Result<(), Fail> {
    let faults = Faults {
        piece: PIECE,
        source: call(number),
        sink: &[],
    };
    let played = run_script(rt, alloc, &[], faults)?;
    if is_unread(&played, lines_before(number)) {
        has_entries(rt, alloc, played)
    } else {
        Err(Fail::new(number))
    }
}

#[test]
fn a_source_that_fails_leaves_the_replies_to_the_lines_before(rt: HostRuntime) -> Result<(), Fail> {
    for number in 0..TAKES {
        answers_lines_before(&rt, rt.alloc(), number)?;
    }
    Ok(())
}

// Whether a run ended at a fault of its sink with a front of the replies, or, if this call may not be made, with all of them.
fn is_written(played: &Played<MemDisk>, number: usize) -> bool {
    let front = REPLIES.starts_with(&played.text) && played.text.len() < REPLIES.len();
    let cut = front && played.status == Status::WriteFault;
    let whole = has_ended(played, Status::Done, Some(0), REPLIES);
    cut && number < MOST || whole && number >= PUTS
}

// Fails unless a run whose sink fails in this call writes a front of the replies, if the call is made.
fn writes_front<H: Threads + Wait + Sync>(
    rt: &H,
    alloc: Global,
    number: usize,
) -> Result<(), Fail> {
    let faults = Faults {
        piece: PIECE,
        source: &[],
        sink: call(number),
    };
    let played = run_script(rt, alloc, &[], faults)?;
    if is_written(&played, number) {
        has_entries(rt, alloc, played)
    } else {
        Err(Fail::new(number))
    }
}

#[test]
fn a_sink_that_fails_leaves_a_front_of_the_replies(rt: HostRuntime) -> Result<(), Fail> {
    for number in 0..MOST + 1 {
        writes_front(&rt, rt.alloc(), number)?;
    }
    Ok(())
}
