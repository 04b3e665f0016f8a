// How much of an input a refused restore takes: little after the line that decides it.
use jf_io::{MemSource, Source};
use jf_play::blocks::{FIRST_BLOCK, Parts, RESTORE_PAIR, SECOND_BLOCK};
use jf_play::files::bytes_of;
use jf_play::play::{Faults, NO_FAULTS, new_disk, new_sink, new_source, run_over, words_of};
use jf_run::status::Status;
use std::alloc::Global;
use std::sync::Wait;
use std::test::Fail;
use std::thread::Threads;

// Inputs of `RESTORE_PAIR` that are refused at their last line.
const INPUTS: &[Parts] = &[
    &[b"chunk 1001 0 0\n"],
    &[FIRST_BLOCK, b"chunk 0 0\n"],
    &[SECOND_BLOCK],
    &[FIRST_BLOCK, FIRST_BLOCK],
    &[FIRST_BLOCK, b"chunk 0 0 0\n"],
];

// The source gives all that it is asked for.
const WHOLE: Faults = Faults {
    piece: 1_000_000,
    source: &[],
    sink: &[],
};

// A source of the input, and of 100,000 bytes after it.
fn with_more(alloc: Global, input: Parts) -> Result<Box<MemSource>, Fail> {
    let mut text = bytes_of(alloc, input)?;
    for _ in 0..1000 {
        text.extend_from_slice(&[b'x'; 100])?;
    }
    new_source(alloc, &text, WHOLE)
}

// Restores the pair from a source into a new store, and returns whether it was refused.
fn is_refused<H: Threads + Wait + Sync>(
    rt: &H,
    alloc: Global,
    source: &mut MemSource,
) -> Result<bool, Fail> {
    let words = words_of(alloc, RESTORE_PAIR)?;
    let mut sink = new_sink(alloc, NO_FAULTS)?;
    let disk = new_disk(alloc, b"", &[])?;
    let ended = run_over(rt, alloc, disk, &words, source, &mut sink)?;
    Ok(matches!(ended.status, Status::Refused(_)))
}

// Whether a restore from this input and what comes after it is refused, and takes fewer than 4,096 bytes more.
fn takes_little_more<H: Threads + Wait + Sync>(
    rt: &H,
    alloc: Global,
    input: Parts,
) -> Result<bool, Fail> {
    let end = bytes_of(alloc, input)?.len() as u64;
    let mut source = with_more(alloc, input)?;
    let refused = is_refused(rt, alloc, &mut source)?;
    Ok(refused && source.taken_count() < end.saturating_add(4096))
}

#[test]
fn little_is_taken_after_the_line_that_decides(rt: HostRuntime) -> Result<(), Fail> {
    for (number, input) in INPUTS.iter().enumerate() {
        assert!(rt; takes_little_more(&rt, rt.alloc(), *input)?, "of {number}");
    }
    Ok(())
}
