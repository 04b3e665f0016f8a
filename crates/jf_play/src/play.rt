// A run of a command line's words over a disk, and what it wrote.
use crate::roots::with_roots;
use jf_disk::{Disk, MemDisk, Side};
use jf_io::{MemSink, MemSource};
use jf_join::{FreeGate, Gate};
use jf_path::Bytes;
use jf_run::run_words::run_words;
use jf_run::status::{Ended, Status};
use std::alloc::Global;
use std::sync::Wait;
use std::test::Fail;
use std::thread::Threads;

/// What a run returned: its disk, the text that it wrote, its status, the version at opening if a store was opened, and
/// how many entries it made.
#[derive(Drop)]
pub struct Played<D> {
    pub disk: Box<D>,
    pub text: Vec<u8>,
    pub status: Status,
    pub start: Option<u64>,
    pub entries: u64,
}

/// The most bytes that the source gives in a call, and the numbers, from 0, of the calls of the source and of the sink
/// that fail.
#[derive(Clone, Copy)]
pub struct Faults {
    pub piece: usize,
    pub source: &'static [u64],
    pub sink: &'static [u64],
}

/// Pieces of 100 bytes, and no call fails.
pub const NO_FAULTS: Faults = Faults {
    piece: 100,
    source: &[],
    sink: &[],
};

/// The first call of the source fails: no input is read.
pub const NO_INPUT: Faults = Faults {
    piece: 100,
    source: &[0],
    sink: &[],
};

/// The first call of the sink fails: nothing is written.
pub const NO_OUTPUT: Faults = Faults {
    piece: 100,
    source: &[],
    sink: &[0],
};

/// A disk in memory whose sides hold `a` and `b`. The calls whose numbers, from 0, are in `failing` fail.
pub fn disk_of(alloc: Global, a: &[u8], b: &[u8], failing: &[u64]) -> Result<Box<MemDisk>, Fail> {
    let disk = MemDisk::new(
        alloc,
        a.to_vec(alloc)?,
        b.to_vec(alloc)?,
        1000,
        200_000,
        failing.to_vec(alloc)?,
    )?;
    Ok(Box::new(alloc, disk)?)
}

/// A disk in memory whose side A holds `a`, and whose side B is empty. The calls whose numbers are in `failing` fail.
pub fn new_disk(alloc: Global, a: &[u8], failing: &[u64]) -> Result<Box<MemDisk>, Fail> {
    disk_of(alloc, a, b"", failing)
}

/// An empty disk in memory with room for landings of thousands of keys.
pub fn roomy_disk(alloc: Global) -> Result<Box<MemDisk>, Fail> {
    let empty = || Vec::new(alloc);
    let disk = MemDisk::new(alloc, empty(), empty(), 1000, 3_000_000, Vec::new(alloc))?;
    Ok(Box::new(alloc, disk)?)
}

/// A source of the script, with the pieces and failing calls of `faults`.
pub fn new_source(alloc: Global, script: &[u8], faults: Faults) -> Result<Box<MemSource>, Fail> {
    let source = MemSource::new(
        Bytes::copy_of(alloc, script)?,
        faults.piece.max(1),
        faults.source.to_vec(alloc)?,
    );
    Ok(Box::new(alloc, source)?)
}

/// A sink that takes at most 7 bytes in a call, with the failing calls of `faults`.
pub fn new_sink(alloc: Global, faults: Faults) -> Result<Box<MemSink>, Fail> {
    let sink = MemSink::new(alloc, 7, 200_000, faults.sink.to_vec(alloc)?)?;
    Ok(Box::new(alloc, sink)?)
}

/// A list of this one word.
pub fn one_word(alloc: Global, word: &str) -> Result<Vec<String>, Fail> {
    Ok(vec![in alloc; String::from_str(alloc, word)?]?)
}

/// The words of a line, which has one space between each two.
pub fn words_of(alloc: Global, line: &str) -> Result<Vec<String>, Fail> {
    let mut words = Vec::new(alloc);
    for word in line.split(' ') {
        words.push(String::from_str(alloc, word)?)?;
    }
    Ok(words)
}

/// Runs the words over a disk, a source and a sink. The gate is notified of each piece of work.
pub fn run_gated<D: Disk + Drop, H: Threads + Wait + Sync, G: Gate>(
    rt: &H,
    alloc: Global,
    disk: Box<D>,
    words: &[String],
    source: &mut MemSource,
    sink: &mut MemSink,
    gate: &G,
) -> Result<Box<Ended<D>>, Fail> {
    let ended = run_words(rt, alloc, words, source, sink, Box::into_inner(disk), gate);
    Ok(Box::new(alloc, ended)?)
}

/// Runs the words over a disk, a source and a sink, with a gate that holds nothing back.
pub fn run_over<D: Disk + Drop, H: Threads + Wait + Sync>(
    rt: &H,
    alloc: Global,
    disk: Box<D>,
    words: &[String],
    source: &mut MemSource,
    sink: &mut MemSink,
) -> Result<Box<Ended<D>>, Fail> {
    run_gated(rt, alloc, disk, words, source, sink, &FreeGate)
}

fn played_of<D: Disk + Drop>(
    alloc: Global,
    ended: Box<Ended<D>>,
    text: Vec<u8>,
) -> Result<Played<D>, Fail> {
    let Ended {
        status,
        disk,
        entries,
        start,
        memory: _,
    } = Box::into_inner(ended);
    Ok(Played {
        disk: Box::new(alloc, disk)?,
        text,
        status,
        start,
        entries: entries.len(),
    })
}

/// Runs the words over a disk and a script, and returns what was written.
pub fn play_words<D: Disk + Drop, H: Threads + Wait + Sync>(
    rt: &H,
    alloc: Global,
    disk: Box<D>,
    words: &[String],
    script: &[u8],
    faults: Faults,
) -> Result<Played<D>, Fail> {
    let mut source = new_source(alloc, script, faults)?;
    let mut sink = new_sink(alloc, faults)?;
    let ended = run_over(rt, alloc, disk, words, &mut source, &mut sink)?;
    played_of(alloc, ended, sink.text().to_vec(alloc)?)
}

/// Runs the words over a disk and a script with no faults, and returns what was written. The gate is notified of each piece
/// of work.
pub fn play_gated<D: Disk + Drop, H: Threads + Wait + Sync, G: Gate>(
    rt: &H,
    alloc: Global,
    disk: Box<D>,
    words: &[String],
    script: &[u8],
    gate: &G,
) -> Result<Played<D>, Fail> {
    let mut source = new_source(alloc, script, NO_FAULTS)?;
    let mut sink = new_sink(alloc, NO_FAULTS)?;
    let ended = run_gated(rt, alloc, disk, words, &mut source, &mut sink, gate)?;
    played_of(alloc, ended, sink.text().to_vec(alloc)?)
}

/// Runs the words of a line over a disk and an input.
pub fn play_line<D: Disk + Drop, H: Threads + Wait + Sync>(
    rt: &H,
    alloc: Global,
    disk: Box<D>,
    line: &str,
    input: &[u8],
    faults: Faults,
) -> Result<Played<D>, Fail> {
    let words = words_of(alloc, line)?;
    play_words(rt, alloc, disk, &words, input, faults)
}

/// Runs one word over a disk and a script.
pub fn play<D: Disk + Drop, H: Threads + Wait + Sync>(
    rt: &H,
    alloc: Global,
    disk: Box<D>,
    word: &str,
    script: &[u8],
    faults: Faults,
) -> Result<Played<D>, Fail> {
    let words = one_word(alloc, word)?;
    play_words(rt, alloc, disk, &words, script, faults)
}

/// Runs a script over a new store, and then the words of a line over what it left and an input.
pub fn play_after<H: Threads + Wait + Sync>(
    rt: &H,
    alloc: Global,
    script: &str,
    line: &str,
    input: &[u8],
    faults: Faults,
) -> Result<Played<MemDisk>, Fail> {
    let disk = roomy_disk(alloc)?;
    let first = play(rt, alloc, disk, "run", script.as_bytes(), NO_FAULTS)?;
    play_line(rt, alloc, first.disk, line, input, faults)
}

/// Whether a run ended with this status, opened the store at version `start` (`None`: opened no store), and wrote this
/// text.
pub fn has_ended<D>(played: &Played<D>, status: Status, start: Option<u64>, text: &[u8]) -> bool {
    played.status == status && played.start == start && played.text.as_slice() == text
}

/// Whether two runs ended well, wrote the same text and left the same bytes.
pub fn are_same(one: &Played<MemDisk>, other: &Played<MemDisk>) -> bool {
    let done = one.status == Status::Done && other.status == Status::Done;
    let sides = one.disk.bytes(Side::A) == other.disk.bytes(Side::A)
        && one.disk.bytes(Side::B) == other.disk.bytes(Side::B);
    done && sides && one.text.as_slice() == other.text.as_slice()
}

/// Runs a script over a disk, and returns the disk. Fails unless the run ends well, opens the store at version `opened`
/// and writes the text `want`.
pub fn answers<D: Disk + Drop, H: Threads + Wait + Sync>(
    rt: &H,
    alloc: Global,
    disk: Box<D>,
    script: &[u8],
    opened: u64,
    want: &[u8],
) -> Result<Box<D>, Fail> {
    let played = play(rt, alloc, disk, "run", script, NO_FAULTS)?;
    if !has_ended(&played, Status::Done, Some(opened), want) {
        return Err(Fail::new("another reply"));
    }
    Ok(played.disk)
}

/// Runs a script over a new disk. Fails unless the run ends well and writes the text `want`.
pub fn is_answered<H: Threads + Wait + Sync>(
    rt: &H,
    alloc: Global,
    script: &[u8],
    want: &[u8],
) -> Result<(), Fail> {
    let disk = new_disk(alloc, b"", &[])?;
    let _ = answers(rt, alloc, disk, script, 0, want)?;
    Ok(())
}

/// Runs a script over a new disk, as `is_answered` does, with letters for the roots in `want`.
pub fn is_answered_by<H: Threads + Wait + Sync>(
    rt: &H,
    alloc: Global,
    script: &str,
    want: &str,
) -> Result<(), Fail> {
    let want = with_roots(alloc, want)?;
    is_answered(rt, alloc, script.as_bytes(), &want)
}

/// Whether a run of a script over a new disk ends well and writes the text `want`, with letters for the roots in it.
pub fn tells<H: Threads + Wait + Sync>(
    rt: &H,
    alloc: Global,
    script: &str,
    want: &str,
) -> Result<bool, Fail> {
    let want = with_roots(alloc, want)?;
    let disk = new_disk(alloc, b"", &[])?;
    let played = play(rt, alloc, disk, "run", script.as_bytes(), NO_FAULTS)?;
    Ok(has_ended(&played, Status::Done, Some(0), &want))
}
