// Many versions of a large state: 100,000 entries, and then 3,000 commits of one name over them; at the end the name is
// read at version 10 and at the head, and the nodes are counted. No version copies the map: 3,000 copies of 100,000 entries of 40 bytes would take 12 GB.
use jf_disk::MemDisk;
use jf_io::{MemSink, MemSource};
use jf_path::Bytes;
use jf_play::play::{one_word, run_over};
use jf_run::status::{Ended, Status};
use std::alloc::Global;
use std::sync::Wait;
use std::test::Fail;
use std::thread::Threads;

// How many names are put at first, with empty values.
const NAMES: u32 = 100_000;

// How many of them a commit lands.
const BATCH: u32 = 10_000;

// How often the last name is put with each of two values in turn.
const ROUNDS: u32 = 1_500;

// A round, which makes two versions.
const ROUND: &[u8] = b"put 61 =30\ncommit\nput 61 =31\ncommit\n";

// The last lines, and the replies to them. The root is that of the map of the 100,001 names, and the nodes kept are counted on
// whole maps, by a reference in Python and its `hashlib`.
const LAST: &[u8] = b"get v10 61\nget head 61\nroot head\nstatus\n";

const REPLIES: &[u8] = b"3010 ok none\n\
      3010 ok value =31\n\
      3010 ok root 8007a587d5e2bfc8a12864ffb30dc0bc54a2e4f214aec8634445dd18e242c79e\n\
      3010 ok status base 0 floor 0 retired 0 head 3010 kept 236220 forks 0 generation 1\n";

// Appends the `put` of a name, which is a number in four bytes, and a `commit` if the batch is full.
fn add_put(alloc: Global, script: &mut Vec<u8>, number: u32) -> Result<(), Fail> {
    let line = format!(in alloc; "put {number:08x} =\n")?;
    script.extend_from_slice(line.as_bytes())?;
    if number % BATCH == BATCH - 1 {
        script.extend_from_slice(b"commit\n")?;
    }
    Ok(())
}

// Appends the commits of the large state.
fn add_names(alloc: Global, script: &mut Vec<u8>) -> Result<(), Fail> {
    for number in 0..NAMES {
        add_put(alloc, script, number)?;
    }
    Ok(())
}

// Appends the commits of one name.
fn add_rounds(script: &mut Vec<u8>) -> Result<(), Fail> {
    for _ in 0..ROUNDS {
        script.extend_from_slice(ROUND)?;
    }
    Ok(())
}

fn whole_script(alloc: Global) -> Result<Vec<u8>, Fail> {
    let mut script = Vec::new(alloc);
    add_names(alloc, &mut script)?;
    add_rounds(&mut script)?;
    script.extend_from_slice(LAST)?;
    Ok(script)
}

// The most bytes that the source gives, and the sink takes, in a call.
const PIECE: usize = 10_000;

fn source_of(alloc: Global, script: &[u8]) -> Result<Box<MemSource>, Fail> {
    let source = MemSource::new(Bytes::copy_of(alloc, script)?, PIECE, Vec::new(alloc));
    Ok(Box::new(alloc, source)?)
}

// A sink with room for all replies.
fn roomy_sink(alloc: Global) -> Result<Box<MemSink>, Fail> {
    let sink = MemSink::new(alloc, PIECE, 4_000_000, Vec::new(alloc))?;
    Ok(Box::new(alloc, sink)?)
}

// A disk in memory with room for all landings: the new nodes and the stale names of the first ten take 32 MB, and those of
// the others 10 MB.
fn roomy_disk(alloc: Global) -> Result<Box<MemDisk>, Fail> {
    let empty = || Vec::new(alloc);
    let disk = MemDisk::new(alloc, empty(), empty(), 20_000, 45_000_000, Vec::new(alloc))?;
    Ok(Box::new(alloc, disk)?)
}

// Whether a run ended well and made an entry of each commit.
fn has_landed_all(ended: &Ended<MemDisk>) -> bool {
    ended.status == Status::Done && ended.entries.len() == 3_010
}

// Whether a run of a script over a new store lands all commits, and what it writes ends with these replies.
fn is_answered_last<H: Threads + Wait + Sync>(
    rt: &H,
    alloc: Global,
    script: &[u8],
    replies: &[u8],
) -> Result<bool, Fail> {
    let words = one_word(alloc, "run")?;
    let mut source = source_of(alloc, script)?;
    let mut sink = roomy_sink(alloc)?;
    let disk = roomy_disk(alloc)?;
    let ended = run_over(rt, alloc, disk, &words, &mut source, &mut sink)?;
    Ok(has_landed_all(&ended) && sink.text().ends_with(replies))
}

#[test]
fn many_versions_of_a_large_state_are_kept(rt: HostRuntime) -> Result<(), Fail> {
    let script = whole_script(rt.alloc())?;
    assert!(rt; is_answered_last(&rt, rt.alloc(), &script, REPLIES)?);
    Ok(())
}
