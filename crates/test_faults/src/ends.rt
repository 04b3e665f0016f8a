// A source or a sink that fails in a call: how the run ends, what it wrote, and what the files hold.
use jf_disk::MemDisk;
use jf_io::{MemSink, MemSource};
use jf_path::Bytes;
use jf_play::play::{NO_FAULTS, has_ended, new_disk, one_word, play, run_over};
use jf_play::roots::with_roots;
use jf_run::status::{Ended, Status};
use std::alloc::Global;
use std::sync::Wait;
use std::test::Fail;
use std::thread::Threads;

// Two landings, and reads of both.
const SCRIPT: &[u8] =
    b"put 61 =31\ncommit\nput 62 =32\ncommit\nget v1 61\nprove v1 62\nput 6\nroot head\n";

// The replies to its lines. The leaf of the proof has the key of 61 and the hash of its value, by Python's `hashlib`.
const REPLIES: &[&str] = &[
    "0 ok pending 1\n",
    "1 ok commit 1 R\n",
    "1 ok pending 1\n",
    "2 ok commit 2 P\n",
    "2 ok value =31\n",
    "2 ok proof 0\nname 62\nclaim none\nleaf 19d5f57c8e8b3cd760f853bb8d7900d68e10ef02674383de65a9b4d65e419b26 f254fd9353abb55f60a0942b46382c2428aa019d102cd9985275c0fb42a8dbb3\n",
    "2 no syntax\n",
    "2 ok root P\n",
];

// The replies to the first lines.
fn replies(alloc: Global, lines: usize) -> Result<Vec<u8>, Fail> {
    let mut text = Vec::new(alloc);
    for reply in REPLIES.iter().take(lines) {
        text.extend_from_slice(&with_roots(alloc, reply)?)?;
    }
    Ok(text)
}

// Which of the two fails, and in which of its calls, from 0.
#[derive(Clone, Copy, Debug)]
enum Failing {
    Source(u64),
    Sink(u64),
}

// The most bytes that the source gives in a call.
const PIECE: usize = 11;

fn source_of(alloc: Global, failing: Failing) -> Result<Box<MemSource>, Fail> {
    let mut calls = Vec::new(alloc);
    if let Failing::Source(call) = failing {
        calls.push(call)?;
    }
    let source = MemSource::new(Bytes::copy_of(alloc, SCRIPT)?, PIECE, calls);
    Ok(Box::new(alloc, source)?)
}

// A sink that takes at most 23 bytes in a call.
fn sink_of(alloc: Global, failing: Failing) -> Result<Box<MemSink>, Fail> {
    let mut calls = Vec::new(alloc);
    if let Failing::Sink(call) = failing {
        calls.push(call)?;
    }
    let sink = MemSink::new(alloc, 23, 10_000, calls)?;
    Ok(Box::new(alloc, sink)?)
}

// What a run over a new disk is, in which this call fails, and what it wrote.
#[derive(Drop)]
struct Stopped {
    ended: Box<Ended<MemDisk>>,
    text: Vec<u8>,
}

fn run_failing<H: Threads + Wait + Sync>(
    rt: &H,
    alloc: Global,
    failing: Failing,
) -> Result<Stopped, Fail> {
    let words = one_word(alloc, "run")?;
    let mut source = source_of(alloc, failing)?;
    let mut sink = sink_of(alloc, failing)?;
    let disk = new_disk(alloc, b"", &[])?;
    let ended = run_over(rt, alloc, disk, &words, &mut source, &mut sink)?;
    let text = sink.text().to_vec(alloc)?;
    Ok(Stopped { ended, text })
}

// Whether a run ended so and opened version 0, and its disk is opened at the version of its last entry.
fn has_ended_so<H: Threads + Wait + Sync>(
    rt: &H,
    alloc: Global,
    ended: Box<Ended<MemDisk>>,
    wanted: Status,
) -> Result<bool, Fail> {
    let Ended {
        status,
        disk,
        entries,
        start,
        memory: _,
    } = Box::into_inner(ended);
    let played = play(rt, alloc, Box::new(alloc, disk)?, "run", b"", NO_FAULTS)?;
    let opened = has_ended(&played, Status::Done, Some(entries.len()), b"");
    Ok(opened && status == wanted && start == Some(0))
}

// How many lines end in the bytes that the source gives before this call.
fn lines_before(call: usize) -> usize {
    let taken = SCRIPT.iter().take(call.saturating_mul(PIECE));
    taken.filter(|byte| **byte == b'\n').count()
}

// Whether a run whose source fails in this call answers the lines before and no other.
fn answers_lines_before<H: Threads + Wait + Sync>(
    rt: &H,
    alloc: Global,
    call: usize,
) -> Result<bool, Fail> {
    let Stopped { ended, text } = run_failing(rt, alloc, Failing::Source(call as u64))?;
    let want = replies(alloc, lines_before(call))?;
    let matches = text.as_slice() == want.as_slice();
    Ok(has_ended_so(rt, alloc, ended, Status::ReadFault)? && matches)
}

// The script has 74 bytes, so that the source is asked seven times for them, and then for what isn't there.
#[test]
fn a_source_that_fails_leaves_the_replies_to_the_lines_before(rt: HostRuntime) -> Result<(), Fail> {
    let alloc = rt.alloc();
    for call in 0..8 {
        assert!(rt; answers_lines_before(&rt, alloc, call)?, "at {call}");
    }
    Ok(())
}

// Whether a run whose sink fails in this call writes a front of the replies.
fn writes_front<H: Threads + Wait + Sync>(rt: &H, alloc: Global, call: u64) -> Result<bool, Fail> {
    let Stopped { ended, text } = run_failing(rt, alloc, Failing::Sink(call))?;
    let whole = replies(alloc, REPLIES.len())?;
    let matches = whole.starts_with(&text) && text.len() < whole.len();
    Ok(has_ended_so(rt, alloc, ended, Status::WriteFault)? && matches)
}

// The replies have more than 300 bytes, so that the sink is asked more than ten times.
#[test]
fn a_sink_that_fails_leaves_a_front_of_the_replies(rt: HostRuntime) -> Result<(), Fail> {
    let alloc = rt.alloc();
    for call in 0..10 {
        assert!(rt; writes_front(&rt, alloc, call)?, "at {call}");
    }
    Ok(())
}
