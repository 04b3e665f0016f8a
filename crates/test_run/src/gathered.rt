// Replies are gathered while whole lines are at hand that can't change the store. Which failing call a run meets first shows
// what it wrote before what.
use jf_io::{MemSink, MemSource};
use jf_path::Bytes;
use jf_play::play::{new_disk, one_word, run_over};
use jf_run::status::Status;
use std::alloc::Global;
use std::sync::Wait;
use std::test::Fail;
use std::thread::Threads;

// A script, which the source gives in its first call; the calls of the source and of the sink that fail, from 0; how the
// run ends, and how many entries it makes.
struct Case {
    script: &'static [u8],
    source: &'static [u64],
    sink: &'static [u64],
    status: Status,
    entries: u64,
}

const CASES: &[Case] = &[
    // Three replies are written in one call.
    Case {
        script: b"put 61 =31\nput 62 =32\nroot head\n",
        source: &[],
        sink: &[1],
        status: Status::Done,
        entries: 0,
    },
    // They are written before the source is asked again.
    Case {
        script: b"put 61 =31\nput 62 =32\nroot head\n",
        source: &[1],
        sink: &[0],
        status: Status::WriteFault,
        entries: 0,
    },
    // The reply to a `put` is written before a `commit` at hand lands.
    Case {
        script: b"put 61 =31\ncommit\n",
        source: &[],
        sink: &[0],
        status: Status::WriteFault,
        entries: 0,
    },
    // The reply to a `commit` is gathered with those after it, but written before the next one lands.
    Case {
        script: b"put 61 =31\ncommit\nroot head\ncommit\n",
        source: &[],
        sink: &[1],
        status: Status::WriteFault,
        entries: 1,
    },
];

fn source_of(alloc: Global, case: &Case) -> Result<Box<MemSource>, Fail> {
    let source = MemSource::new(
        Bytes::copy_of(alloc, case.script)?,
        100,
        case.source.to_vec(alloc)?,
    );
    Ok(Box::new(alloc, source)?)
}

// A sink that takes each text in one call.
fn sink_of(alloc: Global, case: &Case) -> Result<Box<MemSink>, Fail> {
    let sink = MemSink::new(alloc, 1_000, 1_000, case.sink.to_vec(alloc)?)?;
    Ok(Box::new(alloc, sink)?)
}

// Whether a run over a new disk ends as the case says.
fn ends_so<H: Threads + Wait + Sync>(rt: &H, alloc: Global, case: &Case) -> Result<bool, Fail> {
    let words = one_word(alloc, "run")?;
    let mut source = source_of(alloc, case)?;
    let mut sink = sink_of(alloc, case)?;
    let disk = new_disk(alloc, b"", &[])?;
    let ended = run_over(rt, alloc, disk, &words, &mut source, &mut sink)?;
    Ok(ended.status == case.status && ended.entries.len() == case.entries)
}

#[test]
fn replies_are_written_before_what_may_wait_for_them(rt: HostRuntime) -> Result<(), Fail> {
    let alloc = rt.alloc();
    for case in CASES {
        assert!(rt; ends_so(&rt, alloc, case)?);
    }
    Ok(())
}
