// The outputs of sessions, short and long, and a sink that fails.
use jf_io::{MemSink, Sink};
use jf_model::Entry;
use jf_path::Bytes;
use jf_serve::{ReportFault, write_served};
use std::alloc::Global;
use std::test::Fail;

// Two outputs, of which one has no bytes, and two entries.
const REPORT: &[u8] = b"session\nsession\n0 ok\nledger 2\ndropped 0 f1\ncompacted 1 4\n";

// Puts that report into a sink which takes `piece` bytes in a call and whose call number `failing` fails.
fn report_into(
    alloc: Global,
    piece: usize,
    failing: u64,
) -> Result<(Result<(), ReportFault>, Box<MemSink>), Fail> {
    let failing = [failing].to_vec(alloc)?;
    let mut sink = MemSink::new(alloc, piece.max(1), 1_000, failing)?;
    let outputs = [Bytes::new(alloc), Bytes::copy_of(alloc, b"0 ok\n")?];
    let entries = [
        Entry::Dropped { owner: 0, fork: 1 },
        Entry::Compacted {
            owner: 1,
            generation: 4,
        },
    ];
    let outcome = write_served::<MemSink>(alloc, &outputs, &entries, &mut sink);
    Ok((outcome, Box::new(alloc, sink)?))
}

// Whether the sink has all of the report then.
fn is_whole(alloc: Global, piece: usize) -> Result<bool, Fail> {
    let (outcome, sink) = report_into(alloc, piece, u64::MAX)?;
    Ok(outcome == Ok(()) && sink.text() == REPORT && sink.faults() == 0)
}

const PIECES: &[usize] = &[1, 7, 65_536];

#[test]
fn writes_outputs_and_then_entries(rt: HostRuntime) -> Result<(), Fail> {
    for piece in PIECES {
        assert!(rt; is_whole(rt.alloc(), *piece)?, "by {piece}");
    }
    Ok(())
}

// Whether the sink has the front then that it took before its call number `failing`, in pieces of 7 bytes.
fn leaves_front(alloc: Global, failing: u64) -> Result<bool, Fail> {
    let (outcome, sink) = report_into(alloc, 7, failing)?;
    let front = (failing.min(8) * 7) as usize;
    Ok(
        outcome == Err(ReportFault::WriteFault)
            && sink.text() == &REPORT[..front]
            && sink.faults() == 1,
    )
}

// The report has 57 bytes, which are nine pieces.
#[test]
fn leaves_a_front_if_a_call_of_the_sink_fails(rt: HostRuntime) -> Result<(), Fail> {
    for failing in 0..9 {
        assert!(rt; leaves_front(rt.alloc(), failing)?, "{failing}");
    }
    Ok(())
}

// So many bytes.
fn long_output(alloc: Global, count: u64) -> Result<Bytes, Fail> {
    let mut output = Bytes::with_capacity(alloc, count)?;
    for _ in 0..count {
        output.push(b'x')?;
    }
    Ok(output)
}

// Whether a long output comes after a short one, and before the entries.
fn is_in_place(alloc: Global, count: u64) -> Result<bool, Fail> {
    let mut sink = MemSink::new(alloc, 65_536, 200_000, Vec::new(alloc))?;
    let outputs = [
        Bytes::copy_of(alloc, b"0 ok\n")?,
        long_output(alloc, count)?,
    ];
    let entries: &[Entry] = &[];
    write_served::<MemSink>(alloc, &outputs, entries, &mut sink)?;
    Ok(is_between(sink.text(), outputs[1].as_slice()))
}

fn is_between(text: &[u8], long: &[u8]) -> bool {
    match text
        .strip_prefix(b"session\n0 ok\nsession\n".as_slice())
        .and_then(|rest| rest.strip_suffix(b"ledger 0\n".as_slice()))
    {
        Some(middle) => middle == long,
        None => false,
    }
}

const LENGTHS: &[u64] = &[65_515, 65_536, 65_537];

#[test]
fn puts_long_outputs_in_their_places(rt: HostRuntime) -> Result<(), Fail> {
    for count in LENGTHS {
        assert!(rt; is_in_place(rt.alloc(), *count)?, "{count}");
    }
    Ok(())
}
