// Inputs of the mode `many` that are refused, inputs of 10,000 lines and more, and devices that fail.
use crate::stores::ONE_NAME;
use jf_play::play::{Faults, NO_FAULTS, NO_INPUT, NO_OUTPUT, has_ended, play_after};
use jf_run::RestoreFault;
use jf_run::status::Status;
use std::alloc::Global;
use std::sync::Wait;
use std::test::Fail;
use std::thread::Threads;

// Whether `many 1` over the version with one name ends so.
fn is_answered<H: Threads + Wait + Sync>(
    rt: &H,
    alloc: Global,
    input: &[u8],
    faults: Faults,
    status: Status,
    text: &[u8],
) -> Result<bool, Fail> {
    let played = play_after(rt, alloc, ONE_NAME, "many 1", input, faults)?;
    Ok(has_ended(&played, status, Some(1), text))
}

// Inputs, and the number of their first line that is no name.
const REFUSED: &[(&[u8], u64)] = &[
    (b"x\n", 1),
    (b"\n", 1),
    (b"61\n\n", 2),
    (b"61\n62\n6\nzz\n61\n", 3),
    (b"61\n6A\n", 2),
    (b"61\r\n", 1),
    (b"61 62\n", 1),
    (b"61 \n", 1),
    (b"61\n62\n6", 3),
];

#[test]
fn a_line_that_is_no_name_is_refused_by_its_number(rt: HostRuntime) -> Result<(), Fail> {
    for (input, line) in REFUSED {
        let status = Status::Refused(RestoreFault::Line(*line));
        assert!(rt;
            is_answered(&rt, rt.alloc(), input, NO_FAULTS, status, b"")?,
            "of line {line}"
        );
    }
    Ok(())
}

// What is written of one name of that version.
const ONE_CLAIM: &[u8] = b"many 1 1\n\
    claim 61 =31\n\
    end 19d5f57c8e8b3cd760f853bb8d7900d68e10ef02674383de65a9b4d65e419b26 f254fd9353abb55f60a0942b46382c2428aa019d102cd9985275c0fb42a8dbb3\n";

// A first part of an input, and how many lines with the same name come after it; and how the input is answered.
struct Lines {
    first: &'static [u8],
    count: u64,
    status: Status,
    text: &'static [u8],
}

const MANY_LINES: &[Lines] = &[
    Lines {
        first: b"",
        count: 10_000,
        status: Status::Done,
        text: ONE_CLAIM,
    },
    Lines {
        first: b"",
        count: 10_001,
        status: Status::Refused(RestoreFault::Line(10_001)),
        text: b"",
    },
    Lines {
        first: b"61\nx\n",
        count: 10_000,
        status: Status::Refused(RestoreFault::Line(2)),
        text: b"",
    },
];

// The input of a row.
fn input_of(alloc: Global, row: &Lines) -> Result<Vec<u8>, Fail> {
    let mut input = row.first.to_vec(alloc)?;
    for _ in 0..row.count {
        input.extend_from_slice(b"61\n")?;
    }
    Ok(input)
}

// Whether an input of many lines is answered as its row says.
fn are_answered<H: Threads + Wait + Sync>(
    rt: &H,
    alloc: Global,
    row: &Lines,
) -> Result<bool, Fail> {
    let input = input_of(alloc, row)?;
    is_answered(rt, alloc, &input, NO_FAULTS, row.status, row.text)
}

#[test]
fn ten_thousand_lines_are_read_and_no_more(rt: HostRuntime) -> Result<(), Fail> {
    for row in MANY_LINES {
        assert!(rt;
            are_answered(&rt, rt.alloc(), row)?,
            "of {} lines",
            row.count
        );
    }
    Ok(())
}

// Devices of which a call fails, how the input `61` and `62` then ends, and what was written. The sink takes 7 bytes in a
// call.
const FAILING: &[(Faults, Status, &[u8])] = &[
    (NO_INPUT, Status::ReadFault, b""),
    (
        Faults {
            piece: 3,
            source: &[1],
            sink: &[],
        },
        Status::ReadFault,
        b"",
    ),
    (NO_OUTPUT, Status::WriteFault, b""),
    (
        Faults {
            piece: 100,
            source: &[],
            sink: &[2],
        },
        Status::WriteFault,
        b"many 2 1\nclaim",
    ),
];

#[test]
fn a_source_that_fails_is_told_and_a_sink_has_a_front(rt: HostRuntime) -> Result<(), Fail> {
    for (faults, status, text) in FAILING {
        assert!(rt; is_answered(&rt, rt.alloc(), b"61\n62\n", *faults, *status, text)?);
    }
    Ok(())
}
