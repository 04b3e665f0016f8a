// Sources and sinks that fail while a script is led: how it ends, what was written, and what the files hold.
use crate::samples::{COMMITS, READS, REPLIES, first_blocks};
use jf_disk::MemDisk;
use jf_play::play::{Faults, NO_FAULTS, Played, answers, has_ended, new_disk, play};
use jf_play::roots::with_roots;
use jf_run::status::Status;
use std::alloc::Global;
use std::sync::Wait;
use std::test::Fail;
use std::thread::Threads;

// The result of a script over a new disk on which these calls fail.
fn led_run<H: Threads + Wait + Sync>(
    rt: &H,
    alloc: Global,
    failing: &[u64],
    faults: Faults,
) -> Result<Played<MemDisk>, Fail> {
    let disk = new_disk(alloc, b"", failing)?;
    play(rt, alloc, disk, "lead", COMMITS.as_bytes(), faults)
}

// Whether a disk has so many landings, each with its root.
fn has_landed<H: Threads + Wait + Sync>(
    rt: &H,
    alloc: Global,
    disk: Box<MemDisk>,
    landings: usize,
) -> Result<bool, Fail> {
    let want = REPLIES.get(landings).ok_or("more landings")?;
    let want = with_roots(alloc, want)?;
    let _ = answers(rt, alloc, disk, READS, landings as u64, &want)?;
    Ok(true)
}

// The calls of a source that gives 11 bytes in each, and the landings whose lines end before it. The script has 54 bytes.
const TAKES: &[(&[u64], usize)] = &[
    (&[0], 0),
    (&[1], 0),
    (&[2], 1),
    (&[3], 1),
    (&[4], 2),
    (&[5], 3),
];

// Whether a run whose source fails in this call has landed, and written the blocks of, the lines before and no other.
fn ends_there<H: Threads + Wait + Sync>(
    rt: &H,
    alloc: Global,
    row: &(&'static [u64], usize),
) -> Result<bool, Fail> {
    let faults = Faults {
        piece: 11,
        source: row.0,
        sink: &[],
    };
    let played = led_run(rt, alloc, &[], faults)?;
    let text = first_blocks(row.1);
    let ended = has_ended(&played, Status::ReadFault, Some(0), text);
    Ok(ended && played.entries == row.1 as u64 && has_landed(rt, alloc, played.disk, row.1)?)
}

#[test]
fn a_source_that_fails_leaves_the_blocks_of_the_lines_before(rt: HostRuntime) -> Result<(), Fail> {
    for row in TAKES {
        assert!(rt; ends_there(&rt, rt.alloc(), row)?, "of {}", row.1);
    }
    Ok(())
}

// Calls of a sink that takes 7 bytes in each: the first, a later one in a block, and those about its end, of each of the three
// blocks.
const PUTS: &[&[u64]] = &[
    &[0],
    &[1],
    &[10],
    &[11],
    &[20],
    &[21],
    &[22],
    &[23],
    &[42],
    &[43],
    &[44],
    &[45],
    &[63],
    &[64],
];

// Whether a run whose sink fails in this call writes a front of the blocks, and makes all versions.
fn goes_on<H: Threads + Wait + Sync>(
    rt: &H,
    alloc: Global,
    sink: &'static [u64],
    piece: usize,
) -> Result<bool, Fail> {
    let faults = Faults {
        piece,
        source: &[],
        sink,
    };
    let played = led_run(rt, alloc, &[], faults)?;
    let whole = first_blocks(3);
    let is_front = whole.starts_with(&played.text) && played.text.len() < whole.len();
    let ended = played.status == Status::WriteFault && played.start == Some(0);
    Ok(ended && is_front && played.entries == 3 && has_landed(rt, alloc, played.disk, 3)?)
}

#[test]
fn after_a_fault_of_the_sink_the_rest_of_the_script_is_done(rt: HostRuntime) -> Result<(), Fail> {
    for sink in PUTS {
        assert!(rt; goes_on(&rt, rt.alloc(), sink, 11)?);
        assert!(rt; goes_on(&rt, rt.alloc(), sink, 1_000)?);
    }
    Ok(())
}

// Calls of the disk and devices that fail in one run; how it ends, how many blocks are written, and how many landings are made.
// An opening makes 13 calls on the disk, and a landing 4.
struct Both {
    disk: &'static [u64],
    faults: Faults,
    status: Status,
    blocks: usize,
    entries: u64,
}

const FIRST_PUT: &[u64] = &[0];

const BOTH: &[Both] = &[
    // A fault of the source is reported before one of the sink.
    Both {
        disk: &[],
        faults: Faults {
            piece: 18,
            source: &[2],
            sink: FIRST_PUT,
        },
        status: Status::ReadFault,
        blocks: 0,
        entries: 2,
    },
    // So is one of the disk, in the second landing.
    Both {
        disk: &[18],
        faults: Faults {
            piece: 18,
            source: &[],
            sink: FIRST_PUT,
        },
        status: Status::DiskFault,
        blocks: 0,
        entries: 1,
    },
    // A disk that failed ends the script: the source isn't asked for more.
    Both {
        disk: &[18],
        faults: Faults {
            piece: 18,
            source: &[2],
            sink: &[],
        },
        status: Status::DiskFault,
        blocks: 1,
        entries: 1,
    },
    // A sink that fails in the second block doesn't take the third.
    Both {
        disk: &[],
        faults: Faults {
            piece: 18,
            source: &[],
            sink: &[22],
        },
        status: Status::WriteFault,
        blocks: 1,
        entries: 3,
    },
];

// Whether a run ends as its row says.
fn ends_so<H: Threads + Wait + Sync>(rt: &H, alloc: Global, row: &Both) -> Result<bool, Fail> {
    let played = led_run(rt, alloc, row.disk, row.faults)?;
    let ended = has_ended(&played, row.status, Some(0), first_blocks(row.blocks));
    Ok(ended && played.entries == row.entries)
}

#[test]
fn of_several_faults_one_is_told(rt: HostRuntime) -> Result<(), Fail> {
    for (number, row) in BOTH.iter().enumerate() {
        assert!(rt; ends_so(&rt, rt.alloc(), row)?, "of {number}");
    }
    Ok(())
}

#[test]
fn without_a_fault_all_blocks_are_written(rt: HostRuntime) -> Result<(), Fail> {
    let played = led_run(&rt, rt.alloc(), &[], NO_FAULTS)?;
    assert!(rt; has_ended(&played, Status::Done, Some(0), first_blocks(3)));
    Ok(())
}
