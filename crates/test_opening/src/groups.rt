// Three landings in one record: a file has all three versions or none of them, wherever it ends.
use crate::openings::{FIRST_LANDING, Files, changed_file, opened_run};
use jf_disk::Side;
use jf_play::files::{CHECKPOINT, END, File, GROUP};
use jf_run::status::Status;
use std::alloc::Global;
use std::sync::Wait;
use std::test::Fail;
use std::thread::Threads;

// The first record has 100 bytes, the other 513 and the closed gate one.
const FILE: File = &[CHECKPOINT, GROUP, END];

const WHOLE: usize = 614;

// The first `len` bytes of the file, with this byte as the gate of its second record.
fn front(alloc: Global, len: usize, gate: u8) -> Result<Files, Fail> {
    Ok(Files {
        a: changed_file(alloc, FILE, len, &[(100, gate)])?,
        b: Vec::new(alloc),
    })
}

// Whether a run over these files ends so, and opens them at this version.
fn is_opened<H: Threads + Wait + Sync>(
    rt: &H,
    alloc: Global,
    files: &Files,
    status: Status,
    start: Option<u64>,
) -> Result<bool, Fail> {
    let played = opened_run(rt, alloc, files, b"", &[])?;
    Ok(played.status == status && played.start == start)
}

// Whether the file has no version after 0 if it ends here and the gate is closed, and is damaged if it is open.
fn is_none<H: Threads + Wait + Sync>(rt: &H, alloc: Global, len: usize) -> Result<bool, Fail> {
    let damaged = Status::Damaged {
        side: Side::A,
        offset: FIRST_LANDING,
    };
    Ok(
        is_opened(rt, alloc, &front(alloc, len, 0x00)?, Status::Done, Some(0))?
            && is_opened(rt, alloc, &front(alloc, len, 0x01)?, damaged, None)?,
    )
}

#[test]
fn a_record_of_three_landings_is_there_whole_or_not(rt: HostRuntime) -> Result<(), Fail> {
    let alloc = rt.alloc();
    for len in 101..WHOLE {
        assert!(rt; is_none(&rt, alloc, len)?, "of {len} bytes");
    }
    let whole = front(alloc, WHOLE, 0x01)?;
    assert!(rt; is_opened(&rt, alloc, &whole, Status::Done, Some(3))?);
    Ok(())
}

// What is altered in the whole file: of the number of landings the last two bytes, so that there are none, one, one less than
// there are, one more, and 1,025; and a byte of the second landing's value.
const ALTERED: &[&[(usize, u8)]] = &[
    &[(117, 0x00)],
    &[(117, 0x01)],
    &[(117, 0x02)],
    &[(117, 0x04)],
    &[(116, 0x04), (117, 0x01)],
    &[(324, 0x31)],
];

// Whether the whole file is damaged at its second record after these bytes are altered.
fn is_damaged<H: Threads + Wait + Sync>(
    rt: &H,
    alloc: Global,
    altered: &[(usize, u8)],
) -> Result<bool, Fail> {
    let files = Files {
        a: changed_file(alloc, FILE, WHOLE, altered)?,
        b: Vec::new(alloc),
    };
    let damaged = Status::Damaged {
        side: Side::A,
        offset: FIRST_LANDING,
    };
    is_opened(rt, alloc, &files, damaged, None)
}

#[test]
fn what_is_no_group_is_damage(rt: HostRuntime) -> Result<(), Fail> {
    let alloc = rt.alloc();
    for altered in ALTERED {
        assert!(rt; is_damaged(&rt, alloc, altered)?);
    }
    Ok(())
}
