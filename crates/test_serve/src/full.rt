// Inputs with the most bytes and the most sessions, and with one more.
use crate::serving::serve;
use jf_disk::{Disk, MemDisk};
use jf_play::play::{Faults, NO_FAULTS, Played, has_ended};
use jf_run::status::Status;
use std::alloc::Global;
use std::sync::Wait;
use std::test::Fail;
use std::thread::Threads;

// An input, how its run ends, and what it writes.
type Row = (&'static [u8], Status, &'static [u8]);

// 16 sessions, 17, one and 15, one and 16, and 45. Lines before the first `session` are a session too, and are not answered if there
// are too many.
const ROWS: &[Row] = &[
    (
        b"session\nsession\nsession\nsession\nsession\nsession\nsession\nsession\n\
            session\nsession\nsession\nsession\nsession\nsession\nsession\nsession\n",
        Status::Done,
        b"session\nsession\nsession\nsession\nsession\nsession\nsession\nsession\n\
            session\nsession\nsession\nsession\nsession\nsession\nsession\nsession\n\
            ledger 0\n",
    ),
    (
        b"session\nsession\nsession\nsession\nsession\nsession\nsession\nsession\n\
            session\nsession\nsession\nsession\nsession\nsession\nsession\nsession\n\
            session\n",
        Status::InputFull,
        b"",
    ),
    (
        b"put 61 =31\n\
            session\nsession\nsession\nsession\nsession\nsession\nsession\nsession\n\
            session\nsession\nsession\nsession\nsession\nsession\nsession\n",
        Status::Done,
        b"session\n0 ok pending 1\n\
            session\nsession\nsession\nsession\nsession\nsession\nsession\nsession\n\
            session\nsession\nsession\nsession\nsession\nsession\nsession\n\
            ledger 0\n",
    ),
    (
        b"put 61 =31\ncommit\n\
            session\nsession\nsession\nsession\nsession\nsession\nsession\nsession\n\
            session\nsession\nsession\nsession\nsession\nsession\nsession\nsession\n",
        Status::InputFull,
        b"",
    ),
    (
        b"session\nsession\nsession\nsession\nsession\nsession\nsession\nsession\n\
            session\nsession\nsession\nsession\nsession\nsession\nsession\nsession\n\
            session\nsession\nsession\nsession\nsession\nsession\nsession\nsession\n\
            session\nsession\nsession\nsession\nsession\nsession\nsession\nsession\n\
            session\nsession\nsession\nsession\nsession\nsession\nsession\nsession\n\
            session\nsession\nsession\nsession\nsession\n",
        Status::InputFull,
        b"",
    ),
];

// The opening of empty files makes this many calls on the disk.
const OPENING: u64 = 13;

// Whether a run ended as a row says, and changed nothing after the opening.
fn has_come_to(played: &Played<MemDisk>, row: &Row) -> bool {
    let ended = has_ended(played, row.1, Some(0), row.2);
    ended && played.entries == 0 && played.disk.moment() == OPENING
}

// Fails unless the input of a row is taken or refused as the row says.
fn is_taken<H: Threads + Wait + Sync>(rt: &H, alloc: Global, row: &Row) -> Result<(), Fail> {
    let played = serve(rt, alloc, row.0, NO_FAULTS)?;
    if has_come_to(&played, row) {
        Ok(())
    } else {
        Err(Fail::new("it ends otherwise"))
    }
}

#[test]
fn sixteen_sessions_are_the_most(rt: HostRuntime) -> Result<(), Fail> {
    for row in ROWS {
        is_taken(&rt, rt.alloc(), row)?;
    }
    Ok(())
}

// How many bytes an input of one line has, how its run ends, and what it writes.
type Long = (usize, Status, &'static [u8]);

const LONG: &[Long] = &[
    (67_108_864, Status::Done, b"session\n0 no long\nledger 0\n"),
    (67_108_865, Status::InputFull, b""),
];

// Pieces of 65,536 bytes, and no call fails.
const LARGE: Faults = Faults {
    piece: 65_536,
    source: &[],
    sink: &[],
};

// Whether a run ended as a row says, with no entry.
fn has_read(played: &Played<MemDisk>, row: &Long) -> bool {
    played.status == row.1 && played.text.as_slice() == row.2 && played.entries == 0
}

// Fails unless an input of one line ends as a row says.
fn is_read<H: Threads + Wait + Sync>(rt: &H, alloc: Global, row: &Long) -> Result<(), Fail> {
    let input = vec![in alloc; b'x'; row.0]?;
    let played = serve(rt, alloc, &input, LARGE)?;
    if has_read(&played, row) {
        Ok(())
    } else {
        Err(Fail::new(row.0))
    }
}

#[test]
fn an_input_of_64_mebibytes_is_the_longest(rt: HostRuntime) -> Result<(), Fail> {
    for row in LONG {
        is_read(&rt, rt.alloc(), row)?;
    }
    Ok(())
}
