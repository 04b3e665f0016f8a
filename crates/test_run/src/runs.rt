// Scripts over a disk in memory: what is written, what the files hold, and how the run ends.
use jf_disk::{Disk, MemDisk, Side};
use jf_play::files::{
    CHECKPOINT, END, File, LANDING, LANDING_OF_NOTHING, LANDING_OF_TWO, file_bytes,
};
use jf_play::play::{
    Faults, NO_FAULTS, Played, answers, has_ended, is_answered_by, new_disk, play,
};
use jf_play::roots::with_roots;
use jf_run::status::Status;
use std::alloc::Global;
use std::sync::Wait;
use std::test::Fail;
use std::thread::Threads;

// Scripts over a new store, and their replies. E and R represent roots, as in `with_roots`.
const LINES: &[(&str, &str)] = &[
    ("", ""),
    ("root head\n", "0 ok root E\n"),
    ("root head", "0 ok root E\n"),
    (
        "put 61 =31\ncommit\nroot head\n",
        "0 ok pending 1\n1 ok commit 1 R\n1 ok root R\n",
    ),
    (
        "put 61 =31\nput 61 =\nroot head",
        "0 ok pending 1\n0 ok pending 1\n0 ok root E\n",
    ),
    ("commit\ncommit", "1 ok commit 1 E\n2 ok commit 2 E\n"),
    ("\n", "0 no syntax\n"),
    ("\nroot head\n\n", "0 no syntax\n0 ok root E\n0 no syntax\n"),
];

#[test]
fn lines_are_answered(rt: HostRuntime) -> Result<(), Fail> {
    let alloc = rt.alloc();
    for (script, want) in LINES {
        is_answered_by(&rt, alloc, script, want)?;
    }
    Ok(())
}

// Whether side A of a disk holds these records, and side B is empty.
fn holds(alloc: Global, disk: &MemDisk, a: File) -> Result<bool, Fail> {
    let a = file_bytes(alloc, a)?;
    Ok(disk.bytes(Side::A) == a.as_slice() && disk.bytes(Side::B).is_empty())
}

// Scripts over a new store, their replies, and side A after them. Two keys that agree in a nibble have their root from
// Python's `hashlib`.
const WRITTEN: &[(&str, &str, File)] = &[
    ("", "", &[CHECKPOINT, END]),
    (
        "put 61 =31\nput 6 =31\nroot head\n",
        "0 ok pending 1\n0 no syntax\n0 ok root E\n",
        &[CHECKPOINT, END],
    ),
    (
        "put 61 =31\ncommit\n",
        "0 ok pending 1\n1 ok commit 1 R\n",
        &[CHECKPOINT, LANDING, END],
    ),
    (
        "put 61 =31\ncommit\ncommit\n",
        "0 ok pending 1\n1 ok commit 1 R\n2 ok commit 2 R\n",
        &[CHECKPOINT, LANDING, LANDING_OF_NOTHING, END],
    ),
    (
        "put 61 =01\nput 69 =02\ncommit\n",
        "0 ok pending 1\n0 ok pending 2\n1 ok commit 1 81f2437253a9c24ff7f780a610d61980288f33450bd4fabecd40c239e018b746\n",
        &[CHECKPOINT, LANDING_OF_TWO, END],
    ),
];

// Whether a script over a new store has these replies, and leaves these records.
fn is_written<H: Threads + Wait + Sync>(
    rt: &H,
    alloc: Global,
    script: &str,
    want: &str,
    a: File,
) -> Result<bool, Fail> {
    let want = with_roots(alloc, want)?;
    let disk = new_disk(alloc, b"", &[])?;
    let disk = answers(rt, alloc, disk, script.as_bytes(), 0, &want)?;
    holds(alloc, &disk, a)
}

#[test]
fn landings_are_written_byte_by_byte(rt: HostRuntime) -> Result<(), Fail> {
    let alloc = rt.alloc();
    for (script, want, a) in WRITTEN {
        assert!(rt; is_written(&rt, alloc, script, want, a)?, "of {script}");
    }
    Ok(())
}

// A disk on which `put 61 =31` has landed.
fn landed_disk<H: Threads + Wait + Sync>(rt: &H, alloc: Global) -> Result<Box<MemDisk>, Fail> {
    let want = with_roots(alloc, "0 ok pending 1\n1 ok commit 1 R\n")?;
    let disk = new_disk(alloc, b"", &[])?;
    answers(rt, alloc, disk, b"put 61 =31\ncommit\n", 0, &want)
}

// The disk of `landed_disk`, opened again for a commit of nothing.
fn landed_again<H: Threads + Wait + Sync>(
    rt: &H,
    alloc: Global,
    disk: Box<MemDisk>,
) -> Result<Box<MemDisk>, Fail> {
    let want = with_roots(alloc, "0 ok root R\n1 ok commit 2 R\n1 ok root R\n")?;
    answers(rt, alloc, disk, b"root head\ncommit\nroot head", 1, &want)
}

#[test]
fn a_store_is_opened_where_it_stood(rt: HostRuntime) -> Result<(), Fail> {
    let alloc = rt.alloc();
    let disk = landed_disk(&rt, alloc)?;
    let disk = landed_again(&rt, alloc, disk)?;
    assert!(rt;
        holds(
            alloc,
            &disk,
            &[CHECKPOINT, LANDING, LANDING_OF_NOTHING, END]
        )?
    );
    Ok(())
}

const READ_FAULT: Faults = Faults {
    piece: 11,
    source: &[1],
    sink: &[],
};

const WRITE_FAULT: Faults = Faults {
    piece: 11,
    source: &[],
    sink: &[0],
};

const DAMAGED: Status = Status::Damaged {
    side: Side::A,
    offset: 0,
};

// A run that is stopped: side A, the word and the faults, then its status, the version at which it opened, and what it
// wrote.
#[derive(Clone, Copy)]
struct Stop {
    file: &'static [u8],
    word: &'static str,
    faults: Faults,
    status: Status,
    start: Option<u64>,
    text: &'static str,
}

const STOPPED: &[Stop] = &[
    Stop {
        file: b"",
        word: "walk",
        faults: NO_FAULTS,
        status: Status::Usage,
        start: None,
        text: "",
    },
    Stop {
        file: b"",
        word: "run ",
        faults: NO_FAULTS,
        status: Status::Usage,
        start: None,
        text: "",
    },
    Stop {
        file: b"",
        word: "run",
        faults: READ_FAULT,
        status: Status::ReadFault,
        start: Some(0),
        text: "0 ok pending 1\n",
    },
    Stop {
        file: b"",
        word: "run",
        faults: WRITE_FAULT,
        status: Status::WriteFault,
        start: Some(0),
        text: "",
    },
    Stop {
        file: b"\x01\x07\0",
        word: "run",
        faults: NO_FAULTS,
        status: DAMAGED,
        start: None,
        text: "",
    },
];

// Whether a run ended as `stop` says, with no entry and no fault of the disk.
fn has_stopped(played: &Played<MemDisk>, stop: &Stop) -> bool {
    let calm = played.entries == 0 && played.disk.faults() == 0;
    calm && has_ended(played, stop.status, stop.start, stop.text.as_bytes())
}

// Whether a run of the word ends as `stop` says.
fn is_stopped<H: Threads + Wait + Sync>(rt: &H, alloc: Global, stop: &Stop) -> Result<bool, Fail> {
    let disk = new_disk(alloc, stop.file, &[])?;
    let script = b"put 61 =31\ncommit\n";
    let played = play(rt, alloc, disk, stop.word, script, stop.faults)?;
    Ok(has_stopped(&played, stop))
}

#[test]
fn what_stops_a_run_is_told(rt: HostRuntime) -> Result<(), Fail> {
    let alloc = rt.alloc();
    for stop in STOPPED {
        assert!(rt; is_stopped(&rt, alloc, stop)?, "of {}", stop.word);
    }
    Ok(())
}
