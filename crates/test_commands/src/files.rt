// What commands write, byte by byte, over files of either format and with either side live.
use jf_disk::{Disk, MemDisk, Side};
use jf_play::files::{
    CHECKPOINT, CHECKPOINT_1, COMPACTED, EMPTY_MAP, END, FLOOR, File, GROUP, LANDING,
    LANDING_OF_NOTHING, LANDING_OF_NOTHING_3, Record, SECOND, file_bytes,
};
use jf_play::play::{NO_FAULTS, disk_of, has_ended, play};
use jf_play::roots::with_roots;
use jf_run::status::Status;
use std::alloc::Global;
use std::sync::Wait;
use std::test::Fail;
use std::thread::Threads;

// Two files; the version at which a run opens them, its script and its replies; and the two files after it.
struct Row {
    what: &'static str,
    before: (File, File),
    head: u64,
    script: &'static str,
    want: &'static str,
    after: (File, File),
}

const NONE: File = &[];

const NEW: File = &[CHECKPOINT, END];

const LANDED: File = &[CHECKPOINT, LANDING, END];

const LANDED_TWICE: File = &[CHECKPOINT, LANDING, LANDING_OF_NOTHING, END];

// A new store of generation 3.
const THIRD: Record = &[
    b"\x01\x05\0\0\0\0\0\0\0\x5a",
    b"\0\0\0\0\0\0\0\x03",
    EMPTY_MAP,
];

// What a checkpoint after `LANDING`, `LANDING_OF_NOTHING` and `FLOOR` has after its generation: three roots, and the one node
// of version 2.
const MAP_AT_2: &[u8] = b"\0\0\0\0\0\0\0\0\
    \0\0\0\0\0\0\0\x02\
    \0\0\0\0\0\0\0\x02\
    \x6e\x34\x0b\x9c\xff\xb3\x7a\x98\x9c\xa5\x44\xe6\xbb\x78\x0a\x2c\x78\x90\x1d\x3f\xb3\x37\x38\x76\x85\x11\xa3\x06\x17\xaf\xa0\x1d\
    \x9b\xb7\x2c\x39\xf1\x3d\x2b\x51\x2e\xa3\x4e\xae\x99\xa2\x8f\x6d\x80\x7a\x13\x4a\xb1\x25\xe8\x91\x72\x31\x0c\x6f\x6e\xa7\x2f\x8f\
    \x9b\xb7\x2c\x39\xf1\x3d\x2b\x51\x2e\xa3\x4e\xae\x99\xa2\x8f\x6d\x80\x7a\x13\x4a\xb1\x25\xe8\x91\x72\x31\x0c\x6f\x6e\xa7\x2f\x8f\
    \0\0\0\0\0\0\0\x01\
    \0\0\0\0\0\0\0\x02\0\
    \x01\x19\xd5\xf5\x7c\x8e\x8b\x3c\xd7\x60\xf8\x53\xbb\x8d\x79\0\xd6\x8e\x10\xef\x02\x67\x43\x83\xde\x65\xa9\xb4\xd6\x5e\x41\x9b\x26\
    \0\0\0\x01\x31\
    \xff\xff\xff\xff\xff\xff\xff\xff";

// A checkpoint of generation 2 with that.
const COMPACTED_AT_2: Record = &[
    b"\x01\x05\0\0\0\0\0\0\0\xbf",
    b"\0\0\0\0\0\0\0\x02",
    MAP_AT_2,
];

// The checkpoint of generation 2 after `LANDING` and a floor of 1: two roots, and the one node of version 1.
const SECOND_AT_1: Record = &[
    b"\x01\x05\0\0\0\0\0\0\0\x9f\
    \0\0\0\0\0\0\0\x02\
    \0\0\0\0\0\0\0\0\
    \0\0\0\0\0\0\0\x01\
    \0\0\0\0\0\0\0\x01\
    \x6e\x34\x0b\x9c\xff\xb3\x7a\x98\x9c\xa5\x44\xe6\xbb\x78\x0a\x2c\x78\x90\x1d\x3f\xb3\x37\x38\x76\x85\x11\xa3\x06\x17\xaf\xa0\x1d\
    \x9b\xb7\x2c\x39\xf1\x3d\x2b\x51\x2e\xa3\x4e\xae\x99\xa2\x8f\x6d\x80\x7a\x13\x4a\xb1\x25\xe8\x91\x72\x31\x0c\x6f\x6e\xa7\x2f\x8f\
    \0\0\0\0\0\0\0\x01\
    \0\0\0\0\0\0\0\x01\0\
    \x01\x19\xd5\xf5\x7c\x8e\x8b\x3c\xd7\x60\xf8\x53\xbb\x8d\x79\0\xd6\x8e\x10\xef\x02\x67\x43\x83\xde\x65\xa9\xb4\xd6\x5e\x41\x9b\x26\
    \0\0\0\x01\x31\
    \xff\xff\xff\xff\xff\xff\xff\xff",
];

// The checkpoint of generation 3 after that one, `LANDING_OF_NOTHING` and `FLOOR`.
const THIRD_AT_2: Record = &[
    b"\x01\x05\0\0\0\0\0\0\0\xbf",
    b"\0\0\0\0\0\0\0\x03",
    MAP_AT_2,
];

const ROWS: &[Row] = &[
    Row {
        what: "a fork of one batch lands as a commit does",
        before: (NONE, NONE),
        head: 0,
        script: "put 61 =31\nfork head\nfork f0\nland f0\nland f1\n",
        want: "0 ok pending 1\n1 ok fork f0 R\n2 ok fork f1 R\n3 ok land 1 R\n4 ok land 2 R\n",
        after: (LANDED_TWICE, NONE),
    },
    Row {
        what: "a chain of forks lands in one record",
        before: (NONE, NONE),
        head: 0,
        script: "put 61 =31\nfork head\nput 61 =32\nfork f0\nput 62 =33\nfork f1\nland f2\n",
        want: "0 ok pending 1\n1 ok fork f0 R\n1 ok pending 1\n2 ok fork f1 S\n2 ok pending 1\n3 ok fork f2 T\n4 ok land 3 T\n",
        after: (&[CHECKPOINT, GROUP, END], NONE),
    },
    Row {
        what: "forks, pins and refused lines write nothing",
        before: (LANDED, NONE),
        head: 1,
        script: "fork head\ndrop f0\npin 1\nunpin 0\nland f0\nprune 2\nput 61 =32\nstatus\n",
        want: "1 ok fork f0 R\n2 ok drop 1\n2 ok pin 0\n2 ok unpin 1\n2 no gone\n2 no future 1\n2 ok pending 1\n\
               2 ok status base 0 floor 0 retired 0 head 1 kept 2 forks 0 generation 1\n",
        after: (LANDED, NONE),
    },
    Row {
        what: "a floor",
        before: (LANDED, NONE),
        head: 1,
        script: "commit\nprune 2\n",
        want: "1 ok commit 2 R\n2 ok prune 2 2\n",
        after: (&[CHECKPOINT, LANDING, LANDING_OF_NOTHING, FLOOR, END], NONE),
    },
    Row {
        what: "the same floor again",
        before: (&[CHECKPOINT, LANDING, LANDING_OF_NOTHING, FLOOR, END], NONE),
        head: 2,
        script: "prune 1\nprune 2\n",
        want: "0 no retired 2\n1 ok prune 2 2\n",
        after: (
            &[CHECKPOINT, LANDING, LANDING_OF_NOTHING, FLOOR, FLOOR, END],
            NONE,
        ),
    },
    Row {
        what: "a new generation of a new store",
        before: (NONE, NONE),
        head: 0,
        script: "compact\nstatus\n",
        want: "1 ok compact 2\n1 ok status base 0 floor 0 retired 0 head 0 kept 1 forks 0 generation 2\n",
        after: (NEW, &[SECOND, END]),
    },
    Row {
        what: "three versions in a new generation, and a landing after them",
        before: (LANDED_TWICE, NONE),
        head: 2,
        script: "compact\ncommit\n",
        want: "1 ok compact 2\n2 ok commit 3 R\n",
        after: (LANDED_TWICE, &[COMPACTED, LANDING_OF_NOTHING_3, END]),
    },
    Row {
        what: "a new generation above a floor",
        before: (&[CHECKPOINT, LANDING, LANDING_OF_NOTHING, FLOOR, END], NONE),
        head: 2,
        script: "compact\nroot v1\nroot v2\n",
        want: "1 ok compact 2\n1 no retired 2\n1 ok root R\n",
        after: (
            &[CHECKPOINT, LANDING, LANDING_OF_NOTHING, FLOOR, END],
            &[COMPACTED_AT_2, END],
        ),
    },
    Row {
        what: "a new generation over older records on side A",
        before: (LANDED_TWICE, &[SECOND, END]),
        head: 0,
        script: "compact\n",
        want: "1 ok compact 3\n",
        after: (&[THIRD, END], &[SECOND, END]),
    },
    Row {
        what: "two generations, one after the other",
        before: (LANDED, NONE),
        head: 1,
        script: "prune 1\ncompact\ncommit\nprune 2\ncompact\nstatus\n",
        want: "1 ok prune 1 1\n2 ok compact 2\n3 ok commit 2 R\n4 ok prune 2 2\n5 ok compact 3\n\
               5 ok status base 0 floor 2 retired 2 head 2 kept 1 forks 0 generation 3\n",
        after: (
            &[THIRD_AT_2, END],
            &[SECOND_AT_1, LANDING_OF_NOTHING, FLOOR, END],
        ),
    },
    Row {
        what: "format 1 becomes format 2",
        before: (&[CHECKPOINT_1, LANDING, END], NONE),
        head: 1,
        script: "commit\ncompact\ncount head\n",
        want: "1 ok commit 2 R\n2 ok compact 2\n2 ok count 1\n",
        after: (
            &[CHECKPOINT_1, LANDING, LANDING_OF_NOTHING, END],
            &[COMPACTED, END],
        ),
    },
];

// Whether a disk holds these files.
fn holds(alloc: Global, disk: &MemDisk, files: (File, File)) -> Result<bool, Fail> {
    let a = file_bytes(alloc, files.0)?;
    let b = file_bytes(alloc, files.1)?;
    Ok(disk.bytes(Side::A) == a.as_slice() && disk.bytes(Side::B) == b.as_slice())
}

// Whether files are answered, and go on, as a row says.
fn goes_on<H: Threads + Wait + Sync>(rt: &H, alloc: Global, row: &Row) -> Result<bool, Fail> {
    let a = file_bytes(alloc, row.before.0)?;
    let b = file_bytes(alloc, row.before.1)?;
    let want = with_roots(alloc, row.want)?;
    let disk = disk_of(alloc, &a, &b, &[])?;
    let played = play(rt, alloc, disk, "run", row.script.as_bytes(), NO_FAULTS)?;
    let ended = has_ended(&played, Status::Done, Some(row.head), &want);
    Ok(ended && holds(alloc, &played.disk, row.after)?)
}

#[test]
fn each_change_is_written_as_its_record(rt: HostRuntime) -> Result<(), Fail> {
    let alloc = rt.alloc();
    for row in ROWS {
        assert!(rt; goes_on(&rt, alloc, row)?, "{}", row.what);
    }
    Ok(())
}
