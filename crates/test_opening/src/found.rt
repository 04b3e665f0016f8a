// Files that represent versions: what they are answered, and what is written after them. The records are byte by byte, and
// the replies are worked out from what they say.
use crate::openings::{Change, Files, LANDED, LANDED_TWICE, NEW, changed_file, holds, opened_run};
use crate::records::LANDING_IN_1;
use jf_play::files::{
    CHECKPOINT, CHECKPOINT_1, COMPACTED, END, FLOOR, File, GROUP, IMPORTED, LANDING,
    LANDING_OF_NOTHING, LANDING_OF_NOTHING_3, SECOND,
};
use jf_play::play::has_ended;
use jf_play::roots::with_roots;
use jf_run::status::Status;
use std::alloc::Global;
use std::sync::Wait;
use std::test::Fail;
use std::thread::Threads;

// Two files, with bytes that are changed on side B; the version at which a run opens them, its script and its replies; and
// the two files after it.
struct Row {
    what: &'static str,
    before: (File, File),
    changes: &'static [Change],
    head: u64,
    script: &'static str,
    want: &'static str,
    after: (File, File),
}

// Nothing but bytes after a closed gate.
const CLOSED: File = &[&[b"\x5a\x07\0"]];

const ROWS: &[Row] = &[
    Row {
        what: "no record on either side",
        before: (CLOSED, CLOSED),
        changes: &[],
        head: 0,
        script: "put 61 =31\ncommit\n",
        want: "0 ok pending 1\n1 ok commit 1 R\n",
        after: (LANDED, CLOSED),
    },
    Row {
        what: "an open gate and nothing after it",
        before: (&[&[b"\x01"]], &[&[b"\x01"]]),
        changes: &[],
        head: 0,
        script: "root head\n",
        want: "0 ok root E\n",
        after: (NEW, &[&[b"\x01"]]),
    },
    Row {
        what: "records on side B alone",
        before: (CLOSED, LANDED),
        changes: &[],
        head: 1,
        script: "get v1 61\ncommit\n",
        want: "0 ok value =31\n1 ok commit 2 R\n",
        after: (CLOSED, LANDED_TWICE),
    },
    Row {
        what: "a greater generation on side B",
        before: (LANDED, &[SECOND, END]),
        changes: &[],
        head: 0,
        script: "root head\nput 61 =31\ncommit\nget v1 61\nstatus\n",
        want: "0 ok root E\n0 ok pending 1\n1 ok commit 1 R\n1 ok value =31\n\
               1 ok status base 0 floor 0 retired 0 head 1 kept 2 forks 0 generation 2\n",
        after: (LANDED, &[SECOND, LANDING, END]),
    },
    Row {
        what: "a greater generation on side A",
        before: (&[SECOND, END], LANDED),
        changes: &[],
        head: 0,
        script: "root head\nput 61 =31\ncommit\n",
        want: "0 ok root E\n0 ok pending 1\n1 ok commit 1 R\n",
        after: (&[SECOND, LANDING, END], LANDED),
    },
    Row {
        what: "a greater generation whose gate is closed",
        before: (NEW, &[SECOND, END]),
        changes: &[(0, 0x00)],
        head: 0,
        script: "status\nput 61 =31\ncommit\n",
        want: "0 ok status base 0 floor 0 retired 0 head 0 kept 1 forks 0 generation 1\n0 ok pending 1\n1 ok commit 1 R\n",
        after: (LANDED, &[SECOND, END]),
    },
    Row {
        what: "no sound landing on the side that isn't live",
        before: (&[CHECKPOINT, LANDING_OF_NOTHING, END], &[SECOND, END]),
        changes: &[],
        head: 0,
        script: "root head\n",
        want: "0 ok root E\n",
        after: (&[CHECKPOINT, LANDING_OF_NOTHING, END], &[SECOND, END]),
    },
    Row {
        what: "a checkpoint of three versions",
        before: (LANDED_TWICE, &[COMPACTED, END]),
        changes: &[],
        head: 2,
        script: "root v0\nget v0 61\nget v1 61\nroot v1\nroot v2\ncommit\nget v3 61\n",
        want: "0 ok root E\n0 ok none\n0 ok value =31\n0 ok root R\n0 ok root R\n1 ok commit 3 R\n1 ok value =31\n",
        after: (LANDED_TWICE, &[COMPACTED, LANDING_OF_NOTHING_3, END]),
    },
    Row {
        what: "a floor",
        before: (&[CHECKPOINT, LANDING, LANDING_OF_NOTHING, FLOOR, END], &[]),
        changes: &[],
        head: 2,
        script: "root v0\nget v1 61\nprove v1 61\nchunk v1 0 1\nroot v2\nget head 61\nroot v3\nstatus\n",
        want: "0 no retired 2\n0 no retired 2\n0 no retired 2\n0 no retired 2\n0 ok root R\n0 ok value =31\n0 no future 2\n\
               0 ok status base 0 floor 2 retired 2 head 2 kept 1 forks 0 generation 1\n",
        after: (&[CHECKPOINT, LANDING, LANDING_OF_NOTHING, FLOOR, END], &[]),
    },
    Row {
        what: "three landings in one record",
        before: (&[CHECKPOINT, GROUP, END], &[]),
        changes: &[],
        head: 3,
        script: "root v0\nroot v1\nget v1 61\nget v2 61\nget v2 62\nget v3 61\nget v3 62\nroot v3\n",
        want: "0 ok root E\n0 ok root R\n0 ok value =31\n0 ok value =32\n0 ok none\n0 ok value =32\n0 ok value =33\n\
               0 ok root eefcf9b105d7d02e5a1d9bff2664e0ca9b96376d452f31b6091710fa35852ef1\n",
        after: (&[CHECKPOINT, GROUP, END], &[]),
    },
    Row {
        what: "format 1, which goes on",
        before: (&[CHECKPOINT_1, LANDING, END], &[]),
        changes: &[],
        head: 1,
        script: "commit\nput 62 =32\ncommit\nget v1 62\nget v3 61\nget v3 62\n",
        want: "1 ok commit 2 R\n1 ok pending 1\n2 ok commit 3 P\n2 ok none\n2 ok value =31\n2 ok value =32\n",
        after: (
            &[CHECKPOINT_1, LANDING, LANDING_OF_NOTHING, LANDING_IN_1, END],
            &[],
        ),
    },
    Row {
        what: "format 1 with an internal node",
        before: (
            &[CHECKPOINT_1, LANDING, LANDING_OF_NOTHING, LANDING_IN_1, END],
            &[],
        ),
        changes: &[],
        head: 3,
        script: "root v0\nroot v1\nroot v2\nroot head\nget head 62\n",
        want: "0 ok root E\n0 ok root R\n0 ok root R\n0 ok root P\n0 ok value =32\n",
        after: (
            &[CHECKPOINT_1, LANDING, LANDING_OF_NOTHING, LANDING_IN_1, END],
            &[],
        ),
    },
];

// Versions and generations at the end of their range, and a generation that is another one.
const NUMBERS: &[Row] = &[
    Row {
        what: "the last version",
        before: (NEW, &[IMPORTED, END]),
        changes: &[],
        head: 18_446_744_073_709_551_614,
        script: "commit\nstatus\nroot head\nroot v18446744073709551614\nget v0 61\nroot v18446744073709551615\nput 61 =31\ncommit\n\
                 fork head\nget f0 61\nland f0\n",
        want: "0 no last\n\
               0 ok status base 18446744073709551614 floor 18446744073709551614 retired 18446744073709551614 head 18446744073709551614 kept 1 forks 0 generation 2\n\
               0 ok root E\n0 ok root E\n0 no retired 18446744073709551614\n0 no future 18446744073709551614\n0 ok pending 1\n0 no last\n\
               1 ok fork f0 R\n1 ok value =31\n1 no last\n",
        after: (NEW, &[IMPORTED, END]),
    },
    Row {
        what: "the last version but one, and two forks",
        before: (NEW, &[IMPORTED, END]),
        changes: &[(25, 0xfd), (33, 0xfd), (41, 0xfd), (89, 0xfd)],
        head: 18_446_744_073_709_551_613,
        script: "fork head\nfork f0\nland f1\nroot f1\nprune 18446744073709551614\ncount head\n",
        want: "1 ok fork f0 E\n2 ok fork f1 E\n2 no last\n2 ok root E\n2 no future 18446744073709551613\n2 ok count 0\n",
        after: (NEW, &[IMPORTED, END]),
    },
    Row {
        what: "the last generation",
        before: (&[], NEW),
        changes: &[
            (10, 0xff),
            (11, 0xff),
            (12, 0xff),
            (13, 0xff),
            (14, 0xff),
            (15, 0xff),
            (16, 0xff),
            (17, 0xfe),
        ],
        head: 0,
        script: "compact\nstatus\n",
        want: "0 no last\n0 ok status base 0 floor 0 retired 0 head 0 kept 1 forks 0 generation 18446744073709551614\n",
        after: (&[], NEW),
    },
    Row {
        what: "another generation in the checkpoint",
        before: (&[], LANDED),
        changes: &[(17, 0x02)],
        head: 1,
        script: "status\nroot head\n",
        want: "0 ok status base 0 floor 0 retired 0 head 1 kept 2 forks 0 generation 2\n0 ok root R\n",
        after: (&[], LANDED),
    },
];

// More bytes than any of these files has.
const ALL: usize = 10_000;

// The two files, with bytes that are changed on side B.
fn files_of(alloc: Global, files: (File, File), changes: &[Change]) -> Result<Files, Fail> {
    Ok(Files {
        a: changed_file(alloc, files.0, ALL, &[])?,
        b: changed_file(alloc, files.1, ALL, changes)?,
    })
}

// Whether files are answered, and go on, as a row says.
fn goes_on<H: Threads + Wait + Sync>(rt: &H, alloc: Global, row: &Row) -> Result<bool, Fail> {
    let before = files_of(alloc, row.before, row.changes)?;
    let after = files_of(alloc, row.after, row.changes)?;
    let want = with_roots(alloc, row.want)?;
    let played = opened_run(rt, alloc, &before, row.script.as_bytes(), &[])?;
    let ended = has_ended(&played, Status::Done, Some(row.head), &want);
    Ok(ended && holds(&played.disk, &after))
}

#[test]
fn files_are_read_and_go_on(rt: HostRuntime) -> Result<(), Fail> {
    let alloc = rt.alloc();
    for row in ROWS {
        assert!(rt; goes_on(&rt, alloc, row)?, "{}", row.what);
    }
    Ok(())
}

#[test]
fn the_greatest_numbers_are_read(rt: HostRuntime) -> Result<(), Fail> {
    let alloc = rt.alloc();
    for row in NUMBERS {
        assert!(rt; goes_on(&rt, alloc, row)?, "{}", row.what);
    }
    Ok(())
}
