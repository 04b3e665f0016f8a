// What the mode `history` writes over a store after a script, with hashes from outside, by Python's `hashlib`.
use jf_disk::MemDisk;
use jf_play::play::{Faults, NO_FAULTS, NO_INPUT, Played, has_ended, play, play_line, roomy_disk};
use jf_run::status::Status;
use std::alloc::Global;
use std::sync::Wait;
use std::test::Fail;
use std::thread::Threads;

// A script that is run over a new store, words that are run over what it left, and what they write.
struct Row {
    script: &'static str,
    words: &'static str,
    head: u64,
    text: &'static str,
}

const ROWS: &[Row] = &[
    Row {
        script: "",
        words: "history 0",
        head: 0,
        text: "total 1 35b59cea4247af9ad0eb3fe6b1900c36db7445a0dcdb3227eb4ed81ed2bf1c87\n\
         member 0 6e340b9cffb37a989ca544e6bb780a2c78901d3fb33738768511a30617afa01d 0\n\
         extends 1 0\n",
    },
    Row {
        script: "commit\ncommit\n",
        words: "history 1",
        head: 2,
        text: "total 3 78f4f82f84dd1f5b3de20fb7c9b72bf7df8c189259328ebfc0444a6277a5fb82\n\
         member 1 6e340b9cffb37a989ca544e6bb780a2c78901d3fb33738768511a30617afa01d 2\n\
         side 35b59cea4247af9ad0eb3fe6b1900c36db7445a0dcdb3227eb4ed81ed2bf1c87\n\
         side 35b59cea4247af9ad0eb3fe6b1900c36db7445a0dcdb3227eb4ed81ed2bf1c87\n\
         extends 2 1\n\
         side 35b59cea4247af9ad0eb3fe6b1900c36db7445a0dcdb3227eb4ed81ed2bf1c87\n",
    },
    Row {
        script: "commit\ncommit\n",
        words: "history 2",
        head: 2,
        text: "total 3 78f4f82f84dd1f5b3de20fb7c9b72bf7df8c189259328ebfc0444a6277a5fb82\n\
         member 2 6e340b9cffb37a989ca544e6bb780a2c78901d3fb33738768511a30617afa01d 1\n\
         side 9e265c9ca703542b275fb0d993e205f2087c38fb470331fa394c968903a1e936\n\
         extends 3 0\n",
    },
    Row {
        script: "put 61 =31\ncommit\ndel 61\ncommit\nprune 2\ncompact\n",
        words: "history 1",
        head: 2,
        text: "total 3 e133d907fd62d052edfdc221547e73c02f6c703451302e7f0562fd64515900f2\n\
         member 1 9bb72c39f13d2b512ea34eae99a28f6d807a134ab125e89172310c6f6ea72f8f 2\n\
         side 35b59cea4247af9ad0eb3fe6b1900c36db7445a0dcdb3227eb4ed81ed2bf1c87\n\
         side 35b59cea4247af9ad0eb3fe6b1900c36db7445a0dcdb3227eb4ed81ed2bf1c87\n\
         extends 2 1\n\
         side 35b59cea4247af9ad0eb3fe6b1900c36db7445a0dcdb3227eb4ed81ed2bf1c87\n",
    },
    Row {
        script: "put 61 =31\ncommit\ncommit\ncommit\ncommit\n",
        words: "history 3",
        head: 4,
        text: "total 5 512ee98690acf1861e225cee25ab38fb62780b9ea08c252b8b8ae962391ced6d\n\
         member 3 9bb72c39f13d2b512ea34eae99a28f6d807a134ab125e89172310c6f6ea72f8f 3\n\
         side 3287541146358f89c20202d237c8b3fabcaf6ed374af990c43e48b09ec00fd47\n\
         side 0aacb0d70aac3df6ade4fd6f70ce677b366617771fe67de8efbbdc1364b7861a\n\
         side 3287541146358f89c20202d237c8b3fabcaf6ed374af990c43e48b09ec00fd47\n\
         extends 4 1\n\
         side 3287541146358f89c20202d237c8b3fabcaf6ed374af990c43e48b09ec00fd47\n",
    },
];

// What words write over the store that a script left.
fn written_after<H: Threads + Wait + Sync>(
    rt: &H,
    alloc: Global,
    script: &str,
    words: &str,
    faults: Faults,
) -> Result<Played<MemDisk>, Fail> {
    let disk = roomy_disk(alloc)?;
    let first = play(rt, alloc, disk, "run", script.as_bytes(), NO_FAULTS)?;
    play_line(rt, alloc, first.disk, words, b"", faults)
}

// Whether a row's words write its text.
fn is_written<H: Threads + Wait + Sync>(rt: &H, alloc: Global, row: &Row) -> Result<bool, Fail> {
    let played = written_after(rt, alloc, row.script, row.words, NO_INPUT)?;
    let ended = has_ended(&played, Status::Done, Some(row.head), row.text.as_bytes());
    Ok(ended && played.entries == 0)
}

#[test]
fn the_total_is_written_with_both_proofs(rt: HostRuntime) -> Result<(), Fail> {
    for row in ROWS {
        assert!(rt; is_written(&rt, rt.alloc(), row)?, "of {}", row.words);
    }
    Ok(())
}

// Whether a version is outside those whose root is recorded, after a script.
fn is_outside<H: Threads + Wait + Sync>(
    rt: &H,
    alloc: Global,
    row: &(&str, &str, u64, u64),
) -> Result<bool, Fail> {
    let played = written_after(rt, alloc, row.0, row.1, NO_INPUT)?;
    let status = Status::Outside {
        least: row.2,
        head: row.3,
    };
    Ok(has_ended(&played, status, Some(row.3), b""))
}

// A script, words, and the least and the greatest version whose root is recorded.
const OUTSIDE: &[(&str, &str, u64, u64)] = &[
    ("commit\ncommit\n", "history 3", 0, 2),
    ("", "history 1", 0, 0),
    ("", "history 18446744073709551615", 0, 0),
];

#[test]
fn a_version_without_a_root_is_outside(rt: HostRuntime) -> Result<(), Fail> {
    for row in OUTSIDE {
        assert!(rt; is_outside(&rt, rt.alloc(), row)?, "of {}", row.1);
    }
    Ok(())
}

// Words over a store that was restored to version 5, without entries, and has one commit more; the least version whose root
// is recorded, if that of the words isn't; and what they write.
const RESTORED: &[(&str, Option<u64>, &str)] = &[
    (
        "history 5",
        None,
        "total 2 9e265c9ca703542b275fb0d993e205f2087c38fb470331fa394c968903a1e936\n\
         member 0 6e340b9cffb37a989ca544e6bb780a2c78901d3fb33738768511a30617afa01d 1\n\
         side 35b59cea4247af9ad0eb3fe6b1900c36db7445a0dcdb3227eb4ed81ed2bf1c87\n\
         extends 1 1\n\
         side 35b59cea4247af9ad0eb3fe6b1900c36db7445a0dcdb3227eb4ed81ed2bf1c87\n",
    ),
    (
        "history 6",
        None,
        "total 2 9e265c9ca703542b275fb0d993e205f2087c38fb470331fa394c968903a1e936\n\
         member 1 6e340b9cffb37a989ca544e6bb780a2c78901d3fb33738768511a30617afa01d 1\n\
         side 35b59cea4247af9ad0eb3fe6b1900c36db7445a0dcdb3227eb4ed81ed2bf1c87\n\
         extends 2 0\n",
    ),
    ("history 4", Some(5), ""),
];

const RESTORE: &str = "restore 5 6e340b9cffb37a989ca544e6bb780a2c78901d3fb33738768511a30617afa01d";

// The disk of such a store.
fn restored_disk<H: Threads + Wait + Sync>(rt: &H, alloc: Global) -> Result<Box<MemDisk>, Fail> {
    let restored = play_line(rt, alloc, roomy_disk(alloc)?, RESTORE, b"", NO_FAULTS)?;
    let committed = play(rt, alloc, restored.disk, "run", b"commit\n", NO_FAULTS)?;
    Ok(committed.disk)
}

// Whether the words of a row write its text over such a store.
fn is_written_of_restored<H: Threads + Wait + Sync>(
    rt: &H,
    alloc: Global,
    row: &(&str, Option<u64>, &str),
) -> Result<bool, Fail> {
    let played = play_line(rt, alloc, restored_disk(rt, alloc)?, row.0, b"", NO_INPUT)?;
    let status = match row.1 {
        None => Status::Done,
        Some(least) => Status::Outside { least, head: 6 },
    };
    Ok(has_ended(&played, status, Some(6), row.2.as_bytes()))
}

#[test]
fn a_restored_store_has_no_root_before_its_version(rt: HostRuntime) -> Result<(), Fail> {
    for row in RESTORED {
        assert!(rt;
            is_written_of_restored(&rt, rt.alloc(), row)?,
            "of {}",
            row.0
        );
    }
    Ok(())
}

// The first call of the sink fails, or the second; it takes 7 bytes in a call.
const SINKS: &[(&[u64], &[u8])] = &[(&[0], b""), (&[1], b"total 1")];

// Whether a sink that fails in this call has a front of the text.
fn has_front<H: Threads + Wait + Sync>(
    rt: &H,
    alloc: Global,
    row: &(&'static [u64], &[u8]),
) -> Result<bool, Fail> {
    let faults = Faults {
        sink: row.0,
        ..NO_FAULTS
    };
    let played = written_after(rt, alloc, "", "history 0", faults)?;
    Ok(has_ended(&played, Status::WriteFault, Some(0), row.1))
}

#[test]
fn a_sink_that_fails_has_a_front_of_the_text(rt: HostRuntime) -> Result<(), Fail> {
    for row in SINKS {
        assert!(rt; has_front(&rt, rt.alloc(), row)?);
    }
    Ok(())
}

// Words that the mode doesn't take.
const OTHER_WORDS: &[&str] = &[
    "history",
    "history x",
    "history 01",
    "history 1 2",
    "history 1 --workers=2",
];

// Whether the program doesn't take these words.
fn is_not_taken<H: Threads + Wait + Sync>(
    rt: &H,
    alloc: Global,
    words: &str,
) -> Result<bool, Fail> {
    let played = play_line(rt, alloc, roomy_disk(alloc)?, words, b"", NO_INPUT)?;
    Ok(has_ended(&played, Status::Usage, None, b""))
}

#[test]
fn history_takes_one_number_and_no_option(rt: HostRuntime) -> Result<(), Fail> {
    for words in OTHER_WORDS {
        assert!(rt; is_not_taken(&rt, rt.alloc(), words)?, "of {words}");
    }
    Ok(())
}
