// What the mode `many` writes over a store after a script, with hashes from outside, by Python's `hashlib`.
use crate::stores::{BLOCK, ONE_NAME};
use jf_disk::Disk;
use jf_play::play::{NO_FAULTS, NO_INPUT, has_ended, play_after};
use jf_run::status::Status;
use std::alloc::Global;
use std::sync::Wait;
use std::test::Fail;
use std::thread::Threads;

// A script that is run over a new store, words and an input that are run over what it left, and what they write.
struct Row {
    script: &'static str,
    words: &'static str,
    input: &'static str,
    head: u64,
    text: &'static str,
}

const ROWS: &[Row] = &[
    Row {
        script: ONE_NAME,
        words: "many 1",
        input: "61\n62\n",
        head: 1,
        text: BLOCK,
    },
    Row {
        script: ONE_NAME,
        words: "many 1",
        input: "",
        head: 1,
        text: "many 0 1\n\
         rest 9bb72c39f13d2b512ea34eae99a28f6d807a134ab125e89172310c6f6ea72f8f\n",
    },
    Row {
        script: "",
        words: "many 0",
        input: "61\n",
        head: 0,
        text: "many 1 1\nclaim 61 none\nend none\n",
    },
    // The names in another order than their keys, one of them twice.
    Row {
        script: "put 61 =31\nput 62 =32\nput 63 =\ncommit\n",
        words: "many 1",
        input: "63\n62\n61\n62\n64\n",
        head: 1,
        text: "many 4 5\n\
         claim 64 none\n\
         claim 61 =31\n\
         claim 62 =32\n\
         claim 63 =\n\
         fork\n\
         fork\n\
         end 19d5f57c8e8b3cd760f853bb8d7900d68e10ef02674383de65a9b4d65e419b26 f254fd9353abb55f60a0942b46382c2428aa019d102cd9985275c0fb42a8dbb3\n\
         end 6fe4ff1a836fcb881bbe03ff848bb731a5584708153d9bc6dc1d6430579a6a12 e6d2f38b796ebe79778972da19dec75bafb856918cc62160e500cd243f8c5836\n\
         end c7366da1307f33b7b9361dbd9b0988cf19b0cf4857db81c32d832f656dc5022a 084fed08b978af4d7d196a7446a86b58009e636b611db16211b65a9aadff29c5\n",
    },
    // An old version, and a last line without a line feed.
    Row {
        script: "put 61 =31\nput 62 =32\ncommit\nput 61 =33\ndel 62\ncommit\n",
        words: "many 1",
        input: "61\n62",
        head: 2,
        text: "many 2 5\n\
         claim 61 =31\n\
         claim 62 =32\n\
         fork\n\
         fork\n\
         end 19d5f57c8e8b3cd760f853bb8d7900d68e10ef02674383de65a9b4d65e419b26 f254fd9353abb55f60a0942b46382c2428aa019d102cd9985275c0fb42a8dbb3\n\
         end 6fe4ff1a836fcb881bbe03ff848bb731a5584708153d9bc6dc1d6430579a6a12 e6d2f38b796ebe79778972da19dec75bafb856918cc62160e500cd243f8c5836\n\
         rest 6e340b9cffb37a989ca544e6bb780a2c78901d3fb33738768511a30617afa01d\n",
    },
    // The oldest version that is kept.
    Row {
        script: "commit\nput 61 =31\ncommit\nprune 2\n",
        words: "many 2",
        input: "61\n",
        head: 2,
        text: "many 1 1\n\
         claim 61 =31\n\
         end 19d5f57c8e8b3cd760f853bb8d7900d68e10ef02674383de65a9b4d65e419b26 f254fd9353abb55f60a0942b46382c2428aa019d102cd9985275c0fb42a8dbb3\n",
    },
];

// Whether a row's words write its text.
fn is_written<H: Threads + Wait + Sync>(rt: &H, alloc: Global, row: &Row) -> Result<bool, Fail> {
    let input = row.input.as_bytes();
    let played = play_after(rt, alloc, row.script, row.words, input, NO_FAULTS)?;
    let ended = has_ended(&played, Status::Done, Some(row.head), row.text.as_bytes());
    Ok(ended && played.entries == 0)
}

#[test]
fn the_names_of_an_input_are_answered_with_one_proof(rt: HostRuntime) -> Result<(), Fail> {
    for row in ROWS {
        assert!(rt; is_written(&rt, rt.alloc(), row)?, "of {}", row.input);
    }
    Ok(())
}

// How many calls the disk had after a script and these words.
fn calls_after<H: Threads + Wait + Sync>(
    rt: &H,
    alloc: Global,
    words: &str,
    input: &[u8],
) -> Result<u64, Fail> {
    let played = play_after(rt, alloc, ONE_NAME, words, input, NO_FAULTS)?;
    Ok(played.disk.moment())
}

#[test]
fn the_disk_has_the_calls_of_an_opening_alone(rt: HostRuntime) -> Result<(), Fail> {
    let alloc = rt.alloc();
    let opened = calls_after(&rt, alloc, "run", b"")?;
    assert!(rt; calls_after(&rt, alloc, "many 1", b"61\n62\n")? == opened);
    Ok(())
}

// A script, words and an input, and the least and the greatest version that can be asked for. The source would fail: the
// input isn't looked at, not even a line that is no name.
struct Beyond {
    script: &'static str,
    words: &'static str,
    input: &'static str,
    least: u64,
    head: u64,
}

const OUTSIDE: &[Beyond] = &[
    Beyond {
        script: ONE_NAME,
        words: "many 2",
        input: "",
        least: 0,
        head: 1,
    },
    Beyond {
        script: "commit\ncommit\nprune 2\n",
        words: "many 1",
        input: "61\n",
        least: 2,
        head: 2,
    },
    Beyond {
        script: "",
        words: "many 18446744073709551615",
        input: "x\n",
        least: 0,
        head: 0,
    },
];

// Whether a row's version is outside, and nothing was read or written.
fn is_outside<H: Threads + Wait + Sync>(rt: &H, alloc: Global, row: &Beyond) -> Result<bool, Fail> {
    let input = row.input.as_bytes();
    let played = play_after(rt, alloc, row.script, row.words, input, NO_INPUT)?;
    let status = Status::Outside {
        least: row.least,
        head: row.head,
    };
    Ok(has_ended(&played, status, Some(row.head), b""))
}

#[test]
fn a_version_that_is_not_kept_is_outside(rt: HostRuntime) -> Result<(), Fail> {
    for row in OUTSIDE {
        assert!(rt; is_outside(&rt, rt.alloc(), row)?, "of {}", row.words);
    }
    Ok(())
}

// Words that the mode doesn't take.
const OTHER_WORDS: &[&str] = &[
    "many",
    "many x",
    "many 01",
    "many 18446744073709551616",
    "many 1 2",
    "many 1 --workers=2",
];

// Whether the program doesn't take these words.
fn is_not_taken<H: Threads + Wait + Sync>(
    rt: &H,
    alloc: Global,
    words: &str,
) -> Result<bool, Fail> {
    let played = play_after(rt, alloc, "", words, b"61\n", NO_INPUT)?;
    Ok(has_ended(&played, Status::Usage, None, b""))
}

#[test]
fn many_takes_one_number_and_no_option(rt: HostRuntime) -> Result<(), Fail> {
    for words in OTHER_WORDS {
        assert!(rt; is_not_taken(&rt, rt.alloc(), words)?, "of {words}");
    }
    Ok(())
}
