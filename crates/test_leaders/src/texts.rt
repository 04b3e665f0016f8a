// What the mode `lead` writes of scripts. Keys and roots are by Python's `hashlib`.
use crate::samples::{BLOCKS, CHAIN, COMMITS};
use jf_play::play::{NO_FAULTS, NO_INPUT, has_ended, play_after};
use jf_play::roots::with_roots;
use jf_run::status::Status;
use std::alloc::Global;
use std::sync::Wait;
use std::test::Fail;
use std::thread::Threads;

// A script that is run over a new store, words and a script that are run over what it left; at which version that opens the
// store, the blocks that are written, and how many entries are made. In the blocks letters represent roots, as in
// `with_roots`.
struct Row {
    before: &'static str,
    words: &'static str,
    script: &'static str,
    head: u64,
    blocks: &'static str,
    entries: u64,
}

const ROWS: &[Row] = &[
    Row {
        before: "",
        words: "lead",
        script: "put 61 =31\ncommit\n",
        head: 0,
        blocks: "landing 1 R 1\n\
            put 19d5f57c8e8b3cd760f853bb8d7900d68e10ef02674383de65a9b4d65e419b26 =31\n",
        entries: 1,
    },
    // Three versions one by one, together, and two of them together.
    Row {
        before: "",
        words: "lead",
        script: COMMITS,
        head: 0,
        blocks: BLOCKS,
        entries: 3,
    },
    Row {
        before: "",
        words: "lead --workers 7",
        script: CHAIN,
        head: 0,
        blocks: BLOCKS,
        entries: 4,
    },
    Row {
        before: "",
        words: "lead --workers=1",
        script: "put 61 =31\nfork head\nput 61 =32\nfork f0\nput 62 =33\nfork f1\nland f1\nland f2\n",
        head: 0,
        blocks: BLOCKS,
        entries: 5,
    },
    // Keys in their order, a name that comes twice, an empty value, and no line feed at the end.
    Row {
        before: "",
        words: "lead",
        script: "put 62 =32\nput 61 =33\nput 61 =31\ncommit\nput 61 =\ndel 62\ncommit",
        head: 0,
        blocks: "landing 1 P 2\n\
            put 19d5f57c8e8b3cd760f853bb8d7900d68e10ef02674383de65a9b4d65e419b26 =31\n\
            put 6fe4ff1a836fcb881bbe03ff848bb731a5584708153d9bc6dc1d6430579a6a12 =32\n\
            landing 2 B 2\n\
            put 19d5f57c8e8b3cd760f853bb8d7900d68e10ef02674383de65a9b4d65e419b26 =\n\
            del 6fe4ff1a836fcb881bbe03ff848bb731a5584708153d9bc6dc1d6430579a6a12\n",
        entries: 2,
    },
    // Removals of a name that is there and of one that isn't, and a commit of nothing.
    Row {
        before: "put 61 =31\ncommit\n",
        words: "lead",
        script: "del 61\ncommit\ndel 62\ncommit\ncommit\n",
        head: 1,
        blocks: "landing 2 E 1\n\
            del 19d5f57c8e8b3cd760f853bb8d7900d68e10ef02674383de65a9b4d65e419b26\n\
            landing 3 E 1\n\
            del 6fe4ff1a836fcb881bbe03ff848bb731a5584708153d9bc6dc1d6430579a6a12\n\
            landing 4 E 0\n",
        entries: 3,
    },
    // What is pending stays when a fork lands.
    Row {
        before: "",
        words: "lead",
        script: "put 61 =31\nfork head\nput 62 =32\nland f0\ncommit\n",
        head: 0,
        blocks: "landing 1 R 1\n\
            put 19d5f57c8e8b3cd760f853bb8d7900d68e10ef02674383de65a9b4d65e419b26 =31\n\
            landing 2 P 1\n\
            put 6fe4ff1a836fcb881bbe03ff848bb731a5584708153d9bc6dc1d6430579a6a12 =32\n",
        entries: 3,
    },
    // Entries of other sorts between landings have no block.
    Row {
        before: "put 61 =31\ncommit\nput 61 =32\ncommit\n",
        words: "lead",
        script: "prune 2\ncompact\nput 62 =33\nfork head\nfork head\ndrop f1\nland f0\nprune 3\n",
        head: 2,
        blocks: "landing 3 T 1\n\
            put 6fe4ff1a836fcb881bbe03ff848bb731a5584708153d9bc6dc1d6430579a6a12 =33\n",
        entries: 7,
    },
    // Lines that land nothing, and lines that are refused.
    Row {
        before: "",
        words: "lead",
        script: "put 61 =31\nfork head\nget f0 61\nroot head\nprove v0 61\ncount head\nchunk v0 0 1\nnth v0 0\npin 0\nget p0 61\n\
            unpin 0\nstatus\nnonsense\n\nsession\nland f9\ndrop f0\nland f0\nprune 1\n",
        head: 0,
        blocks: "",
        entries: 2,
    },
    Row {
        before: "put 61 =31\ncommit\n",
        words: "lead --",
        script: "",
        head: 1,
        blocks: "",
        entries: 0,
    },
];

// Whether the blocks of a row's script are written so.
fn is_as_expected<H: Threads + Wait + Sync>(
    rt: &H,
    alloc: Global,
    row: &Row,
) -> Result<bool, Fail> {
    let blocks = with_roots(alloc, row.blocks)?;
    let script = row.script.as_bytes();
    let played = play_after(rt, alloc, row.before, row.words, script, NO_FAULTS)?;
    let ended = has_ended(&played, Status::Done, Some(row.head), &blocks);
    Ok(ended && played.entries == row.entries)
}

#[test]
fn a_block_is_written_for_each_version_that_is_landed(rt: HostRuntime) -> Result<(), Fail> {
    for row in ROWS {
        assert!(rt; is_as_expected(&rt, rt.alloc(), row)?, "of {}", row.script);
    }
    Ok(())
}

// Words that aren't taken.
const OTHER_WORDS: &[&str] = &[
    "lead 1",
    "lead run",
    "lead --workers 0",
    "lead --workers 65",
    "lead --workers 1 --workers 1",
    "leads",
];

// Whether the program doesn't take these words.
fn is_not_taken<H: Threads + Wait + Sync>(
    rt: &H,
    alloc: Global,
    words: &str,
) -> Result<bool, Fail> {
    let played = play_after(rt, alloc, "", words, b"commit\n", NO_INPUT)?;
    Ok(has_ended(&played, Status::Usage, None, b""))
}

#[test]
fn lead_takes_the_number_of_workers_alone(rt: HostRuntime) -> Result<(), Fail> {
    for words in OTHER_WORDS {
        assert!(rt; is_not_taken(&rt, rt.alloc(), words)?, "of {words}");
    }
    Ok(())
}
