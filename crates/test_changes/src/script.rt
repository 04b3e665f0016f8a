// The script whose runs are stopped, its replies, and what its files represent after each of its changes. The values are
// from a reference in Python that keeps whole maps, and its `hashlib`.
use jf_disk::MemDisk;
use jf_play::files::bytes_of;
use jf_play::play::{Faults, NO_FAULTS, Played, has_ended, new_disk, play};
use jf_run::status::Status;
use std::alloc::Global;
use std::sync::Wait;
use std::test::Fail;
use std::thread::Threads;

// A commit, a fork that lands, a floor below a pin, a new generation, and a commit after it.
pub(crate) const SCRIPT: &[u8] =
    b"put 61 =31\ncommit\nput 62 =32\nfork head\nland f0\npin 1\nprune 2\ncompact\nput 63 =33\ncommit\n";

// The replies to its lines.
pub(crate) const REPLIES: &[u8] = b"0 ok pending 1\n\
    1 ok commit 1 9bb72c39f13d2b512ea34eae99a28f6d807a134ab125e89172310c6f6ea72f8f\n\
    1 ok pending 1\n\
    2 ok fork f0 3e92b77a6f4a7dcc426f134b3415f3af7eb39e5c8ac7599c94f5a3c83fe07425\n\
    3 ok land 2 3e92b77a6f4a7dcc426f134b3415f3af7eb39e5c8ac7599c94f5a3c83fe07425\n\
    3 ok pin 0\n\
    4 ok prune 2 1\n\
    5 ok compact 2\n\
    5 ok pending 1\n\
    6 ok commit 3 45ca5fd13d3c2aa30c53349d4c1da835de3e3fa0bbc51390419b0db5127f42dc\n";

// How many lines end in these bytes.
pub(crate) fn lines_in(bytes: &[u8]) -> usize {
    let mut lines: usize = 0;
    for byte in bytes {
        lines = lines.saturating_add(usize::from(*byte == b'\n'));
    }
    lines
}

// Whether a text is the replies to so many lines.
pub(crate) fn are_replies(text: &[u8], lines: usize) -> bool {
    let whole = text.is_empty() || text.ends_with(b"\n");
    whole && REPLIES.starts_with(text) && lines_in(text) == lines
}

// Runs the script over a new disk, of which these calls fail, with faults of the source and of the sink.
pub(crate) fn run_script<H: Threads + Wait + Sync>(
    rt: &H,
    alloc: Global,
    failing: &[u64],
    faults: Faults,
) -> Result<Played<MemDisk>, Fail> {
    let disk = new_disk(alloc, b"", failing)?;
    play(rt, alloc, disk, "run", SCRIPT, faults)
}

// For each number of entries that a run has made: the state of its files, a place in `STATES`. The fork changes no file.
const AFTER: &[usize] = &[0, 1, 1, 2, 3, 4, 5];

// The state of the files after so many entries, and none if a run makes fewer.
pub(crate) fn state_after(entries: u64) -> usize {
    AFTER.get(entries as usize).copied().unwrap_or(STATES.len())
}

// The last state.
pub(crate) const LAST: usize = 5;

// Lines that tell the states apart.
const READS: &[u8] =
    b"status\nroot v0\nroot v1\nroot v2\nroot v3\nget head 61\nget v1 62\nget head 62\nget head 63\ncount head\n";

// The replies to the reads after `root v0`, at version 2.
const AT_VERSION_2: &[u8] =
    b"0 ok root 9bb72c39f13d2b512ea34eae99a28f6d807a134ab125e89172310c6f6ea72f8f\n\
    0 ok root 3e92b77a6f4a7dcc426f134b3415f3af7eb39e5c8ac7599c94f5a3c83fe07425\n\
    0 no future 2\n\
    0 ok value =31\n\
    0 ok none\n\
    0 ok value =32\n\
    0 ok none\n\
    0 ok count 2\n";

// The version at which each state is opened, and the replies to the reads, in parts.
const STATES: &[(u64, &[&[u8]])] = &[
    (
        0,
        &[
            b"0 ok status base 0 floor 0 retired 0 head 0 kept 1 forks 0 generation 1\n\
            0 ok root 6e340b9cffb37a989ca544e6bb780a2c78901d3fb33738768511a30617afa01d\n\
            0 no future 0\n\
            0 no future 0\n\
            0 no future 0\n\
            0 ok none\n\
            0 no future 0\n\
            0 ok none\n\
            0 ok none\n\
            0 ok count 0\n",
        ],
    ),
    (
        1,
        &[
            b"0 ok status base 0 floor 0 retired 0 head 1 kept 2 forks 0 generation 1\n\
            0 ok root 6e340b9cffb37a989ca544e6bb780a2c78901d3fb33738768511a30617afa01d\n\
            0 ok root 9bb72c39f13d2b512ea34eae99a28f6d807a134ab125e89172310c6f6ea72f8f\n\
            0 no future 1\n\
            0 no future 1\n\
            0 ok value =31\n\
            0 ok none\n\
            0 ok none\n\
            0 ok none\n\
            0 ok count 1\n",
        ],
    ),
    (
        2,
        &[
            b"0 ok status base 0 floor 0 retired 0 head 2 kept 5 forks 0 generation 1\n\
            0 ok root 6e340b9cffb37a989ca544e6bb780a2c78901d3fb33738768511a30617afa01d\n",
            AT_VERSION_2,
        ],
    ),
    (
        2,
        &[
            b"0 ok status base 0 floor 1 retired 1 head 2 kept 4 forks 0 generation 1\n\
            0 no retired 1\n",
            AT_VERSION_2,
        ],
    ),
    (
        2,
        &[
            b"0 ok status base 0 floor 1 retired 1 head 2 kept 4 forks 0 generation 2\n\
            0 no retired 1\n",
            AT_VERSION_2,
        ],
    ),
    (
        3,
        &[
            b"0 ok status base 0 floor 1 retired 1 head 3 kept 6 forks 0 generation 2\n\
            0 no retired 1\n\
            0 ok root 9bb72c39f13d2b512ea34eae99a28f6d807a134ab125e89172310c6f6ea72f8f\n\
            0 ok root 3e92b77a6f4a7dcc426f134b3415f3af7eb39e5c8ac7599c94f5a3c83fe07425\n\
            0 ok root 45ca5fd13d3c2aa30c53349d4c1da835de3e3fa0bbc51390419b0db5127f42dc\n\
            0 ok value =31\n\
            0 ok none\n\
            0 ok value =32\n\
            0 ok value =33\n\
            0 ok count 3\n",
        ],
    ),
];

// The state at which files were opened whose reads were answered so, and none if there is no such state.
fn state_of(alloc: Global, played: &Played<MemDisk>) -> Result<usize, Fail> {
    for (state, row) in STATES.iter().enumerate() {
        let replies = bytes_of(alloc, row.1)?;
        if has_ended(played, Status::Done, Some(row.0), &replies) {
            return Ok(state);
        }
    }
    Ok(STATES.len())
}

// Opens a disk, and finds its state.
pub(crate) fn opened_state<H: Threads + Wait + Sync>(
    rt: &H,
    alloc: Global,
    disk: Box<MemDisk>,
) -> Result<usize, Fail> {
    let played = play(rt, alloc, disk, "run", READS, NO_FAULTS)?;
    state_of(alloc, &played)
}

// Opens a disk, and fails unless its state is one of these.
pub(crate) fn is_between<H: Threads + Wait + Sync>(
    rt: &H,
    alloc: Global,
    disk: Box<MemDisk>,
    states: (usize, usize),
) -> Result<(), Fail> {
    let state = opened_state(rt, alloc, disk)?;
    if states.0 <= state && state <= states.1 && state <= LAST {
        Ok(())
    } else {
        Err(Fail::new(state))
    }
}
