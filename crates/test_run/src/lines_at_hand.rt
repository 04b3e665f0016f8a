// Lines at hand that read the head are answered by several workers at once, and puts at hand are read by them, with the replies
// that one worker gives.
use crate::bounds::extend_text;
use jf_play::play::{Faults, has_ended, new_disk, play_line};
use jf_run::status::Status;
use std::alloc::Global;
use std::sync::Wait;
use std::test::Fail;
use std::thread::Threads;

// A part of a script, a part of its replies, by .ci/plain_store.py, and how often each of both stands there.
const PARTS: &[(&str, &str, usize)] = &[
    (
        "put 61 =31\nput 62 =32\ncommit\npin 1\n",
        "0 ok pending 1\n0 ok pending 2\n1 ok commit 1 3e92b77a6f4a7dcc426f134b3415f3af7eb39e5c8ac7599c94f5a3c83fe07425\n\
         1 ok pin 0\n",
        1,
    ),
    ("get head 61\n", "1 ok value =31\n", 130),
    ("get head 63\n", "1 ok none\n", 20),
    (
        "root head\n",
        "1 ok root 3e92b77a6f4a7dcc426f134b3415f3af7eb39e5c8ac7599c94f5a3c83fe07425\n",
        5,
    ),
    (
        "prove head 61\n",
        "1 ok proof 2\nname 61\nclaim =31\n\
         leaf 19d5f57c8e8b3cd760f853bb8d7900d68e10ef02674383de65a9b4d65e419b26 f254fd9353abb55f60a0942b46382c2428aa019d102cd9985275c0fb42a8dbb3\n\
         side 523314ab33c912d434792b42083d03c32d7e90b536b35c355a01ad0bb7925da2\n\
         side 6e340b9cffb37a989ca544e6bb780a2c78901d3fb33738768511a30617afa01d\n",
        3,
    ),
    ("get v0 61\n", "1 ok none\n", 1),
    ("get p0 61\n", "1 ok value =31\n", 1),
    (
        "put 63 =33\ncommit\n",
        "1 ok pending 1\n2 ok commit 2 45ca5fd13d3c2aa30c53349d4c1da835de3e3fa0bbc51390419b0db5127f42dc\n",
        1,
    ),
    ("get head 63\n", "2 ok value =33\n", 130),
    ("get head\n", "2 no syntax\n", 1),
    // A line of 9,000 bytes and more.
    ("get head ", "", 1),
    ("61", "", 4_500),
    ("\n", "2 no long\n", 1),
    ("get head 62\n", "2 ok value =32\n", 120),
    (
        "chunk head 1 2\n",
        "2 ok chunk 2 1 0\n\
         entry 6fe4ff1a836fcb881bbe03ff848bb731a5584708153d9bc6dc1d6430579a6a12 =32\n\
         entry c7366da1307f33b7b9361dbd9b0988cf19b0cf4857db81c32d832f656dc5022a =33\n",
        1,
    ),
    (
        "prove head 64\n",
        "2 ok proof 2\nname 64\nclaim none\n\
         leaf 19d5f57c8e8b3cd760f853bb8d7900d68e10ef02674383de65a9b4d65e419b26 f254fd9353abb55f60a0942b46382c2428aa019d102cd9985275c0fb42a8dbb3\n\
         side 523314ab33c912d434792b42083d03c32d7e90b536b35c355a01ad0bb7925da2\n\
         side 89ea75d50212dbe4f7e78b0ae6f9659db8cf02cfffcf1c2c9c2fbd6172927890\n",
        2,
    ),
    ("count head\n", "2 ok count 3\n", 60),
    (
        "nth head 0\n",
        "2 ok nth 19d5f57c8e8b3cd760f853bb8d7900d68e10ef02674383de65a9b4d65e419b26 =31\n",
        60,
    ),
    // With these the script has more than 200,000 bytes, so that puts stand in several pieces of it.
    (
        "put 61 =30303030303030303030303030303030303030303030303030303030303030303030303030303030\n",
        "2 ok pending 1\n",
        1_700,
    ),
    ("del 62\n", "2 ok pending 2\n", 1),
    ("put 62 =\n", "2 ok pending 2\n", 800),
    ("put 6 =31\n", "2 no syntax\n", 3_000),
    ("put 62 =32\n", "2 ok pending 2\n", 800),
    ("get head 61\n", "2 ok value =31\n", 1),
    ("put 61 =31\n", "2 ok pending 2\n", 1),
    (
        "commit\n",
        "3 ok commit 3 45ca5fd13d3c2aa30c53349d4c1da835de3e3fa0bbc51390419b0db5127f42dc\n",
        1,
    ),
    ("get head 62\n", "3 ok value =32\n", 3),
];

// The words of a run, and how many bytes of the script the source gives at most at once.
const RUNS: &[(&str, usize)] = &[
    ("run --workers 1", 65_536),
    ("run --workers 4", 65_536),
    ("run --workers 64", 262_144),
    ("run --workers 2", 20_000),
];

// Appends the script and its replies.
fn add_parts(
    script: &mut Vec<u8>,
    replies: &mut Vec<u8>,
    parts: &[(&str, &str, usize)],
) -> Result<(), Fail> {
    for (lines, answers, times) in parts {
        extend_text(script, lines.as_bytes(), *times)?;
        extend_text(replies, answers.as_bytes(), *times)?;
    }
    Ok(())
}

// Whether the script over a new store, with the words of a line, gets its replies.
fn has_replies<H: Threads + Wait + Sync>(
    rt: &H,
    alloc: Global,
    line: &str,
    piece: usize,
) -> Result<bool, Fail> {
    let mut script = Vec::new(alloc);
    let mut replies = Vec::new(alloc);
    add_parts(&mut script, &mut replies, PARTS)?;
    let disk = new_disk(alloc, b"", &[])?;
    let faults = Faults {
        piece,
        source: &[],
        sink: &[],
    };
    let played = play_line(rt, alloc, disk, line, &script, faults)?;
    Ok(has_ended(&played, Status::Done, Some(0), &replies))
}

#[test]
fn lines_at_hand_get_the_same_replies(rt: HostRuntime) -> Result<(), Fail> {
    for (line, piece) in RUNS {
        assert!(rt; has_replies(&rt, rt.alloc(), line, *piece)?, "{line}");
    }
    Ok(())
}
