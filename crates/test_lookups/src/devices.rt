// Devices that fail while a reply is judged, words that the mode doesn't take, and a disk that is never asked.
use jf_disk::{Disk, MemDisk};
use jf_play::play::{
    Faults, NO_FAULTS, NO_INPUT, NO_OUTPUT, Played, has_ended, new_disk, play_line,
};
use jf_run::status::Status;
use std::alloc::Global;
use std::sync::Wait;
use std::test::Fail;
use std::thread::Threads;

// The words that ask for the name 61 under the root of the map that has `1` there.
const WORDS: &str = "judge 9bb72c39f13d2b512ea34eae99a28f6d807a134ab125e89172310c6f6ea72f8f 61";

// What the store answers to `prove` of it, in 169 bytes.
const REPLY: &[u8] = b"1 ok proof 0\n\
    name 61\n\
    claim =31\n\
    leaf 19d5f57c8e8b3cd760f853bb8d7900d68e10ef02674383de65a9b4d65e419b26 f254fd9353abb55f60a0942b46382c2428aa019d102cd9985275c0fb42a8dbb3\n";

// The result of words and the reply over files that represent no store, on a disk that fails in its first call.
fn judged_run<H: Threads + Wait + Sync>(
    rt: &H,
    alloc: Global,
    words: &str,
    faults: Faults,
) -> Result<Played<MemDisk>, Fail> {
    let disk = new_disk(alloc, b"\x01\x07\0", &[0])?;
    play_line(rt, alloc, disk, words, REPLY, faults)
}

// Whether a run ended so, and the disk had no call.
fn has_judged(played: &Played<MemDisk>, status: Status, text: &[u8]) -> bool {
    has_ended(played, status, None, text) && played.disk.moment() == 0
}

// Devices of which a call fails, how it ends, and what was written. The source gives 100 bytes in a call, and the sink takes
// 7.
const FAILING: &[(Faults, Status, &[u8])] = &[
    (NO_FAULTS, Status::Done, b"value =31\n"),
    (NO_INPUT, Status::ReadFault, b""),
    (
        Faults {
            piece: 100,
            source: &[2],
            sink: &[],
        },
        Status::ReadFault,
        b"",
    ),
    (NO_OUTPUT, Status::WriteFault, b""),
    (
        Faults {
            piece: 1,
            source: &[],
            sink: &[1],
        },
        Status::WriteFault,
        b"value =",
    ),
];

// Whether the devices of a row end so.
fn ends_so<H: Threads + Wait + Sync>(
    rt: &H,
    alloc: Global,
    row: &(Faults, Status, &[u8]),
) -> Result<bool, Fail> {
    let played = judged_run(rt, alloc, WORDS, row.0)?;
    Ok(has_judged(&played, row.1, row.2))
}

#[test]
fn a_device_that_fails_is_told_and_the_disk_is_never_asked(rt: HostRuntime) -> Result<(), Fail> {
    for (number, row) in FAILING.iter().enumerate() {
        assert!(rt; ends_so(&rt, rt.alloc(), row)?, "of {number}");
    }
    Ok(())
}

// Words that the mode doesn't take.
const OTHER_WORDS: &[&str] = &[
    "judge",
    "judge 9bb72c39f13d2b512ea34eae99a28f6d807a134ab125e89172310c6f6ea72f8f",
    "judge 61 9bb72c39f13d2b512ea34eae99a28f6d807a134ab125e89172310c6f6ea72f8f",
    "judge 9bb72c39f13d2b512ea34eae99a28f6d807a134ab125e89172310c6f6ea72f8f 61 62",
    "judge 9bb72c39f13d2b512ea34eae99a28f6d807a134ab125e89172310c6f6ea72f8f 61 --workers 2",
    "judge 9bb72c39f13d2b512ea34eae99a28f6d807a134ab125e89172310c6f6ea72f8f 6",
    "judge 9bb72c39f13d2b512ea34eae99a28f6d807a134ab125e89172310c6f6ea72f8f 6A",
    "judge 9bb72c39f13d2b512ea34eae99a28f6d807a134ab125e89172310c6f6ea72f8f =31",
    "judge 9bb72c39f13d2b512ea34eae99a28f6d807a134ab125e89172310c6f6ea72f8 61",
];

// Whether the program doesn't take these words.
fn is_not_taken<H: Threads + Wait + Sync>(
    rt: &H,
    alloc: Global,
    words: &str,
) -> Result<bool, Fail> {
    let played = judged_run(rt, alloc, words, NO_FAULTS)?;
    Ok(has_judged(&played, Status::Usage, b""))
}

#[test]
fn judge_takes_a_root_and_a_name_and_no_option(rt: HostRuntime) -> Result<(), Fail> {
    for words in OTHER_WORDS {
        assert!(rt; is_not_taken(&rt, rt.alloc(), words)?, "of {words}");
    }
    Ok(())
}

#[test]
fn a_word_may_stand_before_the_root(rt: HostRuntime) -> Result<(), Fail> {
    let words = "judge -- 9bb72c39f13d2b512ea34eae99a28f6d807a134ab125e89172310c6f6ea72f8f 61";
    let played = judged_run(&rt, rt.alloc(), words, NO_FAULTS)?;
    assert!(rt; has_judged(&played, Status::Done, b"value =31\n"));
    Ok(())
}
