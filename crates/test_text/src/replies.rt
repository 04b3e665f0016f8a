// Replies, and the lines that they are written as.
use jf_path::Bytes;
use jf_script::{Refusal, Reply, write_reply};
use std::alloc::Global;
use std::test::Fail;

// Fails unless the reply is written as the text `wanted`.
fn is_written(alloc: Global, seen: u64, reply: Reply, wanted: &str) -> Result<(), Fail> {
    let mut out = Bytes::new(alloc);
    write_reply(seen, &reply, &mut out)?;
    if out.as_slice() == wanted.as_bytes() {
        Ok(())
    } else {
        Err(Fail::new(wanted))
    }
}

const REFUSALS: &[(u64, Refusal, &str)] = &[
    (0, Refusal::Syntax, "0 no syntax\n"),
    (0, Refusal::Long, "0 no long\n"),
    (9, Refusal::Pending, "9 no pending\n"),
    (2, Refusal::Unknown, "2 no unknown\n"),
    (3, Refusal::Gone, "3 no gone\n"),
    (2, Refusal::Keys(10001), "2 no keys 10001\n"),
    (2, Refusal::Future(3), "2 no future 3\n"),
    (
        18446744073709551615,
        Refusal::Retired(18446744073709551615),
        "18446744073709551615 no retired 18446744073709551615\n",
    ),
    (2, Refusal::PinsFull, "2 no pinsfull\n"),
    (2, Refusal::NoPin, "2 no nopin\n"),
    (2, Refusal::ForksFull, "2 no forksfull\n"),
    (1, Refusal::Range(2), "1 no range 2\n"),
    (2, Refusal::Last, "2 no last\n"),
];

#[test]
fn writes_refusals(rt: HostRuntime) -> Result<(), Fail> {
    for (seen, refusal, wanted) in REFUSALS {
        is_written(rt.alloc(), *seen, Reply::No(*refusal), wanted)?;
    }
    Ok(())
}

#[test]
fn writes_replies_to_changes(rt: HostRuntime) -> Result<(), Fail> {
    let alloc = rt.alloc();
    is_written(alloc, 0, Reply::Pending { count: 1 }, "0 ok pending 1\n")?;
    is_written(
        alloc,
        1,
        Reply::Commit {
            version: 1,
            root: [0xab; 32],
        },
        "1 ok commit 1 abababababababababababababababababababababababababababababababab\n",
    )?;
    is_written(
        alloc,
        1,
        Reply::Fork {
            id: 0,
            root: [0x0f; 32],
        },
        "1 ok fork f0 0f0f0f0f0f0f0f0f0f0f0f0f0f0f0f0f0f0f0f0f0f0f0f0f0f0f0f0f0f0f0f0f\n",
    )?;
    is_written(
        alloc,
        4,
        Reply::Land {
            version: 3,
            root: [0xf0; 32],
        },
        "4 ok land 3 f0f0f0f0f0f0f0f0f0f0f0f0f0f0f0f0f0f0f0f0f0f0f0f0f0f0f0f0f0f0f0f0\n",
    )?;
    is_written(alloc, 3, Reply::Drop { count: 2 }, "3 ok drop 2\n")?;
    is_written(alloc, 3, Reply::Value { value: None }, "3 ok none\n")?;
    is_written(
        alloc,
        1,
        Reply::Value {
            value: Some(Bytes::new(alloc)),
        },
        "1 ok value =\n",
    )?;
    is_written(
        alloc,
        3,
        Reply::Value {
            value: Some(Bytes::copy_of(alloc, b"1")?),
        },
        "3 ok value =31\n",
    )?;
    is_written(
        alloc,
        0,
        Reply::Root { root: [0; 32] },
        "0 ok root 0000000000000000000000000000000000000000000000000000000000000000\n",
    )?;
    Ok(())
}

#[test]
fn writes_replies_to_reads(rt: HostRuntime) -> Result<(), Fail> {
    let alloc = rt.alloc();
    is_written(alloc, 2, Reply::Proof { siblings: 256 }, "2 ok proof 256\n")?;
    is_written(
        alloc,
        2,
        Reply::Chunk {
            entries: 1000,
            depth: 10,
            siblings: 3,
        },
        "2 ok chunk 1000 10 3\n",
    )?;
    is_written(alloc, 1, Reply::Count { count: 2 }, "1 ok count 2\n")?;
    is_written(
        alloc,
        1,
        Reply::Nth {
            key: [0x9a; 32],
            value: Bytes::copy_of(alloc, &[0, 255])?,
        },
        "1 ok nth 9a9a9a9a9a9a9a9a9a9a9a9a9a9a9a9a9a9a9a9a9a9a9a9a9a9a9a9a9a9a9a9a =00ff\n",
    )?;
    is_written(alloc, 5, Reply::Pin { place: 7 }, "5 ok pin 7\n")?;
    is_written(alloc, 5, Reply::Unpin { version: 4 }, "5 ok unpin 4\n")?;
    is_written(
        alloc,
        6,
        Reply::Prune { bound: 5, floor: 4 },
        "6 ok prune 5 4\n",
    )?;
    is_written(
        alloc,
        2,
        Reply::Compact { generation: 2 },
        "2 ok compact 2\n",
    )?;
    is_written(
        alloc,
        2,
        Reply::Status {
            base: 0,
            floor: 1,
            retired: 2,
            head: 3,
            kept: 4,
            forks: 5,
            generation: 6,
        },
        "2 ok status base 0 floor 1 retired 2 head 3 kept 4 forks 5 generation 6\n",
    )?;
    Ok(())
}

#[test]
fn appends_after_what_stands(rt: HostRuntime) -> Result<(), Fail> {
    let mut out = Bytes::new(rt.alloc());
    write_reply(1, &Reply::Pin { place: 0 }, &mut out)?;
    write_reply(2, &Reply::No(Refusal::Gone), &mut out)?;
    assert_eq!(rt; out.as_slice(), b"1 ok pin 0\n2 no gone\n".as_slice());
    Ok(())
}
