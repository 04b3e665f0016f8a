// Values and roots of the head and of old versions.
use jf_disk::MemDisk;
use jf_play::play::{answers, is_answered_by, new_disk};
use jf_play::roots::with_roots;
use std::alloc::Global;
use std::sync::Wait;
use std::test::Fail;
use std::thread::Threads;

const ROWS: &[(&str, &str)] = &[
    (
        "put 61 =31\ncommit\nroot v1\n",
        "0 ok pending 1\n1 ok commit 1 R\n1 ok root R\n",
    ),
    (
        "put 61 =\ncommit\nget head 61\nget head 62\n",
        "0 ok pending 1\n1 ok commit 1 B\n1 ok value =\n1 ok none\n",
    ),
    (
        "put 61 =31\ncommit\nput 61 =\ncommit\nput 61 =31\nput 62 =32\ncommit\n\
         get v0 61\nget v1 61\nget v2 61\nget v3 61\nget head 61\n\
         get v0 62\nget v2 62\nget v3 62\n\
         root v0\nroot v1\nroot v2\nroot v3\nroot head\n",
        "0 ok pending 1\n1 ok commit 1 R\n1 ok pending 1\n2 ok commit 2 B\n2 ok pending 1\n2 ok pending 2\n3 ok commit 3 P\n\
         3 ok none\n3 ok value =31\n3 ok value =\n3 ok value =31\n3 ok value =31\n\
         3 ok none\n3 ok none\n3 ok value =32\n\
         3 ok root E\n3 ok root R\n3 ok root B\n3 ok root P\n3 ok root P\n",
    ),
    (
        "put 61 =31\nput 62 =32\ncommit\ndel 62\nget head 62\ncommit\nget head 62\nget v1 62\nroot head\n",
        "0 ok pending 1\n0 ok pending 2\n1 ok commit 1 P\n1 ok pending 1\n1 ok value =32\n2 ok commit 2 R\n2 ok none\n2 ok value =32\n2 ok root R\n",
    ),
    (
        "del 61\ncommit\nget head 61\n",
        "0 ok pending 1\n1 ok commit 1 E\n1 ok none\n",
    ),
    (
        "put 61 =31\ndel 61\ncommit\nget head 61\n",
        "0 ok pending 1\n0 ok pending 1\n1 ok commit 1 E\n1 ok none\n",
    ),
    (
        "del 61\nput 61 =31\ncommit\nget head 61\n",
        "0 ok pending 1\n0 ok pending 1\n1 ok commit 1 R\n1 ok value =31\n",
    ),
    (
        "put 61 =31\ndel 62\ncommit\nroot head\n",
        "0 ok pending 1\n0 ok pending 2\n1 ok commit 1 R\n1 ok root R\n",
    ),
    (
        "put 61 =00ff7f\ncommit\nget v1 61\n",
        "0 ok pending 1\n1 ok commit 1 c20693d9f88c65a4c937e3cfcd22decbc79fdc10c6d12d03d674ee3a6fdff070\n1 ok value =00ff7f\n",
    ),
];

#[test]
fn versions_are_read(rt: HostRuntime) -> Result<(), Fail> {
    let alloc = rt.alloc();
    for (script, want) in ROWS {
        is_answered_by(&rt, alloc, script, want)?;
    }
    Ok(())
}

// A disk with two versions.
fn with_two<H: Threads + Wait + Sync>(rt: &H, alloc: Global) -> Result<Box<MemDisk>, Fail> {
    let want = with_roots(
        alloc,
        "0 ok pending 1\n1 ok commit 1 R\n1 ok pending 1\n2 ok commit 2 B\n",
    )?;
    let script = b"put 61 =31\ncommit\nput 61 =\ncommit\n";
    answers(rt, alloc, new_disk(alloc, b"", &[])?, script, 0, &want)
}

#[test]
fn old_versions_are_read_after_opening(rt: HostRuntime) -> Result<(), Fail> {
    let alloc = rt.alloc();
    let disk = with_two(&rt, alloc)?;
    let want = with_roots(
        alloc,
        "0 ok value =31\n0 ok value =\n0 no future 2\n0 ok root E\n0 ok root R\n0 ok root B\n0 no future 2\n",
    )?;
    let script = b"get v1 61\nget v2 61\nget v3 61\nroot v0\nroot v1\nroot v2\nroot v3";
    let _ = answers(&rt, alloc, disk, script, 2, &want)?;
    Ok(())
}
