// Pins: which place a version gets, what is read at it, and what it keeps.
use jf_play::play::tells;
use std::test::Fail;

// What a script shows, its lines, and their replies, where letters represent roots as in `with_roots`. The values are from a
// reference in Python that keeps whole maps, and its `hashlib`.
const ROWS: &[(&str, &str, &str)] = &[
    (
        "a pinned version is read after it is retired",
        "put 61 =31\n\
         commit\n\
         commit\n\
         commit\n\
         pin 1\n\
         prune 3\n\
         get v1 61\n\
         get p0 61\n\
         unpin 0\n\
         prune 3\n\
         status\n",
        "0 ok pending 1\n\
         1 ok commit 1 R\n\
         2 ok commit 2 R\n\
         3 ok commit 3 R\n\
         3 ok pin 0\n\
         4 ok prune 3 1\n\
         4 no retired 3\n\
         4 ok value =31\n\
         4 ok unpin 1\n\
         5 ok prune 3 3\n\
         5 ok status base 0 floor 3 retired 3 head 3 kept 1 forks 0 generation 1\n",
    ),
    (
        "eight places",
        "commit\n\
         pin 1\npin 1\npin 1\npin 1\npin 1\npin 1\npin 1\npin 1\npin 1\n\
         unpin 7\n\
         unpin 7\n\
         get p9 61\n",
        "1 ok commit 1 E\n\
         1 ok pin 0\n\
         1 ok pin 1\n\
         1 ok pin 2\n\
         1 ok pin 3\n\
         1 ok pin 4\n\
         1 ok pin 5\n\
         1 ok pin 6\n\
         1 ok pin 7\n\
         1 no pinsfull\n\
         1 ok unpin 1\n\
         1 no nopin\n\
         1 no nopin\n",
    ),
    (
        "the least free place is taken",
        "commit\n\
         pin 0\n\
         pin 1\n\
         pin 0\n\
         unpin 1\n\
         unpin 0\n\
         pin 1\n\
         pin 1\n\
         pin 1\n\
         unpin 2\n\
         pin 0\n",
        "1 ok commit 1 E\n\
         1 ok pin 0\n\
         1 ok pin 1\n\
         1 ok pin 2\n\
         1 ok unpin 1\n\
         1 ok unpin 0\n\
         1 ok pin 0\n\
         1 ok pin 1\n\
         1 ok pin 3\n\
         1 ok unpin 0\n\
         1 ok pin 2\n",
    ),
    (
        "each read of a place",
        "put 61 =31\n\
         commit\n\
         put 62 =32\n\
         commit\n\
         put 61 =32\n\
         commit\n\
         pin 1\n\
         pin 2\n\
         prune 3\n\
         root p0\n\
         get p0 61\n\
         get p0 62\n\
         count p0\n\
         nth p0 0\n\
         nth p0 1\n\
         chunk p0 0 5\n\
         chunk p0 1 1\n\
         prove p0 62\n\
         root p1\n\
         count p1\n\
         root head\n",
        "0 ok pending 1\n\
         1 ok commit 1 R\n\
         1 ok pending 1\n\
         2 ok commit 2 P\n\
         2 ok pending 1\n\
         3 ok commit 3 8d2d6fe1a2764e5bddda64e104c0a7d96917b877f05adfec95d8351eba2b8284\n\
         3 ok pin 0\n\
         3 ok pin 1\n\
         4 ok prune 3 1\n\
         4 ok root R\n\
         4 ok value =31\n\
         4 ok none\n\
         4 ok count 1\n\
         4 ok nth 19d5f57c8e8b3cd760f853bb8d7900d68e10ef02674383de65a9b4d65e419b26 =31\n\
         4 no range 1\n\
         4 ok chunk 1 0 0\n\
         entry 19d5f57c8e8b3cd760f853bb8d7900d68e10ef02674383de65a9b4d65e419b26 =31\n\
         4 no range 1\n\
         4 ok proof 0\n\
         name 62\n\
         claim none\n\
         leaf 19d5f57c8e8b3cd760f853bb8d7900d68e10ef02674383de65a9b4d65e419b26 f254fd9353abb55f60a0942b46382c2428aa019d102cd9985275c0fb42a8dbb3\n\
         4 ok root P\n\
         4 ok count 2\n\
         4 ok root 8d2d6fe1a2764e5bddda64e104c0a7d96917b877f05adfec95d8351eba2b8284\n",
    ),
    (
        "a place that holds nothing",
        "get p0 61\n\
         root p0\n\
         prove p0 61\n\
         chunk p0 0 1\n\
         count p0\n\
         nth p0 0\n\
         unpin 0\n\
         commit\n\
         pin 1\n\
         get p1 61\n\
         get p7 61\n\
         get p8 61\n\
         unpin 8\n\
         unpin 18446744073709551615\n\
         root p18446744073709551615\n\
         unpin 0\n\
         get p0 61\n\
         unpin 0\n",
        "0 no nopin\n\
         0 no nopin\n\
         0 no nopin\n\
         0 no nopin\n\
         0 no nopin\n\
         0 no nopin\n\
         0 no nopin\n\
         1 ok commit 1 E\n\
         1 ok pin 0\n\
         1 no nopin\n\
         1 no nopin\n\
         1 no nopin\n\
         1 no nopin\n\
         1 no nopin\n\
         1 no nopin\n\
         1 ok unpin 1\n\
         1 no nopin\n\
         1 no nopin\n",
    ),
    (
        "versions that cannot be pinned",
        "commit\n\
         commit\n\
         commit\n\
         pin 4\n\
         pin 18446744073709551615\n\
         prune 2\n\
         pin 1\n\
         pin 0\n\
         pin 2\n\
         pin 3\n\
         root p0\n\
         root p1\n",
        "1 ok commit 1 E\n\
         2 ok commit 2 E\n\
         3 ok commit 3 E\n\
         3 no future 3\n\
         3 no future 3\n\
         4 ok prune 2 2\n\
         4 no retired 2\n\
         4 no retired 2\n\
         4 ok pin 0\n\
         4 ok pin 1\n\
         4 ok root E\n\
         4 ok root E\n",
    ),
    (
        "a version below the floor is no longer pinned",
        "commit\n\
         commit\n\
         prune 2\n\
         pin 1\n\
         prune 1\n\
         get v0 61\n",
        "1 ok commit 1 E\n\
         2 ok commit 2 E\n\
         3 ok prune 2 2\n\
         3 no retired 2\n\
         3 no retired 2\n\
         3 no retired 2\n",
    ),
    (
        "the least pin keeps the floor",
        "commit\n\
         commit\n\
         commit\n\
         commit\n\
         pin 3\n\
         pin 1\n\
         pin 2\n\
         pin 1\n\
         prune 4\n\
         unpin 1\n\
         prune 4\n\
         unpin 3\n\
         prune 4\n\
         unpin 2\n\
         prune 4\n\
         unpin 0\n\
         prune 4\n",
        "1 ok commit 1 E\n\
         2 ok commit 2 E\n\
         3 ok commit 3 E\n\
         4 ok commit 4 E\n\
         4 ok pin 0\n\
         4 ok pin 1\n\
         4 ok pin 2\n\
         4 ok pin 3\n\
         5 ok prune 4 1\n\
         5 ok unpin 1\n\
         6 ok prune 4 1\n\
         6 ok unpin 1\n\
         7 ok prune 4 2\n\
         7 ok unpin 2\n\
         8 ok prune 4 3\n\
         8 ok unpin 3\n\
         9 ok prune 4 4\n",
    ),
    (
        "a pin of the head",
        "put 61 =31\n\
         commit\n\
         pin 1\n\
         put 61 =32\n\
         commit\n\
         commit\n\
         prune 3\n\
         get p0 61\n\
         root p0\n\
         get v2 61\n\
         get v3 61\n\
         status\n",
        "0 ok pending 1\n\
         1 ok commit 1 R\n\
         1 ok pin 0\n\
         1 ok pending 1\n\
         2 ok commit 2 S\n\
         3 ok commit 3 S\n\
         4 ok prune 3 1\n\
         4 ok value =31\n\
         4 ok root R\n\
         4 no retired 3\n\
         4 ok value =32\n\
         4 ok status base 0 floor 1 retired 3 head 3 kept 3 forks 0 generation 1\n",
    ),
    (
        "forks stand beside pins",
        "put 61 =31\n\
         commit\n\
         pin 0\n\
         pin 1\n\
         put 61 =32\n\
         fork head\n\
         land f0\n\
         get p0 61\n\
         get p1 61\n\
         get head 61\n\
         prune 2\n\
         get p1 61\n\
         unpin 0\n\
         prune 2\n\
         get p1 61\n\
         status\n",
        "0 ok pending 1\n\
         1 ok commit 1 R\n\
         1 ok pin 0\n\
         1 ok pin 1\n\
         1 ok pending 1\n\
         2 ok fork f0 S\n\
         3 ok land 2 S\n\
         3 ok none\n\
         3 ok value =31\n\
         3 ok value =32\n\
         4 ok prune 2 0\n\
         4 ok value =31\n\
         4 ok unpin 0\n\
         5 ok prune 2 1\n\
         5 ok value =31\n\
         5 ok status base 0 floor 1 retired 2 head 2 kept 2 forks 0 generation 1\n",
    ),
];

#[test]
fn pinned_versions_stay_readable(rt: HostRuntime) -> Result<(), Fail> {
    let alloc = rt.alloc();
    for (what, script, want) in ROWS {
        assert!(rt; tells(&rt, alloc, script, want)?, "{what}");
    }
    Ok(())
}
