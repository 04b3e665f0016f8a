// Versions that are retired: what is refused then, the floor, and what is kept.
use jf_play::play::tells;
use std::test::Fail;

// What a script shows, its lines, and their replies, where letters represent roots as in `with_roots`. The values are from a
// reference in Python that keeps whole maps, and its `hashlib`.
const ROWS: &[(&str, &str, &str)] = &[
    (
        "nodes go with the versions that have them",
        "put 61 =01\n\
         put 62 =02\n\
         commit\n\
         del 62\n\
         commit\n\
         status\n\
         prune 1\n\
         status\n\
         prune 2\n\
         status\n",
        "0 ok pending 1\n\
         0 ok pending 2\n\
         1 ok commit 1 3b2dc3a7e43b12da08aec6c1647a85c56d1ff4080a2c08821aa4b3b064aafbcd\n\
         1 ok pending 1\n\
         2 ok commit 2 8a412606c683a590eee20bb68bede209e63f414ed7a2399fb4a84d85178c81eb\n\
         2 ok status base 0 floor 0 retired 0 head 2 kept 5 forks 0 generation 1\n\
         3 ok prune 1 1\n\
         3 ok status base 0 floor 1 retired 1 head 2 kept 4 forks 0 generation 1\n\
         4 ok prune 2 2\n\
         4 ok status base 0 floor 2 retired 2 head 2 kept 1 forks 0 generation 1\n",
    ),
    (
        "versions above the head",
        "commit\n\
         commit\n\
         commit\n\
         get v9 61\n\
         prune 9\n\
         pin 9\n\
         prune 4\n\
         prune 18446744073709551615\n\
         status\n",
        "1 ok commit 1 E\n\
         2 ok commit 2 E\n\
         3 ok commit 3 E\n\
         3 no future 3\n\
         3 no future 3\n\
         3 no future 3\n\
         3 no future 3\n\
         3 no future 3\n\
         3 ok status base 0 floor 0 retired 0 head 3 kept 4 forks 0 generation 1\n",
    ),
    (
        "a bound of 0, and the same bound again",
        "prune 0\n\
         prune 0\n\
         commit\n\
         prune 0\n\
         prune 1\n\
         prune 1\n\
         prune 0\n\
         status\n",
        "1 ok prune 0 0\n\
         2 ok prune 0 0\n\
         3 ok commit 1 E\n\
         4 ok prune 0 0\n\
         5 ok prune 1 1\n\
         6 ok prune 1 1\n\
         6 no retired 1\n\
         6 ok status base 0 floor 1 retired 1 head 1 kept 1 forks 0 generation 1\n",
    ),
    (
        "every read of a retired version",
        "put 61 =31\n\
         commit\n\
         put 62 =32\n\
         commit\n\
         prune 1\n\
         get v0 61\n\
         root v0\n\
         prove v0 61\n\
         chunk v0 0 1\n\
         count v0\n\
         nth v0 0\n\
         pin 0\n\
         get v1 61\n\
         root v1\n\
         prove v1 62\n\
         chunk v1 0 1\n\
         count v1\n\
         nth v1 0\n\
         pin 1\n",
        "0 ok pending 1\n\
         1 ok commit 1 R\n\
         1 ok pending 1\n\
         2 ok commit 2 P\n\
         3 ok prune 1 1\n\
         3 no retired 1\n\
         3 no retired 1\n\
         3 no retired 1\n\
         3 no retired 1\n\
         3 no retired 1\n\
         3 no retired 1\n\
         3 no retired 1\n\
         3 ok value =31\n\
         3 ok root R\n\
         3 ok proof 0\n\
         name 62\n\
         claim none\n\
         leaf 19d5f57c8e8b3cd760f853bb8d7900d68e10ef02674383de65a9b4d65e419b26 f254fd9353abb55f60a0942b46382c2428aa019d102cd9985275c0fb42a8dbb3\n\
         3 ok chunk 1 0 0\n\
         entry 19d5f57c8e8b3cd760f853bb8d7900d68e10ef02674383de65a9b4d65e419b26 =31\n\
         3 ok count 1\n\
         3 ok nth 19d5f57c8e8b3cd760f853bb8d7900d68e10ef02674383de65a9b4d65e419b26 =31\n\
         3 ok pin 0\n",
    ),
    (
        "all versions but the head",
        "put 61 =31\n\
         commit\n\
         put 62 =32\n\
         commit\n\
         prune 2\n\
         get v1 61\n\
         root v2\n\
         get v2 61\n\
         get head 62\n\
         count head\n\
         put 62 =33\n\
         commit\n\
         root v2\n\
         root v3\n\
         status\n",
        "0 ok pending 1\n\
         1 ok commit 1 R\n\
         1 ok pending 1\n\
         2 ok commit 2 P\n\
         3 ok prune 2 2\n\
         3 no retired 2\n\
         3 ok root P\n\
         3 ok value =31\n\
         3 ok value =32\n\
         3 ok count 2\n\
         3 ok pending 1\n\
         4 ok commit 3 Q\n\
         4 ok root P\n\
         4 ok root Q\n\
         4 ok status base 0 floor 2 retired 2 head 3 kept 5 forks 0 generation 1\n",
    ),
    (
        "retired, but kept for a pin",
        "put 61 =31\n\
         commit\n\
         put 61 =32\n\
         commit\n\
         pin 1\n\
         prune 2\n\
         get v1 61\n\
         get v2 61\n\
         get p0 61\n\
         pin 1\n\
         prune 1\n\
         prune 2\n\
         unpin 0\n\
         prune 2\n\
         status\n",
        "0 ok pending 1\n\
         1 ok commit 1 R\n\
         1 ok pending 1\n\
         2 ok commit 2 S\n\
         2 ok pin 0\n\
         3 ok prune 2 1\n\
         3 no retired 2\n\
         3 ok value =32\n\
         3 ok value =31\n\
         3 no retired 2\n\
         3 no retired 2\n\
         4 ok prune 2 1\n\
         4 ok unpin 1\n\
         5 ok prune 2 2\n\
         5 ok status base 0 floor 2 retired 2 head 2 kept 1 forks 0 generation 1\n",
    ),
    (
        "a landing after it",
        "put 61 =31\n\
         commit\n\
         prune 1\n\
         put 61 =32\n\
         fork head\n\
         put 62 =33\n\
         fork f0\n\
         land f1\n\
         root v1\n\
         root v2\n\
         root v3\n\
         prune 2\n\
         root v1\n\
         root v3\n\
         status\n",
        "0 ok pending 1\n\
         1 ok commit 1 R\n\
         2 ok prune 1 1\n\
         2 ok pending 1\n\
         3 ok fork f0 S\n\
         3 ok pending 1\n\
         4 ok fork f1 T\n\
         5 ok land 3 T\n\
         5 ok root R\n\
         5 ok root S\n\
         5 ok root T\n\
         6 ok prune 2 2\n\
         6 no retired 2\n\
         6 ok root T\n\
         6 ok status base 0 floor 2 retired 2 head 3 kept 4 forks 0 generation 1\n",
    ),
    (
        "forks stay, and pending changes too",
        "put 61 =31\n\
         fork head\n\
         put 62 =32\n\
         commit\n\
         put 61 =31\n\
         fork head\n\
         put 63 =33\n\
         prune 1\n\
         get f1 61\n\
         land f1\n\
         commit\n\
         root v3\n\
         status\n",
        "0 ok pending 1\n\
         1 ok fork f0 R\n\
         1 ok pending 1\n\
         2 ok commit 1 523314ab33c912d434792b42083d03c32d7e90b536b35c355a01ad0bb7925da2\n\
         2 ok pending 1\n\
         3 ok fork f1 P\n\
         3 ok pending 1\n\
         4 ok prune 1 1\n\
         4 ok value =31\n\
         5 ok land 2 P\n\
         6 ok commit 3 W\n\
         6 ok root W\n\
         6 ok status base 0 floor 1 retired 1 head 3 kept 6 forks 0 generation 1\n",
    ),
];

#[test]
fn versions_are_retired(rt: HostRuntime) -> Result<(), Fail> {
    let alloc = rt.alloc();
    for (what, script, want) in ROWS {
        assert!(rt; tells(&rt, alloc, script, want)?, "{what}");
    }
    Ok(())
}
