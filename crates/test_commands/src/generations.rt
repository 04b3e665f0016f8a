// New generations of the files: all that was there is there as before.
use jf_play::play::tells;
use std::test::Fail;

// What a script shows, its lines, and their replies, where letters represent roots as in `with_roots`. The values are from a
// reference in Python that keeps whole maps, and its `hashlib`.
const ROWS: &[(&str, &str, &str)] = &[
    (
        "a new store",
        "compact\n\
         status\n",
        "1 ok compact 2\n\
         1 ok status base 0 floor 0 retired 0 head 0 kept 1 forks 0 generation 2\n",
    ),
    (
        "versions are read as before",
        "put 61 =31\n\
         commit\n\
         put 62 =32\n\
         commit\n\
         compact\n\
         root v0\n\
         root v1\n\
         root v2\n\
         get v1 62\n\
         get head 62\n\
         prove v1 61\n\
         chunk v2 1 1\n\
         count v0\n\
         commit\n\
         root v3\n\
         status\n",
        "0 ok pending 1\n\
         1 ok commit 1 R\n\
         1 ok pending 1\n\
         2 ok commit 2 P\n\
         3 ok compact 2\n\
         3 ok root E\n\
         3 ok root R\n\
         3 ok root P\n\
         3 ok none\n\
         3 ok value =32\n\
         3 ok proof 0\n\
         name 61\n\
         claim =31\n\
         leaf 19d5f57c8e8b3cd760f853bb8d7900d68e10ef02674383de65a9b4d65e419b26 f254fd9353abb55f60a0942b46382c2428aa019d102cd9985275c0fb42a8dbb3\n\
         3 ok chunk 1 2 1\n\
         entry 6fe4ff1a836fcb881bbe03ff848bb731a5584708153d9bc6dc1d6430579a6a12 =32\n\
         side E\n\
         3 ok count 0\n\
         4 ok commit 3 P\n\
         4 ok root P\n\
         4 ok status base 0 floor 0 retired 0 head 3 kept 6 forks 0 generation 2\n",
    ),
    (
        "again and again",
        "compact\n\
         compact\n\
         put 61 =31\n\
         compact\n\
         commit\n\
         compact\n\
         get head 61\n\
         status\n",
        "1 ok compact 2\n\
         2 ok compact 3\n\
         2 ok pending 1\n\
         3 ok compact 4\n\
         4 ok commit 1 R\n\
         5 ok compact 5\n\
         5 ok value =31\n\
         5 ok status base 0 floor 0 retired 0 head 1 kept 2 forks 0 generation 5\n",
    ),
    (
        "after versions are retired",
        "put 61 =31\n\
         commit\n\
         put 61 =32\n\
         commit\n\
         commit\n\
         prune 2\n\
         compact\n\
         status\n\
         root v1\n\
         root v2\n\
         prune 3\n\
         status\n\
         compact\n\
         status\n\
         get head 61\n",
        "0 ok pending 1\n\
         1 ok commit 1 R\n\
         1 ok pending 1\n\
         2 ok commit 2 S\n\
         3 ok commit 3 S\n\
         4 ok prune 2 2\n\
         5 ok compact 2\n\
         5 ok status base 0 floor 2 retired 2 head 3 kept 2 forks 0 generation 2\n\
         5 no retired 2\n\
         5 ok root S\n\
         6 ok prune 3 3\n\
         6 ok status base 0 floor 3 retired 3 head 3 kept 1 forks 0 generation 2\n\
         7 ok compact 3\n\
         7 ok status base 0 floor 3 retired 3 head 3 kept 1 forks 0 generation 3\n\
         7 ok value =32\n",
    ),
    (
        "forks, pins and what is pending stay",
        "put 61 =31\n\
         commit\n\
         pin 1\n\
         put 61 =32\n\
         fork head\n\
         put 62 =33\n\
         compact\n\
         get f0 61\n\
         get p0 61\n\
         fork f0\n\
         root f1\n\
         land f1\n\
         prune 3\n\
         get p0 61\n\
         compact\n\
         get p0 61\n\
         status\n",
        "0 ok pending 1\n\
         1 ok commit 1 R\n\
         1 ok pin 0\n\
         1 ok pending 1\n\
         2 ok fork f0 S\n\
         2 ok pending 1\n\
         3 ok compact 2\n\
         3 ok value =32\n\
         3 ok value =31\n\
         4 ok fork f1 T\n\
         4 ok root T\n\
         5 ok land 3 T\n\
         6 ok prune 3 1\n\
         6 ok value =31\n\
         7 ok compact 3\n\
         7 ok value =31\n\
         7 ok status base 0 floor 1 retired 3 head 3 kept 5 forks 0 generation 3\n",
    ),
];

#[test]
fn a_new_generation_has_what_was_there(rt: HostRuntime) -> Result<(), Fail> {
    let alloc = rt.alloc();
    for (what, script, want) in ROWS {
        assert!(rt; tells(&rt, alloc, script, want)?, "{what}");
    }
    Ok(())
}
