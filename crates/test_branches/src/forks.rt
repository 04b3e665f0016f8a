// Forks: made on the head and on one another, read, and dropped.
use jf_play::play::tells;
use std::test::Fail;

// What a script shows, its lines, and their replies, where letters represent roots as in `with_roots`. The values are from a
// reference in Python that keeps whole maps, and its `hashlib`.
const ROWS: &[(&str, &str, &str)] = &[
    (
        "a fork takes what is pending, and the head stays",
        "put 61 =31\n\
         fork head\n\
         root head\n\
         get head 61\n\
         get f0 61\n\
         root f0\n\
         put 62 =32\n\
         fork f0\n\
         get f0 62\n\
         get f1 61\n\
         get f1 62\n\
         root f1\n\
         root f0\n",
        "0 ok pending 1\n\
         1 ok fork f0 R\n\
         1 ok root E\n\
         1 ok none\n\
         1 ok value =31\n\
         1 ok root R\n\
         1 ok pending 1\n\
         2 ok fork f1 P\n\
         2 ok none\n\
         2 ok value =31\n\
         2 ok value =32\n\
         2 ok root P\n\
         2 ok root R\n",
    ),
    (
        "a commit has none of it, and ends all forks",
        "put 61 =31\n\
         fork head\n\
         fork f0\n\
         commit\n\
         root f0\n\
         get f1 61\n\
         land f0\n\
         drop f1\n\
         fork f0\n\
         fork head\n",
        "0 ok pending 1\n\
         1 ok fork f0 R\n\
         2 ok fork f1 R\n\
         3 ok commit 1 E\n\
         3 no gone\n\
         3 no gone\n\
         3 no gone\n\
         3 no gone\n\
         3 no gone\n\
         4 ok fork f2 E\n",
    ),
    (
        "the value of a name is removed in a fork",
        "put 61 =31\n\
         put 62 =32\n\
         commit\n\
         del 62\n\
         fork head\n\
         get f0 62\n\
         get f0 61\n\
         get head 62\n\
         root f0\n\
         put 62 =33\n\
         fork f0\n\
         root f1\n\
         land f0\n\
         get f1 62\n\
         root head\n",
        "0 ok pending 1\n\
         0 ok pending 2\n\
         1 ok commit 1 P\n\
         1 ok pending 1\n\
         2 ok fork f0 R\n\
         2 ok none\n\
         2 ok value =31\n\
         2 ok value =32\n\
         2 ok root R\n\
         2 ok pending 1\n\
         3 ok fork f1 Q\n\
         3 ok root Q\n\
         4 ok land 2 R\n\
         4 ok value =33\n\
         4 ok root R\n",
    ),
    (
        "a fork of nothing",
        "put 61 =31\n\
         commit\n\
         fork head\n\
         root f0\n\
         fork f0\n\
         root f1\n\
         land f1\n\
         status\n",
        "0 ok pending 1\n\
         1 ok commit 1 R\n\
         2 ok fork f0 R\n\
         2 ok root R\n\
         3 ok fork f1 R\n\
         3 ok root R\n\
         4 ok land 3 R\n\
         4 ok status base 0 floor 0 retired 0 head 3 kept 4 forks 0 generation 1\n",
    ),
    (
        "dropping takes what stands on it",
        "fork head\n\
         fork f0\n\
         fork f1\n\
         fork f0\n\
         fork head\n\
         drop f1\n\
         get f0 61\n\
         get f1 61\n\
         get f2 61\n\
         get f3 61\n\
         get f4 61\n\
         drop f0\n\
         get f3 61\n\
         drop f4\n\
         fork head\n\
         status\n",
        "1 ok fork f0 E\n\
         2 ok fork f1 E\n\
         3 ok fork f2 E\n\
         4 ok fork f3 E\n\
         5 ok fork f4 E\n\
         6 ok drop 2\n\
         6 ok none\n\
         6 no gone\n\
         6 no gone\n\
         6 ok none\n\
         6 ok none\n\
         7 ok drop 2\n\
         7 no gone\n\
         8 ok drop 1\n\
         9 ok fork f5 E\n\
         9 ok status base 0 floor 0 retired 0 head 0 kept 1 forks 1 generation 1\n",
    ),
    (
        "forks that are not made",
        "fork f0\n\
         land f0\n\
         drop f0\n\
         get f0 61\n\
         root f0\n\
         fork head\n\
         fork f1\n\
         land f1\n\
         drop f1\n\
         get f1 61\n\
         root f1\n\
         root f18446744073709551615\n\
         land f18446744073709551615\n",
        "0 no unknown\n\
         0 no unknown\n\
         0 no unknown\n\
         0 no unknown\n\
         0 no unknown\n\
         1 ok fork f0 E\n\
         1 no unknown\n\
         1 no unknown\n\
         1 no unknown\n\
         1 no unknown\n\
         1 no unknown\n\
         1 no unknown\n\
         1 no unknown\n",
    ),
    (
        "a refused line leaves what is pending and the forks",
        "put 61 =31\n\
         fork f3\n\
         land f3\n\
         fork head\n\
         put 62 =32\n\
         drop f0\n\
         fork f0\n\
         land f0\n\
         get f0 61\n\
         root f0\n\
         drop f0\n\
         fork head\n\
         get f1 62\n\
         put 61 =31\n\
         fork f1\n\
         land f2\n\
         root v1\n\
         root v2\n",
        "0 ok pending 1\n\
         0 no unknown\n\
         0 no unknown\n\
         1 ok fork f0 R\n\
         1 ok pending 1\n\
         2 ok drop 1\n\
         2 no gone\n\
         2 no gone\n\
         2 no gone\n\
         2 no gone\n\
         2 no gone\n\
         3 ok fork f1 523314ab33c912d434792b42083d03c32d7e90b536b35c355a01ad0bb7925da2\n\
         3 ok value =32\n\
         3 ok pending 1\n\
         4 ok fork f2 P\n\
         5 ok land 2 P\n\
         5 ok root 523314ab33c912d434792b42083d03c32d7e90b536b35c355a01ad0bb7925da2\n\
         5 ok root P\n",
    ),
    (
        "numbers of forks are not given twice",
        "fork head\n\
         drop f0\n\
         fork head\n\
         land f1\n\
         fork head\n\
         commit\n\
         fork head\n\
         fork f3\n\
         status\n",
        "1 ok fork f0 E\n\
         2 ok drop 1\n\
         3 ok fork f1 E\n\
         4 ok land 1 E\n\
         5 ok fork f2 E\n\
         6 ok commit 2 E\n\
         7 ok fork f3 E\n\
         8 ok fork f4 E\n\
         8 ok status base 0 floor 0 retired 0 head 2 kept 3 forks 2 generation 1\n",
    ),
];

#[test]
fn forks_are_made_read_and_dropped(rt: HostRuntime) -> Result<(), Fail> {
    let alloc = rt.alloc();
    for (what, script, want) in ROWS {
        assert!(rt; tells(&rt, alloc, script, want)?, "{what}");
    }
    Ok(())
}
