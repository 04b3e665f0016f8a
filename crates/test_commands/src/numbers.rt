// The store's numbers.
use jf_play::play::tells;
use std::test::Fail;

// What a script shows, its lines, and their replies, where letters represent roots as in `with_roots`. The values are from a
// reference in Python that keeps whole maps, and its `hashlib`.
const ROWS: &[(&str, &str, &str)] = &[
    (
        "a new store",
        "status\n",
        "0 ok status base 0 floor 0 retired 0 head 0 kept 1 forks 0 generation 1\n",
    ),
    (
        "two keys that agree in a nibble",
        "put 61 =01\n\
         put 69 =02\n\
         commit\n\
         status\n",
        "0 ok pending 1\n\
         0 ok pending 2\n\
         1 ok commit 1 81f2437253a9c24ff7f780a610d61980288f33450bd4fabecd40c239e018b746\n\
         1 ok status base 0 floor 0 retired 0 head 1 kept 5 forks 0 generation 1\n",
    ),
    (
        "an equal value again",
        "put 61 =01\n\
         put 69 =02\n\
         commit\n\
         put 61 =01\n\
         commit\n\
         status\n",
        "0 ok pending 1\n\
         0 ok pending 2\n\
         1 ok commit 1 81f2437253a9c24ff7f780a610d61980288f33450bd4fabecd40c239e018b746\n\
         1 ok pending 1\n\
         2 ok commit 2 81f2437253a9c24ff7f780a610d61980288f33450bd4fabecd40c239e018b746\n\
         2 ok status base 0 floor 0 retired 0 head 2 kept 6 forks 0 generation 1\n",
    ),
    (
        "a value that is removed",
        "put 61 =31\n\
         commit\n\
         del 61\n\
         commit\n\
         root head\n\
         status\n",
        "0 ok pending 1\n\
         1 ok commit 1 R\n\
         1 ok pending 1\n\
         2 ok commit 2 E\n\
         2 ok root E\n\
         2 ok status base 0 floor 0 retired 0 head 2 kept 3 forks 0 generation 1\n",
    ),
    (
        "a commit of nothing",
        "put 61 =31\n\
         commit\n\
         commit\n\
         status\n",
        "0 ok pending 1\n\
         1 ok commit 1 R\n\
         2 ok commit 2 R\n\
         2 ok status base 0 floor 0 retired 0 head 2 kept 3 forks 0 generation 1\n",
    ),
    (
        "forks",
        "fork head\n\
         status\n\
         fork f0\n\
         fork head\n\
         status\n\
         drop f0\n\
         status\n\
         land f2\n\
         status\n\
         fork head\n\
         commit\n\
         status\n",
        "1 ok fork f0 E\n\
         1 ok status base 0 floor 0 retired 0 head 0 kept 1 forks 1 generation 1\n\
         2 ok fork f1 E\n\
         3 ok fork f2 E\n\
         3 ok status base 0 floor 0 retired 0 head 0 kept 1 forks 3 generation 1\n\
         4 ok drop 2\n\
         4 ok status base 0 floor 0 retired 0 head 0 kept 1 forks 1 generation 1\n\
         5 ok land 1 E\n\
         5 ok status base 0 floor 0 retired 0 head 1 kept 2 forks 0 generation 1\n\
         6 ok fork f3 E\n\
         7 ok commit 2 E\n\
         7 ok status base 0 floor 0 retired 0 head 2 kept 3 forks 0 generation 1\n",
    ),
    (
        "a chain of forks",
        "put 61 =01\n\
         fork head\n\
         put 69 =02\n\
         fork f0\n\
         put 62 =03\n\
         fork f1\n\
         fork f2\n\
         land f2\n\
         status\n",
        "0 ok pending 1\n\
         1 ok fork f0 8a412606c683a590eee20bb68bede209e63f414ed7a2399fb4a84d85178c81eb\n\
         1 ok pending 1\n\
         2 ok fork f1 81f2437253a9c24ff7f780a610d61980288f33450bd4fabecd40c239e018b746\n\
         2 ok pending 1\n\
         3 ok fork f2 81d25b213cbd644436bfaf23c196a0dee1f35dbb9212be32c75ec3d316f3c39d\n\
         4 ok fork f3 81d25b213cbd644436bfaf23c196a0dee1f35dbb9212be32c75ec3d316f3c39d\n\
         5 ok land 3 81d25b213cbd644436bfaf23c196a0dee1f35dbb9212be32c75ec3d316f3c39d\n\
         5 ok status base 0 floor 0 retired 0 head 3 kept 8 forks 1 generation 1\n",
    ),
    (
        "bound, floor and generation",
        "commit\n\
         commit\n\
         commit\n\
         pin 1\n\
         prune 2\n\
         status\n\
         compact\n\
         status\n\
         unpin 0\n\
         prune 3\n\
         status\n\
         compact\n\
         status\n\
         commit\n\
         status\n",
        "1 ok commit 1 E\n\
         2 ok commit 2 E\n\
         3 ok commit 3 E\n\
         3 ok pin 0\n\
         4 ok prune 2 1\n\
         4 ok status base 0 floor 1 retired 2 head 3 kept 3 forks 0 generation 1\n\
         5 ok compact 2\n\
         5 ok status base 0 floor 1 retired 2 head 3 kept 3 forks 0 generation 2\n\
         5 ok unpin 1\n\
         6 ok prune 3 3\n\
         6 ok status base 0 floor 3 retired 3 head 3 kept 1 forks 0 generation 2\n\
         7 ok compact 3\n\
         7 ok status base 0 floor 3 retired 3 head 3 kept 1 forks 0 generation 3\n\
         8 ok commit 4 E\n\
         8 ok status base 0 floor 3 retired 3 head 4 kept 2 forks 0 generation 3\n",
    ),
    (
        "what is pending changes nothing",
        "put 61 =31\n\
         status\n\
         del 61\n\
         status\n\
         unpin 0\n\
         status\n\
         x\n\
         status\n",
        "0 ok pending 1\n\
         0 ok status base 0 floor 0 retired 0 head 0 kept 1 forks 0 generation 1\n\
         0 ok pending 1\n\
         0 ok status base 0 floor 0 retired 0 head 0 kept 1 forks 0 generation 1\n\
         0 no nopin\n\
         0 ok status base 0 floor 0 retired 0 head 0 kept 1 forks 0 generation 1\n\
         0 no syntax\n\
         0 ok status base 0 floor 0 retired 0 head 0 kept 1 forks 0 generation 1\n",
    ),
];

#[test]
fn the_numbers_of_a_store_are_told(rt: HostRuntime) -> Result<(), Fail> {
    let alloc = rt.alloc();
    for (what, script, want) in ROWS {
        assert!(rt; tells(&rt, alloc, script, want)?, "{what}");
    }
    Ok(())
}
