// Forks that land: with all that they stand on, one version each, and what becomes of the others.
use jf_play::play::tells;
use std::test::Fail;

// What a script shows, its lines, and their replies, where letters represent roots as in `with_roots`. The values are from a
// reference in Python that keeps whole maps, and its `hashlib`.
const ROWS: &[(&str, &str, &str)] = &[
    (
        "a fork is read, lands, and leaves what stands on it",
        "put 61 =31\n\
         fork head\n\
         put 61 =32\n\
         fork head\n\
         put 62 =33\n\
         fork f0\n\
         get f2 61\n\
         land f0\n\
         get f1 61\n\
         get f2 61\n\
         get f2 62\n\
         get head 62\n",
        "0 ok pending 1\n\
         1 ok fork f0 R\n\
         1 ok pending 1\n\
         2 ok fork f1 S\n\
         2 ok pending 1\n\
         3 ok fork f2 Q\n\
         3 ok value =31\n\
         4 ok land 1 R\n\
         4 no gone\n\
         4 ok value =31\n\
         4 ok value =33\n\
         4 ok none\n",
    ),
    (
        "a fork lands with the one below it",
        "fork head\n\
         fork f0\n\
         land f1\n\
         get f7 61\n\
         drop f0\n\
         drop f1\n",
        "1 ok fork f0 E\n\
         2 ok fork f1 E\n\
         3 ok land 2 E\n\
         3 no unknown\n\
         3 no gone\n\
         3 no gone\n",
    ),
    (
        "a fork lands with all below it, one version each",
        "put 61 =31\n\
         fork head\n\
         put 61 =32\n\
         fork f0\n\
         put 62 =33\n\
         fork f1\n\
         land f2\n\
         root v1\n\
         root v2\n\
         root v3\n\
         get v1 61\n\
         get v2 61\n\
         get v2 62\n\
         get head 62\n",
        "0 ok pending 1\n\
         1 ok fork f0 R\n\
         1 ok pending 1\n\
         2 ok fork f1 S\n\
         2 ok pending 1\n\
         3 ok fork f2 T\n\
         4 ok land 3 T\n\
         4 ok root R\n\
         4 ok root S\n\
         4 ok root T\n\
         4 ok value =31\n\
         4 ok value =32\n\
         4 ok none\n\
         4 ok value =33\n",
    ),
    (
        "a landing leaves what is pending",
        "put 61 =31\n\
         fork head\n\
         put 62 =32\n\
         land f0\n\
         get head 62\n\
         commit\n\
         root v1\n",
        "0 ok pending 1\n\
         1 ok fork f0 R\n\
         1 ok pending 1\n\
         2 ok land 1 R\n\
         2 ok none\n\
         3 ok commit 2 P\n\
         3 ok root R\n",
    ),
    (
        "what stands beside a landed fork is gone, and what stands on it goes on",
        "put 61 =31\n\
         fork head\n\
         put 62 =32\n\
         fork f0\n\
         put 63 =33\n\
         fork f1\n\
         put 63 =34\n\
         fork f1\n\
         put 64 =\n\
         fork f0\n\
         fork head\n\
         land f1\n\
         get f0 61\n\
         get f1 61\n\
         get f4 61\n\
         get f5 61\n\
         get f2 63\n\
         get f3 63\n\
         root f2\n\
         land f2\n\
         get f3 63\n\
         get head 63\n\
         status\n",
        "0 ok pending 1\n\
         1 ok fork f0 R\n\
         1 ok pending 1\n\
         2 ok fork f1 P\n\
         2 ok pending 1\n\
         3 ok fork f2 W\n\
         3 ok pending 1\n\
         4 ok fork f3 28ef8bcfb7ab78332ddc47ed83d12d68a6586d3198b3470ddeb8629f42066c0e\n\
         4 ok pending 1\n\
         5 ok fork f4 32dfddd956e7cd1b1c1965ad1434a8532165b2c6a8bf51a19a47d671861516bf\n\
         6 ok fork f5 E\n\
         7 ok land 2 P\n\
         7 no gone\n\
         7 no gone\n\
         7 no gone\n\
         7 no gone\n\
         7 ok value =33\n\
         7 ok value =34\n\
         7 ok root W\n\
         8 ok land 3 W\n\
         8 no gone\n\
         8 ok value =33\n\
         8 ok status base 0 floor 0 retired 0 head 3 kept 7 forks 0 generation 1\n",
    ),
];

#[test]
fn forks_land_with_those_below(rt: HostRuntime) -> Result<(), Fail> {
    let alloc = rt.alloc();
    for (what, script, want) in ROWS {
        assert!(rt; tells(&rt, alloc, script, want)?, "{what}");
    }
    Ok(())
}
