// Three versions, landed one by one or together, and their blocks. Keys and roots are by Python's `hashlib`.

/// `1` and then `2` at the key of `a`, and `3` at that of `b`, in three commits.
pub(crate) const COMMITS: &str = "put 61 =31\ncommit\nput 61 =32\ncommit\nput 62 =33\ncommit\n";

/// The same versions as one chain of forks.
pub(crate) const CHAIN: &str =
    "put 61 =31\nfork head\nput 61 =32\nfork f0\nput 62 =33\nfork f1\nland f2\n";

/// Their blocks, of 150 bytes each.
pub(crate) const BLOCKS: &str =
    "landing 1 9bb72c39f13d2b512ea34eae99a28f6d807a134ab125e89172310c6f6ea72f8f 1\n\
    put 19d5f57c8e8b3cd760f853bb8d7900d68e10ef02674383de65a9b4d65e419b26 =31\n\
    landing 2 aa5647fd223dff48afb95db3b4b4b9db25f6244f59b3f1f7a0b03684552cb9ad 1\n\
    put 19d5f57c8e8b3cd760f853bb8d7900d68e10ef02674383de65a9b4d65e419b26 =32\n\
    landing 3 eefcf9b105d7d02e5a1d9bff2664e0ca9b96376d452f31b6091710fa35852ef1 1\n\
    put 6fe4ff1a836fcb881bbe03ff848bb731a5584708153d9bc6dc1d6430579a6a12 =33\n";

/// The bytes of the first blocks.
pub(crate) fn first_blocks(count: usize) -> &'static [u8] {
    let blocks = BLOCKS.as_bytes();
    match blocks.get(..count.saturating_mul(150)) {
        Some(front) => front,
        None => blocks,
    }
}

/// Asks for the root of each version, and of the head.
pub(crate) const READS: &[u8] = b"root v0\nroot v1\nroot v2\nroot v3\nroot head\n";

/// The replies by the number of the head. In these letters represent roots, as in `with_roots`.
pub(crate) const REPLIES: &[&str] = &[
    "0 ok root E\n0 no future 0\n0 no future 0\n0 no future 0\n0 ok root E\n",
    "0 ok root E\n0 ok root R\n0 no future 1\n0 no future 1\n0 ok root R\n",
    "0 ok root E\n0 ok root R\n0 ok root S\n0 no future 2\n0 ok root S\n",
    "0 ok root E\n0 ok root R\n0 ok root S\n0 ok root T\n0 ok root T\n",
];
