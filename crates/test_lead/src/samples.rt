// Lines of landing blocks. Keys and hashes are from outside, by Python's hashlib.

/// The first line of a block with one change: a map that has `1` at `a`.
pub(crate) const ONE: &str =
    "landing 1 9bb72c39f13d2b512ea34eae99a28f6d807a134ab125e89172310c6f6ea72f8f 1";

/// The same of the next version: `2` at `a`.
pub(crate) const TWO: &str =
    "landing 2 aa5647fd223dff48afb95db3b4b4b9db25f6244f59b3f1f7a0b03684552cb9ad 1";

/// The same of the one after it: `3` at `b` too.
pub(crate) const THREE: &str =
    "landing 3 eefcf9b105d7d02e5a1d9bff2664e0ca9b96376d452f31b6091710fa35852ef1 1";

/// A block without changes, over the empty map.
pub(crate) const EMPTY: &str =
    "landing 1 6e340b9cffb37a989ca544e6bb780a2c78901d3fb33738768511a30617afa01d 0";

/// The first line of a block with two changes.
pub(crate) const PAIR: &str =
    "landing 4 9bb72c39f13d2b512ea34eae99a28f6d807a134ab125e89172310c6f6ea72f8f 2";

/// `1` at `a`.
pub(crate) const PUT_A: &str =
    "put 19d5f57c8e8b3cd760f853bb8d7900d68e10ef02674383de65a9b4d65e419b26 =31";

/// `2` at `a`.
pub(crate) const PUT_A_AGAIN: &str =
    "put 19d5f57c8e8b3cd760f853bb8d7900d68e10ef02674383de65a9b4d65e419b26 =32";

/// `a` is removed.
pub(crate) const DEL_A: &str =
    "del 19d5f57c8e8b3cd760f853bb8d7900d68e10ef02674383de65a9b4d65e419b26";

/// `3` at `b`, whose key is above that of `a`.
pub(crate) const PUT_B: &str =
    "put 6fe4ff1a836fcb881bbe03ff848bb731a5584708153d9bc6dc1d6430579a6a12 =33";
