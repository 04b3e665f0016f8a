// Parts of replies to `prove`, with roots, keys and hashes from outside, by Python's hashlib.
use jf_path::{Bytes, Memory};
use std::alloc::Global;

// The map that has `1` at `a`.
pub(crate) const ONE: &str = "9bb72c39f13d2b512ea34eae99a28f6d807a134ab125e89172310c6f6ea72f8f";

// The map that has `22` at `b` too: the keys of `a` and `b` have just their first bit in common, 0; that of `c` begins
// with 1.
pub(crate) const TWO: &str = "d22189d895b6523204958425e959d4c78370fb4e8d104658d25dea583f3dc647";

// The map that has the empty value at `a`.
pub(crate) const VOID: &str = "fd2307270c401be83da0714a181eca80af07f330a43f98b4cb378a5abd422684";

pub(crate) const HEAD: &str = "7 ok proof 2\n";

pub(crate) const A: &str = "name 61\n";

pub(crate) const CLAIM: &str = "claim =31\n";

pub(crate) const NONE: &str = "claim none\n";

pub(crate) const LEAF: &str =
    "leaf 19d5f57c8e8b3cd760f853bb8d7900d68e10ef02674383de65a9b4d65e419b26 f254fd9353abb55f60a0942b46382c2428aa019d102cd9985275c0fb42a8dbb3\n";

pub(crate) const VOID_LEAF: &str =
    "leaf 19d5f57c8e8b3cd760f853bb8d7900d68e10ef02674383de65a9b4d65e419b26 084fed08b978af4d7d196a7446a86b58009e636b611db16211b65a9aadff29c5\n";

pub(crate) const LOW: &str =
    "side 62cd93dd56dac0c0031243e7429f0fa848ea0ec28a7faf65902554fd1f91eb66\n";

pub(crate) const HIGH: &str =
    "side 6e340b9cffb37a989ca544e6bb780a2c78901d3fb33738768511a30617afa01d\n";

// The block of `b`, but for its last line, which is `HIGH`.
pub(crate) const B: &str =
    "9 ok proof 2\nname 62\nclaim =3232\nleaf 6fe4ff1a836fcb881bbe03ff848bb731a5584708153d9bc6dc1d6430579a6a12 2b027502d6ac2b71b6f6f36a470b9be2bdfd5149247145a07d1109309f1e522f\nside 9bb72c39f13d2b512ea34eae99a28f6d807a134ab125e89172310c6f6ea72f8f\n";

// The block of `c`.
pub(crate) const C: &str =
    "7 ok proof 1\nname 63\nclaim none\nleaf none\nside a5366c71b00d60c91455d5941525c27b4681a65b920b79dd2808482ad2e88aaa\n";

// A line that sets the root of the first map.
pub(crate) const SETS_ONE: &str =
    "7 ok root 9bb72c39f13d2b512ea34eae99a28f6d807a134ab125e89172310c6f6ea72f8f\n";

// The reply about `a` under the second map.
pub(crate) const HONEST: &[&str] = &[HEAD, A, CLAIM, LEAF, LOW, HIGH];

// Joins these parts.
pub(crate) fn parts_in_a_row(alloc: Global, parts: &[&str]) -> Result<Bytes, Memory> {
    let mut text = Bytes::new(alloc);
    for part in parts {
        text.append(part.as_bytes())?;
    }
    Ok(text)
}
