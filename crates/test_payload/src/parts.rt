// Parts of payloads, as named bytes.
use std::alloc::{AllocError, Global};

pub(crate) const N0: &[u8] = &[0, 0, 0, 0, 0, 0, 0, 0];

pub(crate) const N1: &[u8] = &[0, 0, 0, 0, 0, 0, 0, 1];

pub(crate) const N2: &[u8] = &[0, 0, 0, 0, 0, 0, 0, 2];

pub(crate) const N3: &[u8] = &[0, 0, 0, 0, 0, 0, 0, 3];

// 2^64 - 2 and 2^64 - 1.
pub(crate) const LAST: &[u8] = &[255, 255, 255, 255, 255, 255, 255, 254];

pub(crate) const NEVER: &[u8] = &[255, 255, 255, 255, 255, 255, 255, 255];

// The root of the empty map: `printf '\x00' | sha256sum`.
pub(crate) const EMPTY: &[u8] = &[
    0x6e, 0x34, 0x0b, 0x9c, 0xff, 0xb3, 0x7a, 0x98, 0x9c, 0xa5, 0x44, 0xe6, 0xbb, 0x78, 0x0a, 0x2c,
    0x78, 0x90, 0x1d, 0x3f, 0xb3, 0x37, 0x38, 0x76, 0x85, 0x11, 0xa3, 0x06, 0x17, 0xaf, 0xa0, 0x1d,
];

pub(crate) const HASH: &[u8] = &[0x33; 32];

pub(crate) const KEY: &[u8] = &[0x11; 32];

// The names of the roots of versions 0 to 3, and of the node at nibble 1 in version 1.
pub(crate) const ROOT0: &[u8] = &[0, 0, 0, 0, 0, 0, 0, 0, 0];

pub(crate) const ROOT1: &[u8] = &[0, 0, 0, 0, 0, 0, 0, 1, 0];

pub(crate) const ROOT2: &[u8] = &[0, 0, 0, 0, 0, 0, 0, 2, 0];

pub(crate) const UNDER1: &[u8] = &[0, 0, 0, 0, 0, 0, 0, 1, 1, 0x10];

pub(crate) const NULL: &[u8] = &[0];
// The tag of a leaf, which its key follows; and a value of one byte after its length.
pub(crate) const LEAF: &[u8] = &[1];

pub(crate) const VALUE: &[u8] = &[0, 0, 0, 1, 0x31];
// The tag and bitmaps of two children, at nibbles 1 and 10, the second of which is a leaf, in format 1 and in format 2.
pub(crate) const INNER: &[u8] = &[2, 4, 2, 4, 0];

pub(crate) const COUNTED: &[u8] = &[3, 4, 2, 4, 0];

// The bytes of these parts, one after another.
pub(crate) fn parts_in_a_row(alloc: Global, parts: &[&[u8]]) -> Result<Vec<u8>, AllocError> {
    let mut bytes = Vec::new(alloc);
    for part in parts {
        bytes.extend_from_slice(part)?;
    }
    Ok(bytes)
}
