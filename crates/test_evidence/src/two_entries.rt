// The map that has `one` at `x` and `two` at `y30`. Their keys agree in 3 bits, and those of `x` and `z24` in 4.
use jf_hash::{Hash, empty, key_of, leaf, value};
use jf_path::{HashList, Memory};
use jf_proof::Proof;
use std::alloc::Global;

// The root of the map, by Python's hashlib.
pub(crate) const ROOT: Hash = [
    0x70, 0xc4, 0x44, 0xfe, 0xb5, 0x46, 0x34, 0x63, 0xcc, 0xa8, 0x26, 0x0d, 0xe1, 0x24, 0x94, 0xe6,
    0x37, 0x72, 0x0a, 0x49, 0x43, 0x41, 0x7c, 0x09, 0xe9, 0x52, 0x57, 0x88, 0xed, 0x9a, 0xa8, 0x46,
];

// The leaf of `x` stands on the ways of `x` and `z24`, under four siblings.
pub(crate) fn siblings_of_x() -> [Hash; 4] {
    let other = leaf(&key_of(b"y30"), &value(b"two"));
    [other, empty(), empty(), empty()]
}

pub(crate) fn list(alloc: Global, hashes: &[Hash]) -> Result<HashList, Memory> {
    let mut list = HashList::new(alloc);
    for hash in hashes {
        list.push(*hash)?;
    }
    Ok(list)
}

// A proof with the leaf of `x` and these siblings.
pub(crate) fn proof_of_x(alloc: Global, siblings: &[Hash]) -> Result<Proof, Memory> {
    Ok(Proof {
        leaf: Some((key_of(b"x"), value(b"one"))),
        siblings: list(alloc, siblings)?,
    })
}
