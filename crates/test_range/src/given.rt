// Chunks that are written out, and whether a restore takes them.
use jf_hash::{Hash, key_of};
use jf_path::{Bytes, HashList, Key, Memory, Pairs};
use jf_restore::{RangeProof, Restore, RestoreRefused, are_short};
use std::alloc::Global;

// The empty hash.
pub(crate) const NONE: Hash = [
    0x6e, 0x34, 0x0b, 0x9c, 0xff, 0xb3, 0x7a, 0x98, 0x9c, 0xa5, 0x44, 0xe6, 0xbb, 0x78, 0x0a, 0x2c,
    0x78, 0x90, 0x1d, 0x3f, 0xb3, 0x37, 0x38, 0x76, 0x85, 0x11, 0xa3, 0x06, 0x17, 0xaf, 0xa0, 0x1d,
];

// Names and values as texts, in the order in which they are given; the depth, the siblings, and the refusal, if any.
pub(crate) type Row = (
    &'static [(&'static str, &'static str)],
    u64,
    &'static [Hash],
    Option<RestoreRefused>,
);

pub(crate) fn proof_of(alloc: Global, depth: u64, hashes: &[Hash]) -> Result<RangeProof, Memory> {
    let mut siblings = HashList::new(alloc);
    for hash in hashes {
        siblings.push(*hash)?;
    }
    Ok(RangeProof { depth, siblings })
}

pub(crate) fn pair(alloc: Global, name: &[u8], value: &[u8]) -> Result<(Key, Bytes), Memory> {
    Ok((key_of(name), Bytes::copy_of(alloc, value)?))
}

fn entries_of(alloc: Global, names: &[(&str, &str)]) -> Result<Pairs, Memory> {
    let mut entries = Pairs::new(alloc);
    for (name, value) in names {
        entries.push(pair(alloc, name.as_bytes(), value.as_bytes())?)?;
    }
    Ok(entries)
}

// Whether a restore refuses a chunk as expected, or takes it if no refusal is given.
pub(crate) fn is_answered(
    restore: &mut Restore,
    fresh: &Pairs,
    proof: &RangeProof,
    refused: Option<RestoreRefused>,
) -> bool {
    are_short(fresh) && restore.add(fresh, proof).err() == refused
}

// Whether a restore takes or refuses chunks as expected, one after the other.
pub(crate) fn are_answered(
    alloc: Global,
    restore: &mut Restore,
    rows: &[Row],
) -> Result<bool, Memory> {
    for (names, depth, siblings, refused) in rows {
        let fresh = entries_of(alloc, names)?;
        let proof = proof_of(alloc, *depth, siblings)?;
        if !is_answered(restore, &fresh, &proof, *refused) {
            return Ok(false);
        }
    }
    Ok(true)
}

// Whether a restore of a root takes or refuses chunks as expected, and is then whole or not as expected.
pub(crate) fn comes_to(
    alloc: Global,
    root: Hash,
    rows: &[Row],
    whole: Result<u64, RestoreRefused>,
) -> Result<bool, Memory> {
    let mut restore = Box::new(alloc, Restore::new(alloc, 1, root))?;
    let answered = are_answered(alloc, &mut restore, rows)?;
    Ok(answered && restore.whole() == whole)
}
