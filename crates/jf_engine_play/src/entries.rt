// Entries of one version, as an import takes them.
use jf_hash::key_of;
use jf_path::{Bytes, Memory, Pairs};
use std::alloc::Global;

/// Names of one byte, each with the byte that is the value at its key.
pub type Entries = &'static [(u8, u8)];

/// The keys and values, in the order in which the names are given.
pub fn pairs_of(alloc: Global, entries: Entries) -> Result<Pairs, Memory> {
    let mut pairs = Pairs::new(alloc);
    for (name, byte) in entries {
        pairs.push((key_of(&[*name]), Bytes::copy_of(alloc, &[*byte])?))?;
    }
    Ok(pairs)
}
