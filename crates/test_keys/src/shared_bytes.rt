// Bytes that are shared are the same wherever they lie: up to 14 with each owner, up to 38 beside the number of the owners, or
// more elsewhere.
use jf_path::{Bytes, Memory, SharedBytes};
use std::alloc::Global;
use std::test::Fail;

// How many bytes are shared.
const LENGTHS: &[usize] = &[0, 1, 13, 14, 15, 37, 38, 39, 200];

// As many bytes as are said, no two neighbours the same.
fn bytes_of(alloc: Global, length: usize) -> Result<Bytes, Memory> {
    let mut bytes = Bytes::new(alloc);
    for i in 0..length {
        bytes.push((i % 251) as u8)?;
    }
    Ok(bytes)
}

// Whether bytes that are taken over, a copy of them, and one more owner of each are those bytes.
fn are_same(alloc: Global, length: usize) -> Result<bool, Memory> {
    let bytes = bytes_of(alloc, length)?;
    let copy = SharedBytes::copy_of(alloc, bytes.as_slice())?;
    let other = copy.share()?;
    drop(copy);
    let taken = SharedBytes::of(alloc, bytes_of(alloc, length)?)?.share()?;
    Ok(
        other.as_slice() == bytes.as_slice()
            && taken.as_slice() == bytes.as_slice()
            && taken.len() == length as u64,
    )
}

#[test]
fn short_and_long_bytes_are_shared(rt: HostRuntime) -> Result<(), Fail> {
    for length in LENGTHS {
        assert!(rt; are_same(rt.alloc(), *length)?, "{length}");
    }
    Ok(())
}
