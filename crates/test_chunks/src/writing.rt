// A chunk block as it is written. Keys and hashes are from Python's hashlib.
use jf_blocks::write_chunk;
use jf_evidence::RangeProof;
use jf_hash::{empty, key_of};
use jf_path::{Bytes, HashList, Memory, Pairs};
use std::alloc::Global;
use std::test::Fail;

// The entries of `a` and `b`, and an empty hash as a sibling.
const LINES: &str = "entry 19d5f57c8e8b3cd760f853bb8d7900d68e10ef02674383de65a9b4d65e419b26 =31\n\
    entry 6fe4ff1a836fcb881bbe03ff848bb731a5584708153d9bc6dc1d6430579a6a12 =32\n\
    side 6e340b9cffb37a989ca544e6bb780a2c78901d3fb33738768511a30617afa01d\n";

fn entries(alloc: Global) -> Result<Pairs, Memory> {
    let mut entries = Pairs::new(alloc);
    entries.push((key_of(b"a"), Bytes::copy_of(alloc, b"1")?))?;
    entries.push((key_of(b"b"), Bytes::copy_of(alloc, b"2")?))?;
    Ok(entries)
}

fn proof(alloc: Global) -> Result<RangeProof, Memory> {
    let mut siblings = HashList::new(alloc);
    siblings.push(empty())?;
    Ok(RangeProof { depth: 2, siblings })
}

fn written_blocks(alloc: Global) -> Result<Bytes, Memory> {
    let mut out = Bytes::copy_of(alloc, b"> ")?;
    write_chunk(&entries(alloc)?, &proof(alloc)?, &mut out)?;
    Ok(out)
}

#[test]
fn a_chunk_is_written_in_lines(rt: HostRuntime) -> Result<(), Fail> {
    let out = written_blocks(rt.alloc())?;
    let text = out.as_slice();
    assert!(rt; text.starts_with(b"> "));
    assert!(rt; &text[2..] == LINES.as_bytes());
    Ok(())
}
