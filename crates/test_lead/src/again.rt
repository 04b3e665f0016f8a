// Blocks that were read are written again.
use crate::samples::{DEL_A, EMPTY, ONE, PAIR, PUT_A, PUT_B};
use jf_lead::{LandingReader, write_landing};
use jf_path::{Bytes, Memory};
use std::alloc::Global;
use std::test::Fail;

const LINES: &[&str] = &[ONE, PUT_A, EMPTY, PAIR, DEL_A, PUT_B];

// The text of the blocks that lines have, up to a line that is refused.
fn written_again(alloc: Global, lines: &[&str]) -> Result<Bytes, Memory> {
    let mut reader = LandingReader::new(alloc);
    let mut out = Bytes::new(alloc);
    for line in lines {
        if let Ok(Some((_, block))) = reader.line(line.as_bytes()) {
            write_landing(block.version, &block.root, &block.batch, &mut out)?;
        }
    }
    Ok(out)
}

// Each line with the byte that ends it.
fn joined_lines(alloc: Global, lines: &[&str]) -> Result<Bytes, Memory> {
    let mut out = Bytes::new(alloc);
    for line in lines {
        out.append(line.as_bytes())?;
        out.push(b'\n')?;
    }
    Ok(out)
}

#[test]
fn blocks_are_written_as_they_were_read(rt: HostRuntime) -> Result<(), Fail> {
    let again = written_again(rt.alloc(), LINES)?;
    let text = joined_lines(rt.alloc(), LINES)?;
    assert!(rt; again.as_slice() == text.as_slice());
    Ok(())
}
