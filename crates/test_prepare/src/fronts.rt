// Which texts are worth reading by several workers.
use jf_path::Bytes;
use jf_prepare::front_without_puts;
use std::alloc::Global;
use std::test::Fail;

// A line, how often it stands at the front, how long the text is, which goes on with other lines, and how many bytes of it
// are said to have no puts.
const TEXTS: &[(&[u8], usize, usize, Option<usize>)] = &[
    (b"", 0, 0, Some(0)),
    (b"put 61 =31\n", 1, 16_383, Some(16_383)),
    (b"put 61 =31\n", 2_000, 22_000, None),
    // 6,138 bytes of puts, and 6,149.
    (b"put 61 =31\n", 558, 16_384, Some(8_192)),
    (b"put 61 =31\n", 559, 16_384, None),
    (b"", 0, 16_384, Some(8_192)),
    (b"get head 61\n", 2_000, 24_000, Some(8_196)),
];

fn text_of(alloc: Global, line: &[u8], count: usize, length: usize) -> Result<Bytes, Fail> {
    let mut text = Bytes::new(alloc);
    for _ in 0..count {
        text.append(line)?;
    }
    for _ in text.len()..length as u64 {
        text.push(b'\n')?;
    }
    Ok(text)
}

fn looks_at(alloc: Global, row: &(&[u8], usize, usize, Option<usize>)) -> Result<bool, Fail> {
    let text = text_of(alloc, row.0, row.1, row.2)?;
    Ok(front_without_puts(text.as_slice()) == row.3)
}

#[test]
fn looks_at_the_front_alone(rt: HostRuntime) -> Result<(), Fail> {
    for row in TEXTS {
        assert!(rt; looks_at(rt.alloc(), row)?, "{} of {}", row.1, row.2);
    }
    Ok(())
}
