// The digits of a value as bytes.
use jf_ask::unhexed_count;
use std::test::Fail;

// A word, and the bytes that it writes.
const WORDS: &[(&[u8], Option<&[u8]>)] = &[
    (b"", Some(b"")),
    (b"31", Some(b"1")),
    (b"00ff7f80", Some(b"\x00\xff\x7f\x80")),
    (b"3", None),
    (b"3A", None),
    (b"3g31", None),
];

fn is_written(word: &[u8], wanted: Option<&[u8]>) -> bool {
    let mut room = [9; 4];
    if word.len() > 9 {
        return false;
    }
    match (unhexed_count(word, &mut room), wanted) {
        (Some(n), Some(bytes)) => &room[..n] == bytes,
        (None, None) => true,
        _ => false,
    }
}

#[test]
fn digits_are_bytes() -> Result<(), Fail> {
    for (word, wanted) in WORDS {
        if !is_written(word, *wanted) {
            return Err(Fail::new("a word writes other bytes"));
        }
    }
    Ok(())
}
