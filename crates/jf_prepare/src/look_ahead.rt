// Whether the lines at hand are worth reading by several workers.

use jf_io::first_line_feed;

// With fewer bytes at hand it takes longer to start workers than to read the lines.
const FEWEST: usize = 16_384;

// The lines that begin within so many bytes are looked at.
const FRONT: usize = 8_192;

// Those of them that begin as a put have to have so many bytes.
const MOST_OF_IT: usize = 6_144;

/// Whether a line begins as a put does.
pub fn begins_put(line: &[u8]) -> bool {
    line.starts_with(b"put ")
}

/// `None` if a text is long enough to be read by several workers, and most of its front is puts; else the number of bytes that
/// were looked at, none of which is worth another look.
pub fn front_without_puts(text: &[u8]) -> Option<usize> {
    if text.len() < FEWEST {
        return Some(text.len());
    }
    let mut start = 0;
    let mut puts = 0;
    while start < FRONT && start < text.len() {
        let line = &text[start..];
        let next = start + first_line_feed(line) + 1;
        if begins_put(line) {
            puts += next - start;
        }
        start = next;
    }
    if puts < MOST_OF_IT { Some(start) } else { None }
}
