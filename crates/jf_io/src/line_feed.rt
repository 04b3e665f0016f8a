// The end of a line is sought.
ghost use Rattle.std.specs.Prelude.{◌≡◌, ◌==◌, ◌≤◌, length};
ghost use Rattle.std.specs.List.{position, position_or_len};
ghost use Rattle.jf_io.specs.LineReader.{is_line_feed};

/// The offset of the first line feed, or the length if there is no line feed.
pub fn first_line_feed(bytes: &[u8]) -> usize
    // The result is at most the length of `bytes`.
    ensures within { result ≤ length bytes.now }
    // The result is the offset of the first line feed, or the length if there is no line feed.
    ensures value { result ≡ position_or_len is_line_feed bytes.now }
{
    line_feed(bytes).unwrap_or(bytes.len())
}

// The offset of the first line feed.
fn line_feed(bytes: &[u8]) -> Option<usize>
    ensures { result ≡ position (λ b. b == 10) bytes.now }
{
    bytes.iter().position(|b| *b == b'\n')
}
