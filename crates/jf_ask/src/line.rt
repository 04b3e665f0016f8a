// The first line of bytes.
ghost use Rattle.std.specs.Prelude.{◌≡◌, ◌∷◌, []};
ghost use Rattle.std.specs.Option.{option_map_or};
ghost use Rattle.std.specs.List.{before_first, after_first};
ghost use Rattle.jf_io.specs.LineReader.{is_line_feed};
ghost use Rattle.jf_io.specs.Lines.{lines};

use jf_io::first_line_feed;

/// The first line of bytes, without the line feed that ends it, and the bytes after that. `None` if there are no bytes.
pub(crate) fn cut_line(bytes: &[u8]) -> Option<(&[u8], &[u8])>
    ensures { lines bytes.now ≡ option_map_or (λ p. p.0.now ∷ lines p.1.now) result [] }
{
    if bytes.is_empty() {
        None
    } else {
        Some(split_line(bytes))
    }
}

/// The bytes before the first line feed, and those after it. All bytes, and none, if there is no line feed.
fn split_line(bytes: &[u8]) -> (&[u8], &[u8])
    ensures line { result.0.now ≡ before_first is_line_feed bytes.now }
    ensures after { result.1.now ≡ after_first is_line_feed bytes.now }
{
    let end = first_line_feed(bytes);
    let next = bytes.len().min(end + 1);
    (&bytes[..end], &bytes[next..])
}
