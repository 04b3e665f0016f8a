// The first line of a block of many claims, given without its line feed (docs/FORMATS.md, Blocks of many claims).
ghost use Rattle.std.specs.Prelude.{◌≡◌};
ghost use Rattle.jf_blocks.specs.Reading.{line_read};
ghost use Rattle.jf_many_blocks.specs.ManyReading.{many_of, many_head_of};

use jf_blocks::two_after;
use jf_text::{MAX_LINE, number_from};

/// The most claims that a block may have.
pub const MAX_CLAIMS: u64 = 10_000;

/// The most items that a block may have: 512 for each claim, and one more.
pub const MAX_ITEMS: u64 = 5_120_001;

/// What the first line of a block of many claims says.
#[derive(Clone, Copy, Debug, PartialEq, Eq)]
pub struct ManyHead {
    /// How many claims follow, at most [`MAX_CLAIMS`].
    pub claims: u64,
    /// How many items follow these, at most [`MAX_ITEMS`].
    pub items: u64,
}

/// What a line `many C I` says. `None` for any other line, and for one of more than 8,500 bytes.
pub fn many_line(line: &[u8]) -> Option<ManyHead>
    ensures { result ≡ line_read many_of line.now }
{
    if line.len() > MAX_LINE {
        return None;
    }
    let (claims, items) = two_after(b"many", line)?;
    many_head_of(claims, items)
}

// Two words as the numbers of a first line, each within its limit.
fn many_head_of(claims: &[u8], items: &[u8]) -> Option<ManyHead>
    ensures { result ≡ many_head_of (claims.now, items.now) }
{
    let claims = number_from(0, MAX_CLAIMS, claims)?;
    let items = number_from(0, MAX_ITEMS, items)?;
    Some(ManyHead { claims, items })
}
