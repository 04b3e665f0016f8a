// A text that is one proof block.
ghost use Rattle.std.specs.Prelude.{◌≡◌, IfSome, option_map};
ghost use Rattle.jf_io.specs.Lines.{lines};
ghost use Rattle.jf_ask.specs.Lookups.{block_of};
ghost use Rattle.jf_ask.specs.Parts.{block_by_parts, block_held, FitsRoom};

use crate::line::cut_line;
use crate::parts::{claim, count, leaf, name, sides};
use jf_hash::Hash;
use jf_path::Key;

/// What is read of a block beside the bytes that stand in the room that the caller gave.
#[derive(Drop)]
pub(crate) struct BlockParts<'a> {
    /// How long the name is.
    pub name: usize,
    /// How long the value is, and its digits in the text.
    pub value: Option<(usize, &'a [u8])>,
    pub leaf: Option<(Key, Hash)>,
    /// How many siblings there are.
    pub siblings: usize,
}

/// Reads a text that is one proof block, with nothing after it.
pub(crate) fn read_block<'a>(
    text: &'a [u8],
    name: &mut [u8; 128],
    value: &mut [u8; 4096],
    siblings: &mut [Hash; 256],
) -> Option<BlockParts<'a>>
    ensures block { option_map (block_held name.new value.new siblings.new) result ≡ block_of (lines text.now) }
    ensures fits { IfSome result (FitsRoom value.new) }
{
    read_parts(text, name, value, siblings)
}

#[tactic(auto, unfolding(crate::specs::Parts::block_by_parts))]
fn read_parts<'a>(
    text: &'a [u8],
    own: &mut [u8; 128],
    bytes: &mut [u8; 4096],
    all: &mut [Hash; 256],
) -> Option<BlockParts<'a>>
    ensures block { option_map (block_held own.new bytes.new all.new) result ≡ block_by_parts (lines text.now) }
    ensures fits { IfSome result (FitsRoom bytes.new) }
{
    let (siblings, rest) = count(text)?;
    let (name, rest) = name(rest, own)?;
    let (value, rest) = claim(rest, bytes)?;
    let (leaf, rest) = leaf(rest)?;
    let rest = sides(rest, &mut all[..siblings])?;
    match cut_line(rest) {
        Some(_) => None,
        None => Some(BlockParts {
            name,
            value,
            leaf,
            siblings,
        }),
    }
}
