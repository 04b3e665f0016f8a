// The parts of a proof block, each from the front of a text: what the first line says, and the text after it.
ghost use Rattle.std.specs.Prelude.{◌≡◌, ◌≤◌, length, take, IfSome, Some, option_map};
ghost use Rattle.jf_io.specs.Lines.{lines};
ghost use Rattle.jf_text.specs.Words.{unhex};
ghost use Rattle.jf_blocks.specs.Reading.{line_read, named_of, claim_of, leaf_line_of};
ghost use Rattle.jf_ask.specs.Lookups.{siblings_of};
ghost use Rattle.jf_ask.specs.Parts.{first_by, sides_of};

use crate::hexadecimal::bytes_within;
use crate::line::cut_line;
use jf_blocks::{FirstLine, first_line, leaf_line, side_line, word_after};
use jf_hash::Hash;
use jf_path::Key;
use jf_text::{MAX_LINE, is_word};

/// How many siblings a block has, at most 256.
pub(crate) fn count(text: &[u8]) -> Option<(usize, &[u8])>
    ensures part { option_map (λ p. (p.0, lines p.1.now)) result ≡ first_by siblings_of (lines text.now) }
    ensures bounded { IfSome result (λ p. p.0 ≤ 256) }
{
    let (line, rest) = cut_line(text)?;
    match first_line(line) {
        Some(FirstLine::Proof(n)) if n <= 256 => Some((n as usize, rest)),
        _ => None,
    }
}

/// The name of a block, to the front of `name`: how long it is.
pub(crate) fn name<'a>(text: &'a [u8], name: &mut [u8; 128]) -> Option<(usize, &'a [u8])>
    ensures part { option_map (λ p. (take p.0 name.new, lines p.1.now)) result ≡ first_by (line_read named_of) (lines text.now) }
    ensures within { IfSome result (λ p. p.0 ≤ 128) }
{
    let (line, rest) = cut_line(text)?;
    if line.len() > MAX_LINE {
        return None;
    }
    let word = word_after(b"name", line)?;
    let n = bytes_within(1, 128, word, name)?;
    Some((n, rest))
}

/// What a block claims: a value, to the front of `value`, or its absence. Of a value, how long it is, and its digits.
pub(crate) fn claim<'a>(
    text: &'a [u8],
    value: &mut [u8; 4096],
) -> Option<(Option<(usize, &'a [u8])>, &'a [u8])>
    ensures part { option_map (λ p. (option_map (λ v. take v.0 value.new) p.0, lines p.1.now)) result ≡ first_by (line_read claim_of) (lines text.now) }
    ensures within { IfSome result (λ p. IfSome p.0 (λ v. v.0 ≤ 4096)) }
    ensures digits { IfSome result (λ p. IfSome p.0 (λ v. unhex v.1.now ≡ Some (take v.0 value.new))) }
{
    let (line, rest) = cut_line(text)?;
    if line.len() > MAX_LINE {
        return None;
    }
    let word = word_after(b"claim", line)?;
    if is_word(word, b"none") {
        return Some((None, rest));
    }
    match word {
        [b'=', digits @ ..] => match bytes_within(0, 4096, digits, value) {
            Some(n) => Some((Some((n, digits)), rest)),
            None => None,
        },
        _ => None,
    }
}

/// The leaf of a block.
pub(crate) fn leaf(text: &[u8]) -> Option<(Option<(Key, Hash)>, &[u8])>
    ensures { option_map (λ p. (p.0, lines p.1.now)) result ≡ first_by (line_read leaf_line_of) (lines text.now) }
{
    let (line, rest) = cut_line(text)?;
    let leaf = leaf_line(line)?;
    Some((leaf, rest))
}

/// As many siblings as there is room for.
#[tactic(auto, unfolding(crate::specs::Parts::sides_of))]
pub(crate) fn sides<'a>(text: &'a [u8], all: &mut [Hash]) -> Option<&'a [u8]>
    ensures length { length all.new ≡ length all.old }
    ensures part { option_map (λ rest. (all.new, lines rest.now)) result ≡ sides_of (length all.old) (lines text.now) }
{
    match all.split_first_mut() {
        None => Some(text),
        Some((first, others)) => {
            let (line, rest) = cut_line(text)?;
            *first = side_line(line)?;
            sides(rest, others)
        }
    }
}
