// The lines of a block of many claims after its first, each given without its line feed (docs/FORMATS.md, Blocks of many
// claims).
ghost use Rattle.std.specs.Prelude.{◌≡◌, IfOk};
ghost use Rattle.jf_text.specs.Words.{words};
ghost use Rattle.jf_blocks.specs.Reading.{line_read};
ghost use Rattle.jf_many_blocks.specs.ManyReading.{named_claim_from, named_claim_of, is_lone, end_line_of, item_of};

use jf_blocks::{claim_of_word, pair_of, two_after, word_after};
use jf_hash::Hash;
use jf_multi::Item;
use jf_path::{Bytes, Key, Memory};
use jf_text::{MAX_LINE, hash_of, is_word, name_of, split_word};
use std::alloc::Global;

/// The name of a line `claim NAME =VALUE` or `claim NAME none`, and what is claimed of it. `None` for any other line,
/// and for one of more than 8,500 bytes.
pub fn named_claim_line(
    alloc: Global,
    line: &[u8],
) -> Result<Option<(Bytes, Option<Bytes>)>, Memory>
    ensures { IfOk result (λ claim. claim ≡ line_read named_claim_of line.now) }
{
    if line.len() > MAX_LINE {
        return Ok(None);
    }
    match two_after(b"claim", line) {
        Some((name, claim)) => named_claim_from(alloc, name, claim),
        None => Ok(None),
    }
}

// Two words as a name and what is claimed of it.
fn named_claim_from(
    alloc: Global,
    name: &[u8],
    claim: &[u8],
) -> Result<Option<(Bytes, Option<Bytes>)>, Memory>
    ensures { IfOk result (λ c. c ≡ named_claim_from (name.now, claim.now)) }
{
    let Some(name) = name_of(alloc, name)? else {
        return Ok(None);
    };
    match claim_of_word(alloc, claim)? {
        Some(claim) => Ok(Some((name, claim))),
        None => Ok(None),
    }
}

/// The item of a line `fork`, `rest HASH`, `end KEY HASH` or `end none`. `None` for any other line, and for one of more
/// than 8,500 bytes.
pub fn item_line(line: &[u8]) -> Option<Item>
    ensures { result ≡ line_read item_of line.now }
{
    if line.len() > MAX_LINE {
        return None;
    }
    if is_lone(b"fork", line) {
        return Some(Item::Fork);
    }
    if let Some(word) = word_after(b"rest", line) {
        let hash = hash_of(word)?;
        return Some(Item::Rest(hash));
    }
    let leaf = end_line(line)?;
    Some(Item::End(leaf))
}

// Whether a line is a keyword alone.
fn is_lone(keyword: &[u8], line: &[u8]) -> bool
    ensures { result ≡ is_lone keyword.now (words line.now) }
{
    let (word, rest) = split_word(line);
    match rest {
        Some(_) => false,
        None => is_word(word, keyword),
    }
}

// The leaf after `end`, or its absence for `none`.
fn end_line(line: &[u8]) -> Option<Option<(Key, Hash)>>
    ensures { result ≡ end_line_of (words line.now) }
{
    if let Some(word) = word_after(b"end", line) {
        return if is_word(word, b"none") {
            Some(None)
        } else {
            None
        };
    }
    let (key, hash) = two_after(b"end", line)?;
    let leaf = pair_of(key, hash)?;
    Some(Some(leaf))
}
