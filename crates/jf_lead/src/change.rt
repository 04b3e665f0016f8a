// The line of a change in a landing block, given without its line feed.
ghost use Rattle.std.specs.Prelude.{◌≡◌, ◌≤◌, length, codes, option_and_then, IfOk, IfSome};
ghost use Rattle.jf_path.specs.Limits.{max_value};
ghost use Rattle.jf_text.specs.Words.{words};
ghost use Rattle.jf_blocks.specs.Reading.{line_read, two_after, keyed_of};
ghost use Rattle.jf_lead.specs.Reading.{del_line_of, change_line_of};

use jf_blocks::{two_after, word_after};
use jf_path::{Bytes, Key, Memory};
use jf_text::{MAX_LINE, hash_of, value_of};
use std::alloc::Global;

/// The change of a line `put KEY =VALUE` or `del KEY`: the key, with its value, or with `None` if it is removed. The
/// value has at most 4,096 bytes. `None` for any other line, and for one of more than 8,500 bytes.
pub(crate) fn change_line(
    alloc: Global,
    line: &[u8],
) -> Result<Option<(Key, Option<Bytes>)>, Memory>
    ensures change { IfOk result (λ change. change ≡ line_read change_line_of line.now) }
    ensures short { IfOk result (λ change. IfSome change (λ c. IfSome c.1 (λ v. length v ≤ max_value))) }
{
    if line.len() > MAX_LINE {
        return Ok(None);
    }
    let Some(entry) = put_line_of(alloc, line)? else {
        return Ok(del_line_of(line));
    };
    let key = entry.0;
    Ok(Some((key, Some(entry.1))))
}

/// The key and the value of a line `put KEY =VALUE`.
fn put_line_of(alloc: Global, line: &[u8]) -> Result<Option<(Key, Bytes)>, Memory>
    ensures put { IfOk result (λ e. e ≡ option_and_then keyed_of (two_after (codes "put") (words line.now))) }
    ensures short { IfOk result (λ e. IfSome e (λ x. length x.1 ≤ max_value)) }
{
    match two_after(b"put", line) {
        Some((key, value)) => keyed_of(alloc, key, value),
        None => Ok(None),
    }
}

/// Two words as a key and a value.
fn keyed_of(alloc: Global, key: &[u8], value: &[u8]) -> Result<Option<(Key, Bytes)>, Memory>
    ensures entry { IfOk result (λ e. e ≡ keyed_of (key.now, value.now)) }
    ensures short { IfOk result (λ e. IfSome e (λ x. length x.1 ≤ max_value)) }
{
    let Some(key) = hash_of(key) else {
        return Ok(None);
    };
    match value_of(alloc, value)? {
        Some(value) => Ok(Some((key, value))),
        None => Ok(None),
    }
}

/// The key of a line `del KEY`, which is removed.
fn del_line_of(line: &[u8]) -> Option<(Key, Option<Bytes>)>
    ensures { result ≡ del_line_of (words line.now) }
{
    let key = hash_of(word_after(b"del", line)?)?;
    Some((key, None))
}
