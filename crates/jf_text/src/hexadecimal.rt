// Words of hexadecimal digits, `0` to `9` and `a` to `f`, two to a byte, as bytes.
ghost use Rattle.std.specs.Prelude.{◌≡◌, ◌<◌, ◌≤◌, ◌*◌, ◌%◌, length, true, false, Some, None, IfOk, IfSome};
ghost use Rattle.jf_path.specs.Limits.{max_value};
ghost use Rattle.jf_text.specs.Words.{digit, byte_of, unhex, bytes_within, name_of, hash_of, value_of};

use crate::limits::MAX_NAME;
use jf_path::{Bytes, MAX_VALUE, Memory};
use std::alloc::Global;

// The most digits of a word whose bytes are put together on the stack.
const SHORT: usize = 128;

// The value of a hexadecimal digit, or 16 and more for any other byte. Upper case is refused. Nothing branches on which
// digit it is: a loop can so take several digits at once.
fn digit_value(byte: u8) -> u8
    ensures digit { result < 16 → digit byte ≡ Some result }
    ensures other { 16 ≤ result → digit byte ≡ None }
{
    if byte <= b'9' {
        byte.wrapping_sub(b'0')
    } else if byte < b'a' {
        u8::MAX
    } else {
        byte - b'a' + 10
    }
}

// The byte that two digits write, the high half first.
fn byte_of(high: u8, low: u8) -> Option<u8>
    ensures { result ≡ byte_of high low }
{
    let high = digit_value(high);
    let low = digit_value(low);
    if high < 16 && low < 16 {
        Some(high * 16 + low)
    } else {
        None
    }
}

/// Writes the bytes of a word to `out`, which has half as many, and returns whether the word is all digits. If it isn't,
/// the bytes of `out` may be any.
pub fn unhex_into(word: &[u8], out: &mut [u8]) -> bool
    requires { length word.now ≡ 2 * length out.old }
    ensures length { length out.new ≡ length out.old }
    ensures read { result ≡ true → unhex word.now ≡ Some out.new }
    ensures refused { result ≡ false → unhex word.now ≡ None }
{
    // Digits are judged all together after the last one.
    let mut greatest = 0;
    'pairs: for i in 0..out.len() {
        let high = digit_value(word[2 * i]);
        let low = digit_value(word[2 * i + 1]);
        greatest = greatest.max(high).max(low);
        out[i] = high % 16 * 16 + low % 16;
    }
    greatest < 16
}

/// The bytes that a word writes, or `None` if it isn't an even number of digits.
fn unhexed_bytes(alloc: Global, word: &[u8]) -> Result<Option<Bytes>, Memory>
    ensures { IfOk result (λ bytes. bytes ≡ unhex word.now) }
{
    if word.len() % 2 == 1 {
        return Ok(None);
    }
    if word.len() <= SHORT {
        short_unhexed(alloc, word)
    } else {
        long_unhexed(alloc, word)
    }
}

// The bytes that an even number of digits writes, first put together on the stack.
fn short_unhexed(alloc: Global, word: &[u8]) -> Result<Option<Bytes>, Memory>
    requires even { length word.now % 2 ≡ 0 }
    requires short { length word.now ≤ 128 }
    ensures { IfOk result (λ bytes. bytes ≡ unhex word.now) }
{
    let mut room = [0; SHORT / 2];
    let count = word.len() / 2;
    if unhex_into(word, &mut room[..count]) {
        Ok(Some(Bytes::copy_of(alloc, &room[..count])?))
    } else {
        Ok(None)
    }
}

// The bytes that an even number of digits writes, one after another.
fn long_unhexed(alloc: Global, word: &[u8]) -> Result<Option<Bytes>, Memory>
    requires even { length word.now % 2 ≡ 0 }
    ensures { IfOk result (λ bytes. bytes ≡ unhex word.now) }
{
    let mut bytes = Bytes::new(alloc);
    bytes.reserve(word.len() as u64 / 2)?;
    'pairs: for i in 0..word.len() / 2 {
        let Some(byte) = byte_of(word[2 * i], word[2 * i + 1]) else {
            return Ok(None);
        };
        bytes.push(byte)?;
    }
    Ok(Some(bytes))
}

/// The bytes that a word writes, or `None` if it isn't hexadecimal or there aren't `least` to `most` of them.
fn bytes_within(alloc: Global, least: u64, most: u64, word: &[u8]) -> Result<Option<Bytes>, Memory>
    ensures { IfOk result (λ bytes. bytes ≡ bytes_within least most word.now) }
{
    let count = word.len() as u64 / 2;
    if count < least || most < count {
        return Ok(None);
    }
    unhexed_bytes(alloc, word)
}

/// The name that a word writes, of 1 to 128 bytes. `None` if the word is no name (docs/FORMATS.md, Scripts).
pub fn name_of(alloc: Global, word: &[u8]) -> Result<Option<Bytes>, Memory>
    ensures { IfOk result (λ name. name ≡ name_of word.now) }
{
    bytes_within(alloc, 1, MAX_NAME, word)
}

/// The value that a word writes: the sign `=`, then at most 4,096 bytes. `None` if the word is no value
/// (docs/FORMATS.md, Scripts).
pub fn value_of(alloc: Global, word: &[u8]) -> Result<Option<Bytes>, Memory>
    ensures value { IfOk result (λ value. value ≡ value_of word.now) }
    ensures short { IfOk result (λ value. IfSome value (λ v. length v ≤ max_value)) }
{
    match word {
        [b'=', digits @ ..] => bytes_within(alloc, 0, MAX_VALUE, digits),
        _ => Ok(None),
    }
}

/// The 32 bytes of a key or a hash that a word writes. `None` if the word isn't 64 digits.
pub fn hash_of(word: &[u8]) -> Option<[u8; 32]>
    ensures { result ≡ hash_of word.now }
{
    if word.len() != 64 {
        return None;
    }
    let mut hash = [0; 32];
    if unhex_into(word, &mut hash) {
        Some(hash)
    } else {
        None
    }
}
