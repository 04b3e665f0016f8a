// Decimal words, without a sign or a leading zero, as numbers below 2^64.
ghost use Rattle.std.specs.Prelude.{◌≡◌};
ghost use Rattle.jf_text.specs.Words.{number, number_from};

use itoa::Buffer;

/// The number whose decimal text is this word. `None` if there is no such number below 2^64: a sign and a leading zero
/// are refused.
pub fn number_of(word: &[u8]) -> Option<u64>
    ensures { result ≡ number word.now }
{
    let mut number: u64 = 0;
    for digit in word {
        number = number
            .checked_mul(10)?
            .checked_add(u64::from(digit.saturating_sub(b'0')))?;
    }
    let mut text = Buffer::new();
    if word == text.format(number).as_bytes() {
        Some(number)
    } else {
        None
    }
}

/// The number that a word writes, or `None` if it writes no number or one that isn't from `least` to `most`.
pub fn number_from(least: u64, most: u64, word: &[u8]) -> Option<u64>
    ensures { result ≡ number_from least most word.now }
{
    let number = number_of(word)?;
    if number <= most && least <= number {
        Some(number)
    } else {
        None
    }
}
