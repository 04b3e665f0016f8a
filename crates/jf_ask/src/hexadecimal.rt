// Words of hexadecimal digits as bytes, written into room that is there.
ghost use Rattle.std.specs.Prelude.{◌≡◌, ◌*◌, ◌/◌, ◌+◌, ◌≤◌, length, take, drop, IfSome, option_map, Some};
ghost use Rattle.jf_text.specs.Words.{unhex, bytes_within};

use jf_text::unhex_into;

/// Writes the bytes of a word to the front of `out`, and returns how many they are. `None` if the word isn't an even
/// number of digits; the front of `out` may then have changed, for half as many bytes as the word has. What comes after
/// these bytes is unchanged.
pub fn unhexed_count(word: &[u8], out: &mut [u8]) -> Option<usize>
    // `out` has room for half as many bytes as the word has, rounded down.
    requires { length word.now ≤ 2 * length out.old + 1 }
    // The length of `out` is unchanged.
    ensures length { length out.new ≡ length out.old }
    // After `Some` the count is at most the length of `out`.
    ensures within { IfSome result (λ n. n ≤ length out.new) }
    // After `Some(n)` the first n bytes are those of the word; `None` comes exactly if it isn't an even number of digits.
    ensures bytes { option_map (λ n. take n out.new) result ≡ unhex word.now }
    // What stands in `out` after half as many bytes as the word has, rounded down, is unchanged.
    ensures rest { drop (length word.now / 2) out.new ≡ drop (length word.now / 2) out.old }
{
    if word.len() % 2 == 1 {
        return None;
    }
    let count = word.len() / 2;
    if unhex_into(word, &mut out[..count]) {
        Some(count)
    } else {
        None
    }
}

/// Writes the bytes of a word to the front of `out`, and returns how many they are. `None` if it isn't hexadecimal or
/// there aren't `least` to `most` of them.
pub(crate) fn bytes_within(least: usize, most: usize, word: &[u8], out: &mut [u8]) -> Option<usize>
    requires { most ≤ length out.old }
    ensures length { length out.new ≡ length out.old }
    ensures within { IfSome result (λ n. n ≤ length out.new) }
    ensures bytes { option_map (λ n. take n out.new) result ≡ bytes_within least most word.now }
    ensures digits { IfSome result (λ n. unhex word.now ≡ Some (take n out.new)) }
{
    let count = word.len() / 2;
    if count < least || most < count {
        return None;
    }
    unhexed_count(word, out)
}
