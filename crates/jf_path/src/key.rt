// A key is 32 bytes: 256 bits, or 64 nibbles of 4 bits, both counted from the highest bit of the first byte.
ghost use Rattle.std.specs.Prelude.{◌≡◌, ◌<◌};
ghost use Rattle.jf_path.specs.Keys.{bit};
ghost use Rattle.jf_path.specs.Nibbles.{nibble, common_bits};

use crate::nibbles::Nibble;

/// The place of a value in the tree: 32 bytes. Keys have the order of lists of bytes.
pub type Key = [u8; 32];

/// Bit `i` of a key, from 0, the highest bit of the first byte, to 255.
#[tactic(auto, unfolding(crate::specs::Keys::bit))]
pub fn bit(key: &Key, i: usize) -> bool
    // The bit is one of the 256 of a key.
    requires { i < 256 }
    // The result is bit `i` of the key.
    ensures { result ≡ bit key.now i }
{
    key[i / 8] >> (7 - i % 8) & 1 == 1
}

/// Nibble `i` of a key, from 0, the high half of the first byte, to 63: bits `4 * i` to `4 * i + 3`.
pub fn nibble(key: &Key, i: usize) -> Nibble
    // The nibble is one of the 64 of a key.
    requires { i < 64 }
    // The result is nibble `i` of the key.
    ensures { result ≡ nibble key.now i }
{
    Nibble::half(key, i)
}

/// The number of leading bits in which two keys agree, 256 if they are equal.
pub fn common_bits(a: &Key, b: &Key) -> u64
    // The result is the number of bits in which the keys agree before they differ.
    ensures { result ≡ common_bits a.now b.now }
{
    for i in 0..256 {
        if bit(a, i) != bit(b, i) {
            return i as u64;
        }
    }
    256
}
