// A tagged hash is the SHA-256 of a tag byte, 0 to 4, and then of what is hashed (docs/FORMATS.md, Keys and roots).
ghost use Rattle.std.specs.Prelude.{◌≡◌, [], ◌∷◌, ◌++◌};
ghost use Rattle.sha2.specs.Sha256.{sha256};
ghost use Rattle.jf_hash.specs.Hashes.{E, L, N, V, K};

use sha2::{Digest, Sha256};

/// A SHA-256 hash (FIPS 180-4): 32 bytes.
pub type Hash = [u8; 32];

// The hash of no entry. The proof of `empty` computes it.
const NO_ENTRY: Hash = [
    0x6e, 0x34, 0x0b, 0x9c, 0xff, 0xb3, 0x7a, 0x98, 0x9c, 0xa5, 0x44, 0xe6, 0xbb, 0x78, 0x0a, 0x2c,
    0x78, 0x90, 0x1d, 0x3f, 0xb3, 0x37, 0x38, 0x76, 0x85, 0x11, 0xa3, 0x06, 0x17, 0xaf, 0xa0, 0x1d,
];

// The hash of an empty value. The proof of `no_bytes` computes it.
const NO_BYTES: Hash = [
    0x08, 0x4f, 0xed, 0x08, 0xb9, 0x78, 0xaf, 0x4d, 0x7d, 0x19, 0x6a, 0x74, 0x46, 0xa8, 0x6b, 0x58,
    0x00, 0x9e, 0x63, 0x6b, 0x61, 0x1d, 0xb1, 0x62, 0x11, 0xb6, 0x5a, 0x9a, 0xad, 0xff, 0x29, 0xc5,
];

/// The hash of no entry: of the byte 0 alone. It is written down, and nothing is hashed.
pub fn empty() -> Hash
    // The result is the hash of no entry.
    ensures { result ≡ E }
{
    NO_ENTRY
}

// The hash of a tag and two hashes. They are laid out as one message, of which the first block is hashed where it
// stands.
fn tagged_pair(tag: u8, first: &Hash, second: &Hash) -> Hash
    ensures { result ≡ sha256 (tag ∷ first.now ++ second.now) }
{
    let mut message = [tag; 65];
    message[1..33].copy_from_slice(first);
    message[33..].copy_from_slice(second);
    Sha256::digest(&message)
}

/// The hash of a leaf: of the byte 1, a key and the hash of its value.
#[tactic(auto, unfolding(crate::specs::Hashes::L))]
pub fn leaf(key: &Hash, value_hash: &Hash) -> Hash
    // The result is the hash of a leaf with this key and this hash of its value.
    ensures { result ≡ L key.now value_hash.now }
{
    tagged_pair(1, key, value_hash)
}

/// The hash of a pair: of the byte 2, the hash of the part whose next bit is 0, and the hash of the part whose next bit
/// is 1.
#[tactic(auto, unfolding(crate::specs::Hashes::N))]
pub fn inner(left: &Hash, right: &Hash) -> Hash
    // The result is the hash of a pair with these two hashes, the left one first.
    ensures { result ≡ N left.now right.now }
{
    tagged_pair(2, left, right)
}

// The hash of an empty value: of the byte 3 alone.
fn no_bytes() -> Hash
    ensures { result ≡ V [] }
{
    NO_BYTES
}

/// The hash of a value: of the byte 3 and the value. That of an empty value, which all keys of a set have, is written
/// down, and nothing is hashed.
#[tactic(auto, unfolding(crate::specs::Hashes::V))]
pub fn value(bytes: &[u8]) -> Hash
    // The result is the hash of a value of these bytes.
    ensures { result ≡ V bytes.now }
{
    if bytes.is_empty() {
        return no_bytes();
    }
    let mut hasher = Sha256::new_with_prefix(&[3u8]);
    hasher.update(bytes);
    hasher.finalize()
}

/// The key of a name: the hash of the byte 4 and the name.
#[tactic(auto, unfolding(crate::specs::Hashes::K))]
pub fn key_of(name: &[u8]) -> Hash
    // The result is the key of this name.
    ensures { result ≡ K name.now }
{
    let mut hasher = Sha256::new_with_prefix(&[4u8]);
    hasher.update(name);
    hasher.finalize()
}
