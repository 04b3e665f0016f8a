// The hashes of docs/FORMATS.md, "Keys and roots".
ghost use Rattle.std.specs.Prelude.{◌≡◌};
ghost use Rattle.jf_hash.specs.Hashes.{K, L, N, V};

use jf_hash::{inner, key_of, leaf, value};

/// The key of a name.
#[unsafe(no_mangle)]
pub extern "C" fn jelly_key(name: &[u8], key: &mut [u8; 32])
    ensures { key.new ≡ K name.now }
{
    *key = key_of(name);
}

/// The hash of a value.
#[unsafe(no_mangle)]
pub extern "C" fn jelly_value(bytes: &[u8], hash: &mut [u8; 32])
    ensures { hash.new ≡ V bytes.now }
{
    *hash = value(bytes);
}

/// The hash of a leaf: of a key, and the hash of its value.
#[unsafe(no_mangle)]
pub extern "C" fn jelly_leaf(key: &[u8; 32], value_hash: &[u8; 32], hash: &mut [u8; 32])
    ensures { hash.new ≡ L key.now value_hash.now }
{
    *hash = leaf(key, value_hash);
}

/// The hash of a pair: of the part whose next bit is 0, and of the part whose next bit is 1.
#[unsafe(no_mangle)]
pub extern "C" fn jelly_pair(left: &[u8; 32], right: &[u8; 32], hash: &mut [u8; 32])
    ensures { hash.new ≡ N left.now right.now }
{
    *hash = inner(left, right);
}
