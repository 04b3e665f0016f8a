// What follows from the types of keys, bytes, entries, names and children. These functions change nothing.
ghost use Rattle.std.specs.Prelude.{ℕ, ◌<◌, ◌^◌, slice_index};
ghost use Rattle.std.specs.List.{AllByRecursion};
ghost use Rattle.jf_path.specs.Keys.{IsBytes, IsKey};
ghost use Rattle.jf_path.specs.Names.{IsName};

use crate::children::Child;
use crate::key::Key;
use crate::name::NodeName;

/// Each byte is below 256.
pub fn know_bytes(bytes: &[u8])
    // Each number of the list is below 256.
    ensures { IsBytes bytes.now }
{
    know_each(bytes);
}

/// A key has 32 bytes.
pub fn know_key(key: &Key)
    // The key has 32 bytes, each below 256.
    ensures { IsKey key.now }
{
    know_each(key);
}

/// Each entry has a key of 32 bytes.
pub fn know_entries<V>(entries: &[(Key, V)])
    // The key of each entry has 32 bytes, each below 256.
    ensures { AllByRecursion (λ e. IsKey e.0) entries.now }
{
    for entry in entries {
        know_key(&entry.0);
    }
}

/// A name is one that can be spelled.
pub fn know_name(name: &NodeName)
    // The version has 64 bits, and the path at most 64 nibbles.
    ensures { IsName name.now }
{
    know_version(name.version);
    let _ = name.path.len();
}

/// The version of each child has 64 bits.
pub fn know_versions(children: &[Child])
    // Each version is below 2^64.
    ensures { AllByRecursion (λ c. c.version < 2 ^ 64) children.now }
{
    for child in children {
        know_version(child.version);
    }
}

// A version has 64 bits.
fn know_version(version: u64)
    ensures { version < 2 ^ 64 }
{
    let _ = version;
}

// The byte at each place is below 256.
fn know_each(bytes: &[u8])
    requires { (i : ℕ) → slice_index bytes.now i < 256 }
    ensures { (i : ℕ) → slice_index bytes.now i < 256 }
{
    let _ = bytes;
}
