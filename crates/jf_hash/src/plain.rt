// The root of a map, computed by the recursion on the bits of keys that defines it.
ghost use Rattle.std.specs.Prelude.{◌≡◌, ◌+◌, ◌<◌, ◌≤◌, length, T};
ghost use Rattle.std.specs.FinMap.{is_sorted};
ghost use Rattle.jf_path.specs.Keys.{bit, key_cmp};
ghost use Rattle.jf_hash.specs.Roots.{leaves_root};
ghost use Rattle.jf_hash.specs.Parts.{IsPart, IsFirstOne};

use crate::tagged::{Hash, empty, inner, leaf};
use jf_path::{bit, know_entries};

// The place of the first entry whose bit `depth` is 1, or the number of entries if there is none.
fn first_one(entries: &[(Hash, Hash)], depth: usize) -> usize
    requires { depth < 256 }
    ensures { IsFirstOne depth result entries.now }
{
    for (i, entry) in entries.iter().enumerate() {
        if bit(&entry.0, depth) {
            return i;
        }
    }
    entries.len()
}

// The root of entries whose keys agree in their first `depth` bits.
fn part_root(entries: &[(Hash, Hash)], depth: usize) -> Hash
    requires part { IsPart depth entries.now }
    ensures { result ≡ leaves_root depth entries.now }
{
    match entries {
        [] => empty(),
        [(key, value_hash)] => leaf(key, value_hash),
        _ => {
            let ones = first_one(entries, depth);
            let left = part_root(&entries[..ones], depth + 1);
            let right = part_root(&entries[ones..], depth + 1);
            inner(&left, &right)
        }
    }
}

/// The root of a map, from its keys, which rise strictly, and the hashes of their values (docs/FORMATS.md, Keys and
/// roots).
pub fn plain_root(entries: &[(Hash, Hash)]) -> Hash
    // The keys rise strictly.
    requires { T (is_sorted key_cmp entries.now) }
    // The result is the root, from bit 0 on, of the leaves of these keys and hashes of values.
    ensures { result ≡ leaves_root 0 entries.now }
{
    know_entries(entries);
    part_root(entries, 0)
}
