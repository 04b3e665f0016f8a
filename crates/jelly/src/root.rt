// The root of a map, by the recursion on the bits of keys that defines it.
ghost use Rattle.std.specs.Prelude.{◌≡◌, ◌+◌, ◌<◌, ◌≤◌, length};
ghost use Rattle.std.specs.FinMap.{is_sorted};
ghost use Rattle.std.specs.Ordering.{is_lt};
ghost use Rattle.jf_path.specs.Keys.{key_cmp};
ghost use Rattle.jf_hash.specs.Roots.{leaves_root};
ghost use Rattle.jf_hash.specs.Parts.{IsPart, IsFirstOne};
ghost use Rattle.jelly.specs.MapRoots.{leaves_in, root_number, root_after, HaveKeys, IsRootOfMap};

use jf_hash::{Hash, empty, inner, leaf};
use jf_path::{bit, know_key};

/// An entry of a map: its key, and the hash of its value.
#[repr(C)]
#[derive(Clone, Copy)]
pub struct Entry {
    pub key: [u8; 32],
    pub value_hash: [u8; 32],
}

/// The root of the map with these entries, whose keys rise strictly. 0 if they do; otherwise 1, and `root` is unchanged.
#[tactic(auto, unfolding(jf_hash::specs::Roots::root))]
#[unsafe(no_mangle)]
pub extern "C" fn jelly_root(entries: &[Entry], root: &mut [u8; 32]) -> u32
    // The result is 0 if the keys rise strictly, and 1 otherwise.
    ensures number { result ≡ root_number (leaves_in entries.now) }
    // The root is that of the leaves with these keys and hashes, and unchanged if the keys don't rise.
    ensures root { root.new ≡ root_after root.old (leaves_in entries.now) }
    // After 0, it is the root of the map with these leaves.
    ensures map { IsRootOfMap (leaves_in entries.now) result root.new }
{
    if !are_sorted(entries) {
        return 1;
    }
    know_entries(entries);
    *root = part_root(entries, 0);
    0
}

// Each entry has a key of 32 bytes.
fn know_entries(entries: &[Entry])
    ensures { HaveKeys entries.now }
{
    for entry in entries {
        know_key(&entry.key);
    }
}

// Whether the keys of entries rise strictly.
fn are_sorted(entries: &[Entry]) -> bool
    ensures { result ≡ is_sorted key_cmp (leaves_in entries.now) }
{
    for i in 1..entries.len() {
        if !is_below(&entries[i - 1], &entries[i]) {
            return false;
        }
    }
    true
}

// Whether one entry's key is below another's.
fn is_below(entry: &Entry, next: &Entry) -> bool
    ensures { result ≡ is_lt (key_cmp entry.now.key next.now.key) }
{
    entry.key.cmp(&next.key).is_lt()
}

// The place of the first entry whose bit `depth` is 1, or the number of entries if there is none.
fn first_one(entries: &[Entry], depth: usize) -> usize
    requires { depth < 256 }
    ensures { IsFirstOne depth result (leaves_in entries.now) }
{
    for (i, entry) in entries.iter().enumerate() {
        if bit(&entry.key, depth) {
            return i;
        }
    }
    entries.len()
}

// The root of entries whose keys agree in their first `depth` bits.
fn part_root(entries: &[Entry], depth: usize) -> Hash
    requires part { IsPart depth (leaves_in entries.now) }
    ensures { result ≡ leaves_root depth (leaves_in entries.now) }
{
    match entries {
        [] => empty(),
        [entry] => leaf(&entry.key, &entry.value_hash),
        _ => {
            let ones = first_one(entries, depth);
            let left = part_root(&entries[..ones], depth + 1);
            let right = part_root(&entries[ones..], depth + 1);
            inner(&left, &right)
        }
    }
}
