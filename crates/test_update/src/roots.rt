// The root of a map that is given as a list of keys and hashes.
ghost use Rattle.std.specs.Prelude.{◌≡◌};
ghost use Rattle.std.specs.FinMap.{is_sorted};
ghost use Rattle.std.specs.FinMap.Entries.{below_all};
ghost use Rattle.jf_path.specs.Keys.{key_cmp};

use jf_hash::{Hash, plain_root};
use jf_path::Key;
use std::cmp::Ordering;

// Whether a key is below all of these.
fn is_below<V>(key: &Key, entries: &[(Key, V)]) -> bool
    ensures { result ≡ below_all key_cmp key.now entries.now }
{
    match entries.split_first() {
        None => true,
        Some((first, rest)) => {
            let own = first.0;
            key.cmp(&own) == Ordering::Less && is_below(key, rest)
        }
    }
}

// Whether the keys ascend strictly.
pub(crate) fn is_rising<V>(entries: &[(Key, V)]) -> bool
    ensures { result ≡ is_sorted key_cmp entries.now }
{
    match entries.split_first() {
        None => true,
        Some((first, rest)) => {
            let own = first.0;
            is_below(&own, rest) && is_rising(rest)
        }
    }
}

// The root of the map of these entries, or `None` if their keys don't ascend.
pub(crate) fn root_of(entries: &[(Key, Hash)]) -> Option<Hash> {
    if is_rising(entries) {
        Some(plain_root(entries))
    } else {
        None
    }
}
