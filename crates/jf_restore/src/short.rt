// The limit on the values that a restore takes.
ghost use Rattle.std.specs.Prelude.{◌↔◌, IsTrue};
ghost use Rattle.jf_restore.specs.Restores.{HaveShortValues};

use jf_path::{Bytes, Key, MAX_VALUE, Pairs};

/// Whether each value has at most 4,096 bytes, as the values of a chunk must have before it is added.
pub fn are_short(entries: &Pairs) -> bool
    // True exactly if no value has more than 4,096 bytes.
    ensures { IsTrue result ↔ HaveShortValues entries.now }
{
    have_short_values(entries.as_slice())
}

fn have_short_values(entries: &[(Key, Bytes)]) -> bool
    ensures { IsTrue result ↔ HaveShortValues entries.now }
{
    for entry in entries {
        if entry.1.len() > MAX_VALUE {
            return false;
        }
    }
    true
}
