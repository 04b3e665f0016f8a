// The number of nodes of the map of entries, without making them.
ghost use Rattle.std.specs.Prelude.{◌≡◌, ℕ, ◌<◌, ◌≤◌, ◌+◌, IfOk, T, length};
ghost use Rattle.std.specs.FinMap.{is_sorted};
ghost use Rattle.jf_path.specs.Keys.{key_cmp};
ghost use Rattle.jf_hash.specs.Maps.{map_of_entries};
ghost use Rattle.jf_model.specs.Nodes.{nodes};
ghost use Rattle.jf_model.specs.Parts.{IsPartUnder};
ghost use Rattle.jf_update.specs.Restored.{part_nodes, nodes_under};

use crate::piece::piece_end;
use jf_path::{Key, Memory, Nibble, SharedBytes, know_entries};

/// The number of nodes of the map of these entries. `Memory` if it is above what a number holds: there would be no
/// memory for such nodes.
pub fn count_of_nodes(entries: &[(Key, SharedBytes)]) -> Result<u64, Memory>
    requires sorted { T (is_sorted key_cmp entries.now) }
    ensures { IfOk result (λ n. n ≡ length (nodes (map_of_entries entries.now))) }
{
    know_entries(entries);
    match entries {
        [] => Ok(1),
        _ => count_part(entries, 0),
    }
}

/// The sum of two counts.
fn sum_of(a: u64, b: u64) -> Result<u64, Memory>
    ensures { IfOk result (λ n. n ≡ a + b) }
{
    match a.checked_add(b) {
        None => Err(Memory),
        Some(sum) => Ok(sum),
    }
}

/// The number of nodes of entries in the order of their keys, at a depth in nibbles.
#[cycle(count)]
fn count_part(entries: &[(Key, SharedBytes)], depth: u64) -> Result<u64, Memory>
    requires depth { depth ≤ 64 }
    requires part { (path : ℕ → ℕ) × IsPartUnder depth path entries.now }
    ensures { IfOk result (λ n. n ≡ length (part_nodes depth entries.now)) }
{
    match entries {
        [] => Ok(0),
        [_] => Ok(1),
        _ => {
            let below = count_under(entries, depth)?;
            sum_of(1, below)
        }
    }
}

/// The number of nodes below the node of entries in the order of their keys.
#[cycle(count)]
fn count_under(entries: &[(Key, SharedBytes)], depth: u64) -> Result<u64, Memory>
    requires depth { depth < 64 }
    requires part { (path : ℕ → ℕ) × IsPartUnder depth path entries.now }
    ensures { IfOk result (λ n. n ≡ length (nodes_under depth entries.now)) }
{
    let mut count = 0;
    let mut start = 0;
    for n in 0..16 {
        let end = start + piece_end(&entries[start..], depth, Nibble::of(n));
        let child = count_part(&entries[start..end], depth + 1)?;
        count = sum_of(count, child)?;
        start = end;
    }
    Ok(count)
}
