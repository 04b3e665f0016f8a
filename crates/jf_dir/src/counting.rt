// The number of nodes of a snapshot.
ghost use Rattle.std.specs.Prelude.{◌≡◌, ◌+◌, ◌-◌, length, IfOk};
ghost use Rattle.jf_model.specs.Nodes.{nodes, nodes_below};

use jf_diff::child_of;
use jf_node::{Link, Snapshot};
use jf_path::{Memory, Nibble};

/// The number of nodes of a snapshot.
pub(crate) fn node_count(snapshot: &Snapshot) -> Result<u64, Memory>
    ensures { IfOk result (λ n. n ≡ length (nodes snapshot.now.map)) }
{
    match snapshot.top() {
        None => Ok(1),
        Some(link) => count_below(link),
    }
}

/// The number of nodes from `link` down.
fn count_below(link: &Link) -> Result<u64, Memory>
    ensures { IfOk result (λ n. n ≡ length (nodes_below (64 - link.now.depth) link.now.depth link.now.entries)) }
{
    link.know();
    let mut count = 1;
    for n in 0..16 {
        let nibble = Nibble::of(n);
        if let Some(child) = child_of(link, nibble) {
            let below = count_below(child)?;
            count = sum_within(count, below)?;
        }
    }
    Ok(count)
}

/// The sum of two counts. A sum above what a number holds would take more memory than there is.
pub(crate) fn sum_within(a: u64, b: u64) -> Result<u64, Memory>
    ensures { IfOk result (λ n. n ≡ a + b) }
{
    match a.checked_add(b) {
        None => Err(Memory),
        Some(sum) => Ok(sum),
    }
}
