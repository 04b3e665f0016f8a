// Whether the numbers of listed nodes are in order.
ghost use Rattle.std.specs.Prelude.{◌≡◌, ◌<◌, ◌^◌, length};
ghost use Rattle.std.specs.List.{list_all};
ghost use Rattle.jf_replay.specs.Cuts.{has_numbers};

use crate::since::NEVER;
use jf_path::{NodeName, PlainNode};

/// Whether a node goes stale after the version that wrote it and after the floor, and both versions are at most the
/// head.
fn has_numbers(floor: u64, head: u64, node: &(NodeName, PlainNode, u64)) -> bool
    ensures { result ≡ has_numbers floor head node.now }
{
    let written = node.0.version;
    let since = node.2;
    written <= head && written < since && floor < since && (since == NEVER || since <= head)
}

/// Whether this holds of all nodes.
pub(crate) fn have_numbers(floor: u64, head: u64, nodes: &[(NodeName, PlainNode, u64)]) -> bool
    ensures { result ≡ list_all (has_numbers floor head) nodes.now }
{
    for node in nodes {
        if !has_numbers(floor, head, node) {
            return false;
        }
    }
    true
}

/// Ensures that a slice has fewer than 2^64 nodes. Changes nothing.
pub(crate) fn know_count(nodes: &[(NodeName, PlainNode, u64)])
    ensures { length nodes.now < 2 ^ 64 }
{
    let _count = nodes.len();
}
