// Snapshots at the front of a queue.
ghost use Rattle.std.specs.Prelude.{◌≡◌, ◌≤◌, drop, length};

use jf_node::Snapshot;
use std::collections::VecDeque;

/// Drops so many snapshots from the front.
pub(crate) fn drop_front(snapshots: &mut VecDeque<Snapshot>, count: u64)
    ensures { snapshots.new.items ≡ drop count snapshots.old.items }
{
    for _ in 0..count {
        let _ = snapshots.pop_front();
    }
}
