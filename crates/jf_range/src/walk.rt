// The entries from a place on. A node whose entries all stand before the place is passed by its count, so the walk goes
// down to the place, and from there only to what it copies.
ghost use Rattle.std.specs.Prelude.{◌≡◌, ◌+◌, ◌-◌, ◌≤◌, ◌++◌, OnOk, length, take, drop};
ghost use Rattle.jf_range.specs.Visits.{most_nodes};

use jf_node::{Link, Seen};
use jf_path::{Bytes, Memory, Pairs};
use jf_steps::Steps;
use std::alloc::Global;
use std::sync::ledger::Ledger;

// Appends the entries of a node after its first `skip`, `room` of them or as many as there are. A step is one node
// looked at.
pub(crate) fn copy_range<L: Ledger>(
    alloc: Global,
    link: &Link,
    skip: u64,
    room: u64,
    out: &mut Pairs,
    steps: &mut Steps<L>,
) -> Result<(), Memory>
    ensures copied { OnOk result (out.new ≡ out.old ++ take room (drop skip link.now.entries)) }
    ensures cost { steps.new ≤ steps.old + most_nodes (64 - link.now.depth) skip room (length link.now.entries) }
{
    steps.tick();
    if room == 0 || link.count() <= skip {
        return Ok(());
    }
    match link.view() {
        Seen::Leaf { key, value, .. } => {
            let value = Bytes::copy_of(alloc, value)?;
            out.push((*key, value))
        }
        Seen::Inner { children } => {
            let mut skip = skip;
            let mut room = room;
            for n in 0..16 {
                if let Some(child) = children.child_at(n) {
                    child.know();
                    let before = out.len();
                    copy_range(alloc, child, skip, room, out, steps)?;
                    room -= out.len() - before;
                    skip = skip.saturating_sub(child.count());
                }
            }
            Ok(())
        }
    }
}
