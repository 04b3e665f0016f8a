// The entry at a place. A child whose entries all stand before the place is passed by its count, so the walk goes into
// one child of each node.
ghost use Rattle.std.specs.Prelude.{◌≡◌, ◌+◌, ◌-◌, ◌*◌, ◌<◌, ◌≤◌, None, is_some, nat_lt, option_map, slice_get, slice_index_or};
ghost use Rattle.std.specs.FinMap as fin;
ghost use Rattle.std.specs.Option.{option_copied};

use jf_node::{Branches, Link, Seen, Snapshot};
use jf_path::Key;
use jf_steps::Steps;
use std::marker::Brand;
use std::sync::ledger::{Blank, Ledger};

/// The key and the value at a place of a snapshot's map, from 0 on in ascending order of keys; `None` exactly if the
/// place isn't below the number of entries. Takes no memory: both are the snapshot's own.
pub fn nth(snapshot: &Snapshot, place: u64) -> Option<(&Key, &[u8])>
    // There is an entry exactly if `place` is below the number of the map's entries.
    ensures there { is_some result ≡ nat_lt place (fin.len snapshot.now.map) }
    // The entry is the map's key and value at `place`, from 0 on in ascending order of keys.
    ensures entry { option_map (λ e. (e.0.now, e.1.now)) result ≡ slice_get (fin.entries snapshot.now.map) place }
{
    nth_uncounted::<Brand>(snapshot, place, Blank::new(1))
}

/// The entry that `nth` returns, with its steps counted. A step is one of the sixteen places of a node looked at,
/// whether it has a child or not: however large the map is and wherever the place, there are at most 1,024.
pub fn nth_counted<'a, L: Ledger>(
    snapshot: &'a Snapshot,
    place: u64,
    steps: &mut Steps<L>,
) -> Option<(&'a Key, &'a [u8])>
    // There is an entry exactly if `place` is below the number of the map's entries.
    ensures there { is_some result ≡ nat_lt place (fin.len snapshot.now.map) }
    // The entry is the map's key and value at `place`, from 0 on in ascending order of keys.
    ensures entry { option_map (λ e. (e.0.now, e.1.now)) result ≡ slice_get (fin.entries snapshot.now.map) place }
    // At most 1,024 steps are added to the count.
    ensures cost { steps.new ≤ steps.old + 1024 }
{
    match snapshot.top() {
        None => None,
        Some(top) => nth_below(top, place, steps),
    }
}

// Does it in a ledger of its own.
fn nth_uncounted<L: Ledger>(snapshot: &Snapshot, place: u64, blank: Blank) -> Option<(&Key, &[u8])>
    requires name { blank.name ≡ L.name }
    requires parts { blank.parts ≡ L.parts }
    requires positive { 0 < blank.parts }
    ensures there { is_some result ≡ nat_lt place (fin.len snapshot.now.map) }
    ensures entry { option_map (λ e. (e.0.now, e.1.now)) result ≡ slice_get (fin.entries snapshot.now.map) place }
{
    let mut steps = Steps::<L>::new(blank);
    nth_counted(snapshot, place, &mut steps)
}

// The entry at a place of a node.
fn nth_below<'a, L: Ledger>(
    link: &'a Link,
    place: u64,
    steps: &mut Steps<L>,
) -> Option<(&'a Key, &'a [u8])>
    ensures entry { option_map (λ e. (e.0.now, e.1.now)) result ≡ slice_get link.now.entries place }
    ensures cost { steps.new ≤ steps.old + 16 * (64 - link.now.depth) }
{
    match link.view() {
        Seen::Leaf { key, value, .. } => { if place == 0 { Some((key, value)) } else { None } }
        Seen::Inner { children } => {
            let mut left = place;
            for n in 0..16 {
                if let Some(child) = look_at(children, n, steps) {
                    let count = child.count();
                    if left < count {
                        return nth_below(child, left, steps);
                    }
                    left -= count;
                }
            }
            None
        }
    }
}

// The one call that looks at a place of a node.
fn look_at<'a, L: Ledger>(
    children: &'a Branches,
    n: usize,
    steps: &mut Steps<L>,
) -> Option<&'a Link>
    requires { n < 16 }
    ensures child { option_copied result ≡ slice_index_or children.now n None }
    ensures cost { steps.new ≡ steps.old + 1 }
{
    steps.tick();
    children.child_at(n)
}
