// What a snapshot writes over an older one: the public call of this crate.
ghost use Rattle.std.specs.Prelude.{◌≡◌, ◌↔◌, ◌+◌, ◌<◌, ◌≤◌, length, IfOk, IsTrue};
ghost use Rattle.std.specs.FinMap.{entries};
ghost use Rattle.std.specs.List.Sorted.{IsPermutation};
ghost use Rattle.jf_diff.specs.Changed.{ChangesSeveral};
ghost use Rattle.jf_diff.specs.Landings.{IsNextOf, IsFreshCount, written_nodes, stale_names_in};

use crate::changed::are_several;
use crate::lists::Written;
use crate::named_nodes::NamedNodes;
use crate::top::{fresh_of, stale_of};
use crate::wide::written_wide;
use jf_join::{Gate, Workers};
use jf_node::Snapshot;
use jf_path::Memory;
use jf_steps::Steps;
use std::alloc::Global;
use std::marker::Brand;
use std::sync::ledger::{Blank, Ledger};
use std::thread::Threads;

/// Does what `landing_lists` does with one worker, with its steps counted. A step is one node of either snapshot gone into:
/// there are at most as many as the nodes that the landing wrote and those that it made stale.
pub fn landing_lists_counted<L: Ledger>(
    alloc: Global,
    old: &Snapshot,
    new: &Snapshot,
    steps: &mut Steps<L>,
) -> Result<Written, Memory>
    // The second snapshot is the first after some changes, of the next version; nodes that aren't fresh keep their versions.
    requires next { IsNextOf old.now new.now }
    // The first list has the nodes that the landing wrote, each with its name and by itself, as it is written.
    ensures fresh { IfOk result (λ w. w.fresh ≡ written_nodes old.now.map new.now.map new.now) }
    // The second list has the names under which the first snapshot has the nodes that became stale, each once.
    ensures stale { IfOk result (λ w. IsPermutation (stale_names_in old.now.map new.now.map old.now) w.stale) }
    // At most 66 n + 1 nodes were written, for any batch of n keys that leads from the first snapshot to the second.
    ensures bounded { IfOk result (λ w. IsFreshCount old.now new.now (length w.fresh)) }
    // At most one node is gone into for each node that is listed.
    ensures cost { IfOk result (λ w. steps.new ≤ steps.old + length w.fresh + length w.stale) }
{
    old.know();
    let nodes = fresh_of(alloc, new.top(), new.version(), steps)?;
    let fresh = NamedNodes::of(alloc, &nodes)?;
    let stale = stale_of(
        alloc,
        old.top(),
        old.version(),
        new.top(),
        new.version(),
        steps,
    )?;
    Ok(Written { fresh, stale })
}

/// The lists, made in the caller's thread, with their steps counted in a ledger of its own.
fn written_in_turn<L: Ledger>(
    alloc: Global,
    old: &Snapshot,
    new: &Snapshot,
    blank: Blank,
) -> Result<Written, Memory>
    requires name { blank.name ≡ L.name }
    requires parts { blank.parts ≡ L.parts }
    requires positive { 0 < blank.parts }
    requires next { IsNextOf old.now new.now }
    ensures fresh { IfOk result (λ w. w.fresh ≡ written_nodes old.now.map new.now.map new.now) }
    ensures stale { IfOk result (λ w. IsPermutation (stale_names_in old.now.map new.now.map old.now) w.stale) }
    ensures bounded { IfOk result (λ w. IsFreshCount old.now new.now (length w.fresh)) }
{
    let mut steps = Steps::<L>::new(blank);
    landing_lists_counted(alloc, old, new, &mut steps)
}

/// Whether the lists are made in pieces: with more workers than one, if the landing changed nodes below more than one
/// nibble.
fn are_cut(old: &Snapshot, new: &Snapshot, workers: Workers) -> bool
    requires next { IsNextOf old.now new.now }
    ensures { IsTrue result ↔ ((1 < workers) × ChangesSeveral (entries old.now.map) (entries new.now.map)) }
{
    old.know();
    let number = workers.get();
    number > 1 && are_several(old.top(), new.top(), new.version())
}

/// The nodes that the landing of `new` over `old` wrote, and the names of those of `old` that it made stale. With more
/// workers than one, what is listed from the children at one nibble down is a piece of work, unless the landing changed
/// nodes below one nibble alone; the gate is notified of the piece of nibble n as piece 16 + n.
pub fn landing_lists<H: Threads + Sync, G: Gate>(
    rt: &H,
    alloc: Global,
    old: &Snapshot,
    new: &Snapshot,
    workers: Workers,
    gate: &G,
) -> Result<Written, Memory>
    // The second snapshot is the first after some changes, of the next version; nodes that aren't fresh keep their versions.
    requires next { IsNextOf old.now new.now }
    // The first list has the nodes that the landing wrote, each with its name and by itself, as it is written.
    ensures fresh { IfOk result (λ w. w.fresh ≡ written_nodes old.now.map new.now.map new.now) }
    // The second list has the names under which the first snapshot has the nodes that became stale, each once.
    ensures stale { IfOk result (λ w. IsPermutation (stale_names_in old.now.map new.now.map old.now) w.stale) }
    // At most 66 n + 1 nodes were written, for any batch of n keys that leads from the first snapshot to the second.
    ensures bounded { IfOk result (λ w. IsFreshCount old.now new.now (length w.fresh)) }
{
    if !are_cut(old, new, workers) {
        return written_in_turn::<Brand>(alloc, old, new, Blank::new(1));
    }
    old.know();
    let was = old.top();
    let top = new.top();
    let version = new.version();
    let lists = written_wide(rt, alloc, was, old.version(), top, version, workers, gate)?;
    Ok(lists)
}
