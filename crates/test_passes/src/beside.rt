// One pass pins the head and reads it, while the other commits and prunes to the head, in another thread.
ghost use Rattle.std.specs.Prelude.{◌≡◌};
ghost use Rattle.std.specs.Thread.{IsSync};
ghost use Rattle.jf_store.specs.Passes.{IsPassOf};
ghost use Rattle.test_passes.specs.Scenes.{IsScene, StaysScene};

use crate::closing::{Run, goes_well};
use crate::scene::Scene;
use crate::steps::{pin_head, prunes_to, put, reads_pinned};
use crate::threads::side_by_side;
use jf_disk::MemDisk;
use jf_store::{Pass, Pruned, Store};
use jf_store_play::passes::{look, prune, unpin};
use std::alloc::Global;
use std::sync::Wait;
use std::sync::atomic::{AtomicU64, Ordering};
use std::test::Fail;
use std::thread::Threads;

// How often the head is committed and pruned to, and how often it is pinned at most: each time that a pin is refused, a
// pruning was done since the look.
pub(crate) const ROUNDS: u8 = 120;

const TRIES: u64 = 300;

// Whether the floor that the pruner showed last and the store's are at most this version.
fn is_kept<H: Wait>(
    rt: &H,
    store: &Store<MemDisk>,
    pass: &mut Pass<MemDisk>,
    floor: &AtomicU64,
    version: u64,
) -> bool
    requires { IsPassOf pass.old store.now }
    ensures { IsPassOf pass.new store.now × (pass.new.number ≡ pass.old.number) }
{
    let shown = floor.load(Ordering::SeqCst) <= version;
    match look(rt, store, pass) {
        Ok(look) => shown && look.state.floor <= version,
        Err(_) => false,
    }
}

// Pins the head, reads it and unpins it. Returns whether it was read as it was, and kept, or `None` if it wasn't pinned.
fn pin_once<H: Wait>(
    rt: &H,
    store: &Store<MemDisk>,
    pass: &mut Pass<MemDisk>,
    floor: &AtomicU64,
) -> Option<bool>
    requires { IsPassOf pass.old store.now }
    ensures { IsPassOf pass.new store.now × (pass.new.number ≡ pass.old.number) }
{
    let (version, place) = pin_head(rt, store, pass)?;
    let kept = is_kept(rt, store, pass, floor, version);
    let read = reads_pinned(pass, place, version);
    let unpinned = unpin(store, pass, place) == Some(version);
    Some(kept && read && unpinned)
}

// Returns whether the head was pinned, and each time read as it was, and kept.
fn pin_heads<H: Wait>(
    rt: &H,
    store: &Store<MemDisk>,
    pass: &mut Pass<MemDisk>,
    floor: &AtomicU64,
) -> bool
    requires { IsPassOf pass.old store.now }
    ensures { IsPassOf pass.new store.now × (pass.new.number ≡ pass.old.number) }
{
    let mut pinned = false;
    let mut well = true;
    for _ in 0..TRIES {
        if let Some(read) = pin_once(rt, store, pass, floor) {
            pinned = true;
            well = read && well;
        }
    }
    pinned && well
}

// Whether a pruning to this bound raised the floor to the bound, or a pin of the other pass held it.
fn is_pruned(pruned: &Pruned, bound: u64) -> bool {
    match pruned.held {
        None => pruned.bound == bound && pruned.floor == bound,
        Some(held) => {
            pruned.bound == bound
                && pruned.floor < bound
                && held.owner == 0
                && held.version <= pruned.floor
        }
    }
}

// Commits a byte, prunes to the new head, and shows the floor.
fn put_and_prune<H: Threads + Wait + Sync>(
    rt: &H,
    alloc: Global,
    store: &Store<MemDisk>,
    pass: &mut Pass<MemDisk>,
    floor: &AtomicU64,
    byte: u8,
) -> bool
    requires { IsPassOf pass.old store.now }
    ensures { IsPassOf pass.new store.now × (pass.new.number ≡ pass.old.number) }
{
    let Some(landed) = put(rt, alloc, store, pass, b'a', byte) else {
        return false;
    };
    match prune(rt, store, pass, landed.version) {
        Ok(pruned) => {
            floor.store(pruned.floor, Ordering::SeqCst);
            is_pruned(&pruned, landed.version)
        }
        Err(_) => false,
    }
}

fn put_and_prune_often<H: Threads + Wait + Sync>(
    rt: &H,
    alloc: Global,
    store: &Store<MemDisk>,
    pass: &mut Pass<MemDisk>,
    floor: &AtomicU64,
) -> bool
    requires { IsPassOf pass.old store.now }
    ensures { IsPassOf pass.new store.now × (pass.new.number ≡ pass.old.number) }
{
    let mut all = true;
    for byte in 0..ROUNDS {
        all = put_and_prune(rt, alloc, store, pass, floor, byte) && all;
    }
    all
}

// Pins in one thread and prunes in another. Returns whether all went well.
fn pin_and_prune<H: Threads + Wait + Sync>(rt: &H, alloc: Global, scene: &mut Scene) -> bool
    requires { IsScene scene.old }
    ensures { StaysScene scene.old scene.new }
{
    let shown = AtomicU64::new(0);
    let floor = &shown;
    let pinner = |store: &Store<MemDisk>, pass: &mut Pass<MemDisk>| -> bool
        requires { IsPassOf pass.old store.now }
        ensures { IsPassOf pass.new store.now × (pass.new.number ≡ pass.old.number) }
    { pin_heads(rt, store, pass, floor) };
    let pruner = |store: &Store<MemDisk>, pass: &mut Pass<MemDisk>| -> bool
        requires { IsSync H.row × IsPassOf pass.old store.now }
        ensures { IsPassOf pass.new store.now × (pass.new.number ≡ pass.old.number) }
    { put_and_prune_often(rt, alloc, store, pass, floor) };
    side_by_side(rt, scene.store, scene.first, scene.second, &pinner, &pruner)
}

// Whether no floor passed a pin, and the floor rises to the head once there are no pins.
pub(crate) fn pins_beside_prunings<H: Threads + Wait + Sync>(
    rt: &H,
    alloc: Global,
    scene: &mut Scene,
) -> bool
    requires { IsScene scene.old }
    ensures { StaysScene scene.old scene.new }
{
    let well = pin_and_prune(rt, alloc, scene);
    let head = ROUNDS as u64;
    let rises = prunes_to(rt, scene.store, scene.second, head, head, None);
    well && rises
}

#[test]
fn no_floor_is_above_a_pin(rt: HostRuntime) -> Result<(), Fail> {
    goes_well(&rt, rt.alloc(), Run::Beside)
}
