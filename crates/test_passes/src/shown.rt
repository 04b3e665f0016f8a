// What one pass sees of the head without the turn: while a landing of the other is held, in another thread, after it has
// returned, and after one at which the disk failed.
ghost use Rattle.std.specs.Prelude.{◌≡◌};
ghost use Rattle.std.specs.Thread.{IsSync};
ghost use Rattle.jf_store.specs.Passes.{IsPassOf};
ghost use Rattle.test_passes.specs.Scenes.{IsScene, StaysScene};

use crate::closing::{Run, goes_well};
use crate::scene::Scene;
use crate::signals::Signals;
use crate::steps::put;
use crate::threads::side_by_side;
use jf_disk::MemDisk;
use jf_store::{Pass, Store, StoreFault};
use jf_store_play::batches::batch_of;
use jf_store_play::passes::{commit_gated, look};
use std::alloc::Global;
use std::sync::Wait;
use std::test::Fail;
use std::thread::Threads;

// The version that a look finds.
fn head_of<H: Wait>(rt: &H, store: &Store<MemDisk>, pass: &mut Pass<MemDisk>) -> Option<u64>
    requires { IsPassOf pass.old store.now }
    ensures { IsPassOf pass.new store.now × (pass.new.number ≡ pass.old.number) }
{
    let look = look(rt, store, pass).ok()?;
    Some(look.head.version())
}

// Looks once the landing of version 2 has started. Returns whether it found version 1.
fn look_once<H: Wait>(
    rt: &H,
    store: &Store<MemDisk>,
    pass: &mut Pass<MemDisk>,
    signals: &Signals,
) -> bool
    requires { IsPassOf pass.old store.now }
    ensures { IsPassOf pass.new store.now × (pass.new.number ≡ pass.old.number) }
{
    let begun = signals.has_begun();
    let found = head_of(rt, store, pass);
    signals.tell_look();
    begun && found == Some(1)
}

// Commits two bytes, in two pieces that are held until the other pass has looked. Returns whether it had.
fn put_held<H: Threads + Wait + Sync>(
    rt: &H,
    alloc: Global,
    store: &Store<MemDisk>,
    pass: &mut Pass<MemDisk>,
    signals: &Signals,
) -> bool
    requires { IsPassOf pass.old store.now }
    ensures { IsPassOf pass.new store.now × (pass.new.number ≡ pass.old.number) }
{
    let Ok(batch) = batch_of(alloc, &[(b'a', Some(2)), (b'b', Some(2))]) else {
        return false;
    };
    let landed = commit_gated(rt, alloc, store, pass, &batch, signals).is_ok();
    landed && signals.has_looked()
}

// Whether the first pass finds version 1 while the second lands version 2.
fn look_beside<H: Threads + Wait + Sync>(rt: &H, alloc: Global, scene: &mut Scene) -> bool
    requires { IsScene scene.old }
    ensures { StaysScene scene.old scene.new }
{
    let made = Signals::new();
    let signals = &made;
    let looker = |store: &Store<MemDisk>, pass: &mut Pass<MemDisk>| -> bool
        requires { IsPassOf pass.old store.now }
        ensures { IsPassOf pass.new store.now × (pass.new.number ≡ pass.old.number) }
    { look_once(rt, store, pass, signals) };
    let lander = |store: &Store<MemDisk>, pass: &mut Pass<MemDisk>| -> bool
        requires { IsSync H.row × IsPassOf pass.old store.now }
        ensures { IsPassOf pass.new store.now × (pass.new.number ≡ pass.old.number) }
    { put_held(rt, alloc, store, pass, signals) };
    side_by_side(rt, scene.store, scene.first, scene.second, &looker, &lander)
}

// Whether the first pass finds version 1 after the second has landed it.
fn one_is_shown<H: Threads + Wait + Sync>(rt: &H, alloc: Global, scene: &mut Scene) -> bool
    requires { IsScene scene.old }
    ensures { StaysScene scene.old scene.new }
{
    let one = put(rt, alloc, scene.store, scene.second, b'a', 1).is_some();
    let found = head_of(rt, scene.store, scene.first);
    one && found == Some(1)
}

// Whether the first pass finds version 1 after the second has landed it, and while the second lands version 2, and this after
// that.
pub(crate) fn head_is_shown<H: Threads + Wait + Sync>(
    rt: &H,
    alloc: Global,
    scene: &mut Scene,
) -> bool
    requires { IsScene scene.old }
    ensures { StaysScene scene.old scene.new }
{
    let before = one_is_shown(rt, alloc, scene);
    let beside = look_beside(rt, alloc, scene);
    let after = head_of(rt, scene.store, scene.first);
    before && beside && after == Some(2)
}

// Whether the first pass finds version 1 after the second has landed it, and the mark after a landing at which the disk failed.
pub(crate) fn mark_is_met<H: Threads + Wait + Sync>(
    rt: &H,
    alloc: Global,
    scene: &mut Scene,
) -> bool
    requires { IsScene scene.old }
    ensures { StaysScene scene.old scene.new }
{
    let before = one_is_shown(rt, alloc, scene);
    let two = put(rt, alloc, scene.store, scene.second, b'a', 2).is_some();
    let broken = matches!(look(rt, scene.store, scene.first), Err(StoreFault::Broken));
    before && !two && broken
}

#[test]
fn a_look_waits_for_no_landing(rt: HostRuntime) -> Result<(), Fail> {
    goes_well(&rt, rt.alloc(), Run::Shown)
}

#[test]
fn a_look_after_a_fault_meets_the_mark(rt: HostRuntime) -> Result<(), Fail> {
    goes_well(&rt, rt.alloc(), Run::Fault)
}
