// One pass pins version 1, another commits twice and prunes to 3: the floor stays at the pin, which is named, and the pin is
// read as it was.
ghost use Rattle.std.specs.Prelude.{◌≡◌};
ghost use Rattle.jf_store.specs.Passes.{IsPassOf};
ghost use Rattle.test_passes.specs.Scenes.{IsScene, StaysScene};

use crate::closing::{Run, goes_well};
use crate::scene::Scene;
use crate::steps::{pin_head, prunes_to, put, reads_pinned};
use jf_board::Held;
use jf_disk::MemDisk;
use jf_store::{Pass, Store};
use std::alloc::Global;
use std::sync::Wait;
use std::test::Fail;
use std::thread::Threads;

// Commits twice, which makes versions 2 and 3.
fn puts_two<H: Threads + Wait + Sync>(
    rt: &H,
    alloc: Global,
    store: &Store<MemDisk>,
    pass: &mut Pass<MemDisk>,
) -> bool
    requires { IsPassOf pass.old store.now }
    ensures { IsPassOf pass.new store.now × (pass.new.number ≡ pass.old.number) }
{
    let one = put(rt, alloc, store, pass, b'a', 1).is_some();
    let two = put(rt, alloc, store, pass, b'a', 2).is_some();
    one && two
}

// Commits version 1 and pins it. Returns whether it lies at the first place.
fn pins_one<H: Threads + Wait + Sync>(
    rt: &H,
    alloc: Global,
    store: &Store<MemDisk>,
    pass: &mut Pass<MemDisk>,
) -> bool
    requires { IsPassOf pass.old store.now }
    ensures { IsPassOf pass.new store.now × (pass.new.number ≡ pass.old.number) }
{
    let made = put(rt, alloc, store, pass, b'a', 0).is_some();
    let pinned = pin_head(rt, store, pass);
    made && pinned == Some((1, 0))
}

const ONE: Held = Held {
    owner: 0,
    place: 0,
    version: 1,
};

// Whether all goes so.
pub(crate) fn the_floor_is_held<H: Threads + Wait + Sync>(
    rt: &H,
    alloc: Global,
    scene: &mut Scene,
) -> bool
    requires { IsScene scene.old }
    ensures { StaysScene scene.old scene.new }
{
    let pinned = pins_one(rt, alloc, scene.store, scene.first);
    let put = puts_two(rt, alloc, scene.store, scene.second);
    let stays = prunes_to(rt, scene.store, scene.second, 3, 1, Some(ONE));
    pinned && put && stays && reads_pinned(scene.first, 0, 1)
}

#[test]
fn a_pin_of_another_pass_holds_the_floor(rt: HostRuntime) -> Result<(), Fail> {
    goes_well(&rt, rt.alloc(), Run::Held)
}
