// A store of two passes, from its engine to its end.
ghost use Rattle.std.specs.Prelude.{◌≡◌, length};
ghost use Rattle.jf_store.specs.Passes.{AreNewPasses, IsPassOf};
ghost use Rattle.jf_store.specs.Closing.{AreAllPasses, ArePassesOf};
ghost use Rattle.test_passes.specs.Scenes.{IsScene, StaysScene};

use crate::beside::{ROUNDS, pins_beside_prunings};
use crate::held::the_floor_is_held;
use crate::scene::Scene;
use crate::shown::{head_is_shown, mark_is_met};
use crate::writers::{are_all_put, both_put};
use jf_disk::MemDisk;
use jf_engine::Engine;
use jf_engine_play::stores::store_on;
use jf_store::{Closed, Pass, Store};
use jf_store_play::stores::new_passes;
use std::alloc::Global;
use std::sync::Wait;
use std::test::Fail;
use std::thread::Threads;

// The engine of a new disk with room for thousands of calls. The calls with the numbers in `failing` fail.
fn wide_engine<H: Threads + Sync>(
    rt: &H,
    alloc: Global,
    failing: Vec<u64>,
) -> Result<Box<Engine<MemDisk>>, Fail> {
    let (a, b) = (Vec::new(alloc), Vec::new(alloc));
    let disk = MemDisk::new(alloc, a, b, 8_000, 2_000_000, failing)?;
    store_on(rt, alloc, Box::new(alloc, disk)?)
}

// What is done by the two passes.
#[derive(Clone, Copy)]
pub(crate) enum Run {
    Writers,
    Beside,
    Held,
    Shown,
    Fault,
}

// The first call of the second landing on a new disk: its opening makes 13 calls, and a landing four.
const SECOND_LANDING: u64 = 17;

// The calls on the disk that fail in a run.
fn failing_in(alloc: Global, run: Run) -> Result<Vec<u64>, Fail> {
    let mut failing = Vec::new(alloc);
    if let Run::Fault = run {
        failing.push(SECOND_LANDING)?;
    }
    Ok(failing)
}

// Whether all went well.
fn has_gone_well<H: Threads + Wait + Sync>(
    rt: &H,
    alloc: Global,
    scene: &mut Scene,
    run: Run,
) -> bool
    requires { IsScene scene.old }
    ensures { StaysScene scene.old scene.new }
{
    match run {
        Run::Writers => both_put(rt, alloc, scene),
        Run::Beside => pins_beside_prunings(rt, alloc, scene),
        Run::Held => the_floor_is_held(rt, alloc, scene),
        Run::Shown => head_is_shown(rt, alloc, scene),
        Run::Fault => mark_is_met(rt, alloc, scene),
    }
}

// Runs over two passes. Returns whether all went well.
fn run_on<H: Threads + Wait + Sync>(
    rt: &H,
    alloc: Global,
    store: &Store<MemDisk>,
    first: &mut Pass<MemDisk>,
    second: &mut Pass<MemDisk>,
    run: Run,
) -> bool
    requires first { IsPassOf first.old store.now }
    requires second { IsPassOf second.old store.now }
    ensures first { IsPassOf first.new store.now × (first.new.number ≡ first.old.number) }
    ensures second { IsPassOf second.new store.now × (second.new.number ≡ second.old.number) }
{
    let mut scene = Scene {
        store,
        first,
        second,
    };
    has_gone_well(rt, alloc, &mut scene, run)
}

#[tactic(auto, using(crate::proofs::Ends::first_new, crate::proofs::Ends::second_new))]
fn run_two<H: Threads + Wait + Sync>(
    rt: &H,
    alloc: Global,
    store: &Store<MemDisk>,
    passes: &mut Vec<Pass<MemDisk>>,
    run: Run,
) -> bool
    requires new { AreNewPasses store.now passes.old.items 0 }
    requires pair { length passes.old.items ≡ 2 }
    requires passes { store.now.start.passes ≡ 2 }
    ensures own { ArePassesOf store.now passes.new.items }
    ensures gathered { AreAllPasses store.now passes.new.items }
{
    let (front, back) = passes.as_mut_slice().split_at_mut(1);
    run_on(rt, alloc, store, &mut front[0], &mut back[0], run)
}

// Whether a store was closed as it must be after a run.
fn has_come_to(closed: &Closed<MemDisk>, run: Run) -> bool {
    let state = closed.engine.state();
    let whole = !closed.engine.is_broken();
    match run {
        Run::Writers => whole && are_all_put(closed),
        Run::Beside => whole && state.head == ROUNDS as u64 && state.floor == state.head,
        Run::Held => whole && state.head == 3 && state.floor == 1,
        Run::Shown => whole && state.head == 2,
        Run::Fault => !whole && state.head == 1,
    }
}

// Makes a store of two passes on a new disk, runs, and closes it. Fails unless all went well.
pub(crate) fn goes_well<H: Threads + Wait + Sync>(
    rt: &H,
    alloc: Global,
    run: Run,
) -> Result<(), Fail> {
    let engine = wide_engine(rt, alloc, failing_in(alloc, run)?)?;
    let (store, mut passes) = new_passes(alloc, engine, 2)?;
    let well = run_two(rt, alloc, &store, &mut passes, run);
    let closed = Box::new(alloc, store.close(passes))?;
    if well && has_come_to(&closed, run) {
        Ok(())
    } else {
        Err(Fail::new("it goes otherwise"))
    }
}
