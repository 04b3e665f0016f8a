// A store of one pass, from its engine to its end.
ghost use Rattle.std.specs.Prelude.{◌≡◌, length};
ghost use Rattle.jf_store.specs.Passes.{AreNewPasses, IsPassOf};
ghost use Rattle.jf_store.specs.Closing.{AreAllPasses, ArePassesOf};

use crate::calls::{Row, are_answered};
use crate::faults::{Step, breaks};
use jf_disk::MemDisk;
use jf_engine::Engine;
use jf_store::{Closed, Pass, Store};
use jf_store_play::asking::Call;
use jf_store_play::stores::new_passes;
use std::alloc::Global;
use std::sync::Wait;
use std::test::Fail;
use std::thread::Threads;

// What is done by the pass: each row is answered as it says; or steps succeed, and the disk fails in a call after them.
#[derive(Clone, Copy)]
pub(crate) enum Play {
    Answers(&'static [Row]),
    Breaks(&'static [Step], &'static Call),
}

// Returns the number of a row that is answered else, if there is one.
fn play_on<H: Threads + Wait + Sync>(
    rt: &H,
    alloc: Global,
    store: &Store<MemDisk>,
    pass: &mut Pass<MemDisk>,
    play: Play,
) -> Result<(), usize>
    requires { IsPassOf pass.old store.now }
    ensures { IsPassOf pass.new store.now × (pass.new.number ≡ pass.old.number) }
{
    match play {
        Play::Answers(rows) => are_answered(rt, alloc, store, pass, rows),
        Play::Breaks(steps, call) => breaks(rt, alloc, store, pass, steps, call),
    }
}

#[tactic(auto, using(crate::proofs::Ends::first_new, crate::proofs::Ends::own_one))]
fn play_one<H: Threads + Wait + Sync>(
    rt: &H,
    alloc: Global,
    store: &Store<MemDisk>,
    passes: &mut Vec<Pass<MemDisk>>,
    play: Play,
) -> Result<(), usize>
    requires new { AreNewPasses store.now passes.old.items 0 }
    requires single { length passes.old.items ≡ 1 }
    requires alone { store.now.start.passes ≡ 1 }
    ensures own { ArePassesOf store.now passes.new.items }
    ensures gathered { AreAllPasses store.now passes.new.items }
{
    match passes.as_mut_slice() {
        [pass] => play_on(rt, alloc, store, pass, play),
        _ => unreachable!(),
    }
}

// Makes a store of one pass, plays on it, and closes it. Fails with the number of a row that is answered else.
pub(crate) fn closed_after<H: Threads + Wait + Sync>(
    rt: &H,
    alloc: Global,
    engine: Box<Engine<MemDisk>>,
    play: Play,
) -> Result<Box<Closed<MemDisk>>, Fail> {
    let (store, mut passes) = new_passes(alloc, engine, 1)?;
    let played = play_one(rt, alloc, &store, &mut passes, play);
    let closed = Box::new(alloc, store.close(passes))?;
    played?;
    Ok(closed)
}
