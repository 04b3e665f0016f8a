// A fault of the disk at each of its calls in a script: the store is broken from then on, and is closed; what a crash leaves is
// what was before that call of the pass, or is after it.
ghost use Rattle.std.specs.Prelude.{◌≡◌};
ghost use Rattle.jf_store.specs.Passes.{IsPassOf};

use crate::closing::{Play, closed_after};
use jf_disk::{Disk, MemDisk};
use jf_engine::Engine;
use jf_engine_play::roots::{EMPTY, OF_A, OF_BOTH};
use jf_engine_play::stores::{disk_of, image_of, store_on};
use jf_hash::Hash;
use jf_model::Parent;
use jf_store::{Closed, Pass, Store, StoreFault};
use jf_store_play::asking::{Call, ask};
use std::alloc::Global;
use std::sync::Wait;
use std::test::Fail;
use std::thread::Threads;

// Base, floor, head and generation, and the root of the head.
type Found = ((u64, u64, u64, u64), Hash);

// A call of a pass, how many calls on the disk it makes, and what is found after it.
pub(crate) type Step = (Call, u64, Found);

const NEW: Found = ((0, 0, 0, 1), EMPTY);

const SCRIPT: &[Step] = &[
    (Call::Commit(&[(b'a', Some(b'1'))]), 4, ((0, 0, 1, 1), OF_A)),
    (
        Call::Commit(&[(b'b', Some(b'2'))]),
        4,
        ((0, 0, 2, 1), OF_BOTH),
    ),
    (Call::Prune(1), 4, ((0, 1, 2, 1), OF_BOTH)),
    (Call::Compact, 7, ((0, 1, 2, 2), OF_BOTH)),
];

// An opening of a new disk makes so many calls, and the script with it.
const OPENING: u64 = 13;

const ALL: u64 = OPENING + 19;

// Calls of each kind that takes the turn.
const LATER: &[Call] = &[
    Call::Commit(&[]),
    Call::Look,
    Call::At(0),
    Call::Fork(Parent::Head, &[]),
    Call::Tree(0),
    Call::Land(0),
    Call::DropFork(0),
    Call::Pin(0),
    Call::Prune(0),
    Call::Compact,
];

// How many unsynced bytes a crash keeps, and the byte that all others become.
const CRASHES: &[(u64, u8)] = &[(0, 0), (0, 1), (17, 0xff), (1 << 62, 0)];

// Whether each of these calls succeeds.
fn succeed<H: Threads + Wait + Sync>(
    rt: &H,
    alloc: Global,
    store: &Store<MemDisk>,
    pass: &mut Pass<MemDisk>,
    steps: &[Step],
) -> bool
    requires { IsPassOf pass.old store.now }
    ensures { IsPassOf pass.new store.now × (pass.new.number ≡ pass.old.number) }
{
    for step in steps {
        if ask(rt, alloc, store, pass, &step.0).is_err() {
            return false;
        }
    }
    true
}

// Whether each of the later calls is refused, since the store is broken.
fn are_refused<H: Threads + Wait + Sync>(
    rt: &H,
    alloc: Global,
    store: &Store<MemDisk>,
    pass: &mut Pass<MemDisk>,
) -> bool
    requires { IsPassOf pass.old store.now }
    ensures { IsPassOf pass.new store.now × (pass.new.number ≡ pass.old.number) }
{
    for call in LATER {
        if ask(rt, alloc, store, pass, call) != Err(StoreFault::Broken) {
            return false;
        }
    }
    true
}

// Whether the steps succeed, a further call meets the fault, all later ones are refused, and the pass has seen one entry for each
// step. If not, the number of steps is returned.
pub(crate) fn breaks<H: Threads + Wait + Sync>(
    rt: &H,
    alloc: Global,
    store: &Store<MemDisk>,
    pass: &mut Pass<MemDisk>,
    steps: &[Step],
    call: &Call,
) -> Result<(), usize>
    requires { IsPassOf pass.old store.now }
    ensures { IsPassOf pass.new store.now × (pass.new.number ≡ pass.old.number) }
{
    let well = succeed(rt, alloc, store, pass, steps);
    let met = ask(rt, alloc, store, pass, call) == Err(StoreFault::DiskFault);
    let refused = are_refused(rt, alloc, store, pass);
    if well && met && refused && pass.seen_count() == steps.len() as u64 {
        Ok(())
    } else {
        Err(steps.len())
    }
}

// Whether this is found in a store.
fn shows(engine: &Engine<MemDisk>, found: &Found) -> bool {
    let state = engine.state();
    let numbers = (state.base, state.floor, state.head, state.generation);
    numbers == found.0 && engine.root_of(state.head) == Some(found.1)
}

// Fails unless a crash leaves one of two.
fn leaves<H: Threads + Sync>(
    rt: &H,
    alloc: Global,
    disk: &MemDisk,
    moment: u64,
    crash: (u64, u8),
    either: (&Found, &Found),
) -> Result<(), Fail> {
    let image = image_of(alloc, disk, moment, crash.0, crash.1)?;
    let engine = store_on(rt, alloc, image)?;
    if shows(&engine, either.0) || shows(&engine, either.1) {
        Ok(())
    } else {
        Err(Fail::new(moment))
    }
}

// Fails unless each crash just after so many calls leaves one of two.
fn leaves_at<H: Threads + Sync>(
    rt: &H,
    alloc: Global,
    disk: &MemDisk,
    moment: u64,
    either: (&Found, &Found),
) -> Result<(), Fail> {
    for crash in CRASHES {
        leaves(rt, alloc, disk, moment, *crash, either)?;
    }
    Ok(())
}

// Whether a store was closed broken, with one entry for each step, and shows what was before the call that met the fault.
fn is_broken(closed: &Closed<MemDisk>, steps: usize, before: &Found) -> bool {
    closed.engine.is_broken()
        && closed.entries.len() == steps as u64
        && shows(&closed.engine, before)
}

// What is found before a step that comes after these.
fn found_after(steps: &[Step]) -> &Found {
    match steps.last() {
        Some(step) => &step.2,
        None => &NEW,
    }
}

// Fails unless a store whose disk failed in a step after these is closed broken, and each crash since this moment leaves what was
// before that step or is after it.
fn is_left<H: Threads + Sync>(
    rt: &H,
    alloc: Global,
    closed: &Closed<MemDisk>,
    steps: &[Step],
    step: &Step,
    since: u64,
) -> Result<(), Fail> {
    let before = found_after(steps);
    if !is_broken(closed, steps.len(), before) {
        return Err(Fail::new("the store is not broken"));
    }
    let disk = closed.engine.disk();
    for moment in since..=disk.moment() {
        leaves_at(rt, alloc, disk, moment, (before, &step.2))?;
    }
    Ok(())
}

// The step in which this call on the disk is made, with those before it and the number of its first call.
fn step_of(failing: u64) -> Option<(&'static [Step], &'static Step, u64)> {
    let mut since = OPENING;
    for (place, step) in SCRIPT.iter().enumerate() {
        let next = since.saturating_add(step.1);
        if failing < next {
            return Some((&SCRIPT[..place], step, since));
        }
        since = next;
    }
    None
}

// An engine on a new disk that fails in this call.
fn failing_engine<H: Threads + Sync>(
    rt: &H,
    alloc: Global,
    failing: u64,
) -> Result<Box<Engine<MemDisk>>, Fail> {
    let disk = disk_of(alloc, &[], &[], &[failing])?;
    store_on(rt, alloc, disk)
}

// Fails unless it goes so if this call on the disk fails.
fn goes_so<H: Threads + Wait + Sync>(rt: &H, alloc: Global, failing: u64) -> Result<(), Fail> {
    let (steps, step, since) = step_of(failing).ok_or("no such step")?;
    let engine = failing_engine(rt, alloc, failing)?;
    let closed = closed_after(rt, alloc, engine, Play::Breaks(steps, &step.0))?;
    is_left(rt, alloc, &closed, steps, step, since)
}

#[test]
fn a_fault_breaks_the_store_and_leaves_one_of_two(rt: HostRuntime) -> Result<(), Fail> {
    for failing in OPENING..ALL {
        goes_so(&rt, rt.alloc(), failing)?;
    }
    Ok(())
}
