// Calls of a pass as rows of a table, and what they are answered.
ghost use Rattle.std.specs.Prelude.{◌≡◌};
ghost use Rattle.jf_store.specs.Passes.{IsPassOf};

use crate::batches::batch_of;
use crate::passes::{at, commit, look, pin, prune, unpin};
use jf_disk::MemDisk;
use jf_engine::Landed;
use jf_engine_play::steps::Change;
use jf_hash::Hash;
use jf_join::{FreeGate, Workers};
use jf_model::Parent;
use jf_node::Snapshot;
use jf_store::{Look, Pass, Pruned, Store, StoreFault};
use std::alloc::Global;
use std::sync::Wait;
use std::thread::Threads;

/// A call of a pass.
pub enum Call {
    Commit(&'static [Change]),
    Look,
    At(u64),
    Fork(Parent, &'static [Change]),
    Tree(u64),
    Land(u64),
    DropFork(u64),
    /// A version is read and pinned.
    Pin(u64),
    /// What is pinned at a place is pinned once more.
    PinAgain(u64),
    /// What is pinned at a place is read.
    Pinned(u64),
    /// A place is freed.
    Unpin(u64),
    Prune(u64),
    Compact,
}

/// What a look finds: the number of entries; floor, head and generation; the retired bound, and the number of live forks.
pub type Seen = (u64, (u64, u64, u64), u64, u64);

/// What a call is answered.
#[derive(Clone, Copy, PartialEq)]
pub enum Answer {
    /// A version or a fork, and its root.
    Rooted(u64, Hash),
    /// How many forks were dropped, where a version is pinned, which one was unpinned, or the generation.
    Number(u64),
    Seen(Seen, Hash),
    Pruned(Pruned),
    Nothing,
}

/// What a call is answered, or why it is refused.
pub type Answered = Result<Answer, StoreFault>;

fn of_landed(landed: Landed) -> Answer {
    let root = landed.root;
    Answer::Rooted(landed.version, root)
}

fn of_snapshot(snapshot: &Snapshot) -> Answer {
    Answer::Rooted(snapshot.version(), snapshot.root())
}

fn of_look(look: &Look) -> Answer {
    let state = look.state;
    let numbers = (state.floor, state.head, state.generation);
    let seen = (look.seen, numbers, look.retired, look.forks);
    Answer::Seen(seen, look.head.root())
}

fn ask_commit<H: Threads + Wait + Sync>(
    rt: &H,
    alloc: Global,
    store: &Store<MemDisk>,
    pass: &mut Pass<MemDisk>,
    changes: &[Change],
) -> Answered
    requires { IsPassOf pass.old store.now }
    ensures { IsPassOf pass.new store.now × (pass.new.number ≡ pass.old.number) }
{
    let Ok(batch) = batch_of(alloc, changes) else {
        return Err(StoreFault::Memory);
    };
    commit(rt, alloc, store, pass, &batch).map(of_landed)
}

fn ask_look<H: Wait>(rt: &H, store: &Store<MemDisk>, pass: &mut Pass<MemDisk>) -> Answered
    requires { IsPassOf pass.old store.now }
    ensures { IsPassOf pass.new store.now × (pass.new.number ≡ pass.old.number) }
{
    let look = look(rt, store, pass)?;
    Ok(of_look(&look))
}

fn ask_at<H: Wait>(
    rt: &H,
    store: &Store<MemDisk>,
    pass: &mut Pass<MemDisk>,
    version: u64,
) -> Answered
    requires { IsPassOf pass.old store.now }
    ensures { IsPassOf pass.new store.now × (pass.new.number ≡ pass.old.number) }
{
    let snapshot = at(rt, store, pass, version)?;
    Ok(of_snapshot(&snapshot))
}

#[tactic(auto, using(crate::proofs::Staying::stays_making))]
fn ask_fork<H: Wait>(
    rt: &H,
    alloc: Global,
    store: &Store<MemDisk>,
    pass: &mut Pass<MemDisk>,
    parent: Parent,
    changes: &[Change],
) -> Answered
    requires { IsPassOf pass.old store.now }
    ensures { IsPassOf pass.new store.now × (pass.new.number ≡ pass.old.number) }
{
    let Ok(batch) = batch_of(alloc, changes) else {
        return Err(StoreFault::Memory);
    };
    let forked = pass.fork(rt, alloc, store, parent, &batch)?;
    let root = forked.root;
    Ok(Answer::Rooted(forked.id, root))
}

#[tactic(auto, using(crate::proofs::Staying::stays_looking))]
fn ask_tree<H: Wait>(rt: &H, store: &Store<MemDisk>, pass: &mut Pass<MemDisk>, id: u64) -> Answered
    requires { IsPassOf pass.old store.now }
    ensures { IsPassOf pass.new store.now × (pass.new.number ≡ pass.old.number) }
{
    let tree = pass.tree(rt, store, id)?;
    Ok(Answer::Rooted(id, tree.root()))
}

// Lands a fork, with two workers.
#[tactic(auto, using(crate::proofs::Staying::stays_landing))]
fn ask_land<H: Threads + Wait + Sync>(
    rt: &H,
    alloc: Global,
    store: &Store<MemDisk>,
    pass: &mut Pass<MemDisk>,
    id: u64,
) -> Answered
    requires { IsPassOf pass.old store.now }
    ensures { IsPassOf pass.new store.now × (pass.new.number ≡ pass.old.number) }
{
    let workers = Workers::new(2).unwrap_or(Workers::ONE);
    pass.land(rt, alloc, store, id, workers, &FreeGate)
        .map(of_landed)
}

#[tactic(auto, using(crate::proofs::Staying::stays_dropping))]
fn ask_drop<H: Wait>(rt: &H, store: &Store<MemDisk>, pass: &mut Pass<MemDisk>, id: u64) -> Answered
    requires { IsPassOf pass.old store.now }
    ensures { IsPassOf pass.new store.now × (pass.new.number ≡ pass.old.number) }
{
    pass.drop_fork(rt, store, id).map(Answer::Number)
}

#[tactic(auto, using(crate::proofs::Staying::stays_compacting))]
fn ask_compact<H: Wait>(
    rt: &H,
    alloc: Global,
    store: &Store<MemDisk>,
    pass: &mut Pass<MemDisk>,
) -> Answered
    requires { IsPassOf pass.old store.now }
    ensures { IsPassOf pass.new store.now × (pass.new.number ≡ pass.old.number) }
{
    pass.compact(rt, alloc, store).map(Answer::Number)
}

// The snapshot at a place, shared.
fn copy_at(pass: &Pass<MemDisk>, place: u64) -> Result<Snapshot, StoreFault> {
    match pass.pinned_snapshot(place) {
        Some(snapshot) => Ok(snapshot.share()?),
        None => Err(StoreFault::Unknown),
    }
}

// Pins a snapshot, unless it was refused.
fn pin_read(
    store: &Store<MemDisk>,
    pass: &mut Pass<MemDisk>,
    read: Result<Snapshot, StoreFault>,
) -> Answered
    requires { IsPassOf pass.old store.now }
    ensures { IsPassOf pass.new store.now × (pass.new.number ≡ pass.old.number) }
{
    pin(store, pass, read?).map(Answer::Number)
}

fn of_pinned(pass: &Pass<MemDisk>, place: u64) -> Answer {
    match pass.pinned_snapshot(place) {
        Some(snapshot) => of_snapshot(snapshot),
        None => Answer::Nothing,
    }
}

fn ask_unpin(store: &Store<MemDisk>, pass: &mut Pass<MemDisk>, place: u64) -> Answer
    requires { IsPassOf pass.old store.now }
    ensures { IsPassOf pass.new store.now × (pass.new.number ≡ pass.old.number) }
{
    match unpin(store, pass, place) {
        Some(version) => Answer::Number(version),
        None => Answer::Nothing,
    }
}

/// Makes a call, and returns what it is answered.
pub fn ask<H: Threads + Wait + Sync>(
    rt: &H,
    alloc: Global,
    store: &Store<MemDisk>,
    pass: &mut Pass<MemDisk>,
    call: &Call,
) -> Answered
    requires { IsPassOf pass.old store.now }
    ensures { IsPassOf pass.new store.now × (pass.new.number ≡ pass.old.number) }
{
    match call {
        Call::Commit(changes) => ask_commit(rt, alloc, store, pass, changes),
        Call::Look => ask_look(rt, store, pass),
        Call::At(version) => ask_at(rt, store, pass, *version),
        Call::Fork(parent, changes) => ask_fork(rt, alloc, store, pass, *parent, changes),
        Call::Tree(id) => ask_tree(rt, store, pass, *id),
        Call::Land(id) => ask_land(rt, alloc, store, pass, *id),
        Call::DropFork(id) => ask_drop(rt, store, pass, *id),
        Call::Pin(version) => {
            let read = at(rt, store, pass, *version);
            pin_read(store, pass, read)
        }
        Call::PinAgain(place) => {
            let read = copy_at(pass, *place);
            pin_read(store, pass, read)
        }
        Call::Pinned(place) => Ok(of_pinned(pass, *place)),
        Call::Unpin(place) => Ok(ask_unpin(store, pass, *place)),
        Call::Prune(bound) => prune(rt, store, pass, *bound).map(Answer::Pruned),
        Call::Compact => ask_compact(rt, alloc, store, pass),
    }
}
