// Calls in turn through the one pass of a store.
ghost use Rattle.std.specs.Prelude.{◌≡◌};
ghost use Rattle.jf_store.specs.Passes.{IsPassOf};

use crate::closing::{Play, closed_after};
use jf_board::Held;
use jf_disk::MemDisk;
use jf_engine_play::roots::{EMPTY, OF_A, OF_B, OF_BOTH};
use jf_engine_play::steps::Change;
use jf_engine_play::stores::new_store;
use jf_model::{Entry, Landing, Parent};
use jf_store::{Closed, Pass, Pruned, Store, StoreFault};
use jf_store_play::asking::{Answer, Answered, Call, ask};
use std::alloc::Global;
use std::sync::Wait;
use std::test::Fail;
use std::thread::Threads;

// A call, and what it is answered.
pub(crate) type Row = (Call, Answered);

const A: &[Change] = &[(b'a', Some(b'1'))];

const B: &[Change] = &[(b'b', Some(b'2'))];

const NO_A: &[Change] = &[(b'a', None)];

const NO_B: &[Change] = &[(b'b', None)];

const FIRST: Answered = Ok(Answer::Pruned(Pruned {
    bound: 2,
    floor: 1,
    held: Some(Held {
        owner: 0,
        place: 0,
        version: 1,
    }),
}));

const SECOND: Answered = Ok(Answer::Pruned(Pruned {
    bound: 2,
    floor: 2,
    held: None,
}));

const THIRD: Answered = Ok(Answer::Pruned(Pruned {
    bound: 3,
    floor: 3,
    held: None,
}));

// Versions and forks; then pins, bounds and generations.
const CALLS: &[Row] = &[
    (Call::Look, Ok(Answer::Seen((0, (0, 0, 1), 0, 0), EMPTY))),
    (Call::Commit(A), Ok(Answer::Rooted(1, OF_A))),
    (Call::At(0), Ok(Answer::Rooted(0, EMPTY))),
    (Call::At(1), Ok(Answer::Rooted(1, OF_A))),
    (Call::At(2), Err(StoreFault::Future(1))),
    // a fork, one on it, and another one on the head
    (Call::Fork(Parent::Head, B), Ok(Answer::Rooted(0, OF_BOTH))),
    (
        Call::Fork(Parent::Fork(0), NO_A),
        Ok(Answer::Rooted(1, OF_B)),
    ),
    (Call::Fork(Parent::Head, NO_A), Ok(Answer::Rooted(2, EMPTY))),
    (Call::Fork(Parent::Fork(3), &[]), Err(StoreFault::Unknown)),
    (Call::Tree(1), Ok(Answer::Rooted(1, OF_B))),
    (Call::Tree(3), Err(StoreFault::Unknown)),
    (Call::Look, Ok(Answer::Seen((4, (0, 1, 1), 0, 3), OF_A))),
    // the third is dropped
    (Call::DropFork(2), Ok(Answer::Number(1))),
    (Call::DropFork(2), Err(StoreFault::Gone)),
    (Call::DropFork(3), Err(StoreFault::Unknown)),
    (Call::Tree(2), Err(StoreFault::Gone)),
    (Call::Fork(Parent::Fork(2), &[]), Err(StoreFault::Gone)),
    (Call::Land(2), Err(StoreFault::Gone)),
    (Call::Land(3), Err(StoreFault::Unknown)),
    // the second lands with the first, and one that stands on it stays
    (
        Call::Fork(Parent::Fork(1), A),
        Ok(Answer::Rooted(3, OF_BOTH)),
    ),
    (Call::Land(1), Ok(Answer::Rooted(3, OF_B))),
    (Call::Look, Ok(Answer::Seen((7, (0, 3, 1), 0, 1), OF_B))),
    (Call::Tree(0), Err(StoreFault::Gone)),
    (Call::Tree(3), Ok(Answer::Rooted(3, OF_BOTH))),
    (Call::At(2), Ok(Answer::Rooted(2, OF_BOTH))),
    (Call::Pin(1), Ok(Answer::Number(0))),
    (Call::Pin(3), Ok(Answer::Number(1))),
    (Call::Pin(4), Err(StoreFault::Future(3))),
    (Call::Pinned(0), Ok(Answer::Rooted(1, OF_A))),
    (Call::Pinned(2), Ok(Answer::Nothing)),
    (Call::Pinned(8), Ok(Answer::Nothing)),
    // the pin of version 1 holds the floor
    (Call::Prune(2), FIRST),
    (Call::At(1), Err(StoreFault::Retired(2))),
    (Call::At(2), Ok(Answer::Rooted(2, OF_BOTH))),
    (Call::Pin(1), Err(StoreFault::Retired(2))),
    (Call::PinAgain(0), Err(StoreFault::Retired(2))),
    (Call::Pinned(0), Ok(Answer::Rooted(1, OF_A))),
    (Call::Prune(1), Err(StoreFault::Retired(2))),
    (Call::Prune(4), Err(StoreFault::Future(3))),
    (Call::Look, Ok(Answer::Seen((8, (1, 3, 1), 2, 1), OF_B))),
    (Call::Compact, Ok(Answer::Number(2))),
    // without it the floor rises to the same bound
    (Call::Unpin(0), Ok(Answer::Number(1))),
    (Call::Unpin(0), Ok(Answer::Nothing)),
    (Call::Unpin(8), Ok(Answer::Nothing)),
    (Call::Prune(2), SECOND),
    (Call::Prune(3), THIRD),
    // eight pins
    (Call::PinAgain(1), Ok(Answer::Number(0))),
    (Call::PinAgain(1), Ok(Answer::Number(2))),
    (Call::PinAgain(1), Ok(Answer::Number(3))),
    (Call::PinAgain(1), Ok(Answer::Number(4))),
    (Call::PinAgain(1), Ok(Answer::Number(5))),
    (Call::PinAgain(1), Ok(Answer::Number(6))),
    (Call::PinAgain(1), Ok(Answer::Number(7))),
    (Call::PinAgain(1), Err(StoreFault::PinsFull)),
    (Call::Pinned(7), Ok(Answer::Rooted(3, OF_B))),
    // no fork is left after a commit
    (Call::Commit(NO_B), Ok(Answer::Rooted(4, EMPTY))),
    (Call::Tree(3), Err(StoreFault::Gone)),
    (Call::Look, Ok(Answer::Seen((12, (3, 4, 2), 3, 0), EMPTY))),
];

// Whether each row is answered as it says. If one isn't, its number is returned.
pub(crate) fn are_answered<H: Threads + Wait + Sync>(
    rt: &H,
    alloc: Global,
    store: &Store<MemDisk>,
    pass: &mut Pass<MemDisk>,
    rows: &[Row],
) -> Result<(), usize>
    requires { IsPassOf pass.old store.now }
    ensures { IsPassOf pass.new store.now × (pass.new.number ≡ pass.old.number) }
{
    for (number, row) in rows.iter().enumerate() {
        if ask(rt, alloc, store, pass, &row.0) != row.1 {
            return Err(number);
        }
    }
    Ok(())
}

// What was done, in a letter and two numbers: the fork that was made or dropped; the version that was landed, and the fork;
// bound and floor; the generation.
type Done = (u8, u64, u64);

const NO_FORK: u64 = 99;

const DONE: &[Done] = &[
    (b'l', 1, NO_FORK),
    (b'm', 0, 0),
    (b'm', 1, 0),
    (b'm', 2, 0),
    (b'd', 2, 0),
    (b'm', 3, 0),
    (b'l', 3, 1),
    (b'r', 2, 1),
    (b'c', 2, 0),
    (b'r', 2, 2),
    (b'r', 3, 3),
    (b'l', 4, NO_FORK),
];

fn done_of(entry: &Entry) -> Done {
    match entry {
        Entry::Made { fork, .. } => (b'm', *fork, 0),
        Entry::Landed { version, how, .. } => (b'l', *version, fork_of(how)),
        Entry::Dropped { fork, .. } => (b'd', *fork, 0),
        Entry::Retired { bound, floor, .. } => (b'r', *bound, *floor),
        Entry::Compacted { generation, .. } => (b'c', *generation, 0),
    }
}

fn fork_of(how: &Landing) -> u64 {
    match how {
        Landing::Direct(_) => NO_FORK,
        Landing::Fork(id) => *id,
    }
}

// Whether this was done, and nothing else.
fn was_done(entries: &[Entry], done: &[Done]) -> bool {
    for (entry, done) in entries.iter().zip(done) {
        if done_of(entry) != *done {
            return false;
        }
    }
    entries.len() == done.len()
}

// Whether a store of one pass was closed after the calls.
fn is_closed(closed: &Closed<MemDisk>) -> bool {
    let state = closed.engine.state();
    was_done(closed.entries.as_slice(), DONE)
        && !closed.engine.is_broken()
        && (state.floor, state.head, state.generation) == (3, 4, 2)
        && closed.engine.root_of(4) == Some(EMPTY)
}

// Makes the calls on a new store. Fails unless each is answered so, and the store is closed as it must be.
fn call_all<H: Threads + Wait + Sync>(rt: &H, alloc: Global) -> Result<(), Fail> {
    let engine = new_store(rt, alloc)?;
    let closed = closed_after(rt, alloc, engine, Play::Answers(CALLS))?;
    if is_closed(&closed) {
        Ok(())
    } else {
        Err(Fail::new("the store is closed otherwise"))
    }
}

#[test]
fn calls_are_answered_so(rt: HostRuntime) -> Result<(), Fail> {
    call_all(&rt, rt.alloc())
}
