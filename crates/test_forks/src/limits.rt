// The limits on forks and on keys that land together, and one more of each.
ghost use Rattle.std.specs.Prelude.{◌≡◌, ◌+◌, ◌<◌, ◌≤◌, ◌^◌, IfOk, OnOk};
ghost use Rattle.jf_forks.specs.Tables.{StandsOver};

use jf_forks::{ForkFault, ForkTable};
use jf_model::Parent;
use jf_node::Snapshot;
use jf_path::Key;
use jf_split::{Batch, BatchFault, BatchList};
use std::alloc::Global;
use std::test::Fail;

fn numbered_key(number: u64) -> Key {
    let mut key = [0; 32];
    key[30] = (number / 256 % 256) as u8;
    key[31] = (number % 256) as u8;
    key
}

// A batch that removes the keys of some numbers. It hashes nothing over a map that has no such key.
fn without_keys(alloc: Global, from: u64, end: u64) -> Result<Batch, BatchFault> {
    let mut batch = Batch::new(alloc);
    for number in from..end {
        batch.del(alloc, &numbered_key(number))?;
    }
    Ok(batch)
}

fn parent_of(id: u64) -> Parent {
    match id {
        0 => Parent::Head,
        _ => Parent::Fork(id - 1),
    }
}

// Makes one more fork on the last one, which removes the key of its own number.
fn add(alloc: Global, table: &mut ForkTable, head: &Snapshot, id: u64) -> Result<(), Fail>
    requires bounded { table.old.made < 2 ^ 62 }
    requires over { StandsOver head.now.map table.old }
    ensures made { OnOk result (table.new.made ≡ table.old.made + 1) }
    ensures stands { OnOk result (StandsOver head.now.map table.new) }
{
    let mut batch = Batch::new(alloc);
    batch.del(alloc, &numbered_key(id))?;
    table.make(alloc, head, parent_of(id), &batch)?;
    Ok(())
}

// A table of so many forks, each on the one before.
fn chain_of(alloc: Global, head: &Snapshot, count: u64) -> Result<Box<ForkTable>, Fail>
    requires { count < 2 ^ 61 }
    ensures made { IfOk result (λ t. t.value.made ≡ count) }
    ensures stands { IfOk result (λ t. StandsOver head.now.map t.value) }
{
    let mut table = Box::new(alloc, ForkTable::new(alloc))?;
    for id in 0..count {
        add(alloc, &mut table, head, id)?;
    }
    Ok(table)
}

fn takes_away(batch: &Batch, number: u64) -> bool {
    match batch.as_slice() {
        [(key, None)] => *key == numbered_key(number),
        _ => false,
    }
}

fn are_numbered(list: &BatchList) -> bool {
    for (i, batch) in list.as_slice().iter().enumerate() {
        if !takes_away(batch, i as u64) {
            return false;
        }
    }
    true
}

// How many forks stand on one another, and the last of them.
const CHAINS: &[(u64, u64)] = &[(1, 0), (2, 1), (1_024, 1_023)];

// Whether the last fork of a chain lands with all others, the oldest first.
fn is_listed(alloc: Global, count: u64, last: u64) -> Result<bool, Fail>
    requires { count < 2 ^ 61 }
{
    let table = chain_of(alloc, &Snapshot::empty(0), count)?;
    let list = table.chain(alloc, last)?;
    Ok(list.len() == count && are_numbered(&list))
}

#[test]
fn chains_are_listed_from_the_oldest_on(rt: HostRuntime) -> Result<(), Fail> {
    for (count, last) in CHAINS {
        assert!(rt; is_listed(rt.alloc(), *count, *last)?);
    }
    Ok(())
}

// Makes a fork of an empty batch, and returns its number.
fn attempt(
    alloc: Global,
    table: &mut ForkTable,
    head: &Snapshot,
    parent: Parent,
) -> Result<u64, ForkFault>
    requires bounded { table.old.made < 2 ^ 62 }
    requires over { StandsOver head.now.map table.old }
    ensures bounded { table.new.made ≤ table.old.made + 1 }
    ensures stands { StandsOver head.now.map table.new }
{
    match table.make(alloc, head, parent, &Batch::new(alloc)) {
        Ok(forked) => Ok(forked.id),
        Err(fault) => Err(fault),
    }
}

// Whether a table of 1,024 forks has room for one more only after one is dropped, and refuses a missing parent first.
fn has_room_for_one(alloc: Global, table: &mut ForkTable, head: &Snapshot) -> bool
    requires bounded { table.old.made < 2 ^ 61 }
    requires over { StandsOver head.now.map table.old }
{
    let full = attempt(alloc, table, head, Parent::Head);
    let unknown = attempt(alloc, table, head, Parent::Fork(1_024));
    let dropped = table.drop_fork(1_023);
    let made = attempt(alloc, table, head, Parent::Head);
    (full, unknown, dropped, made)
        == (
            Err(ForkFault::Full),
            Err(ForkFault::Unknown),
            Ok(1),
            Ok(1_024),
        )
}

// Whether one more fork than may be live is refused.
fn is_full(alloc: Global) -> Result<bool, Fail> {
    let head = Snapshot::empty(0);
    let mut table = chain_of(alloc, &head, 1_024)?;
    Ok(has_room_for_one(alloc, &mut table, &head))
}

#[test]
fn one_more_than_may_live_is_refused(rt: HostRuntime) -> Result<(), Fail> {
    assert!(rt; is_full(rt.alloc())?);
    Ok(())
}

// Why a chain of two forks with 7,000 keys and `end` keys can't land, if it can't.
fn fault_of(alloc: Global, end: u64) -> Result<Option<ForkFault>, Fail> {
    let head = Snapshot::empty(0);
    let mut table = Box::new(alloc, ForkTable::new(alloc))?;
    table.make(alloc, &head, Parent::Head, &without_keys(alloc, 0, 7_000)?)?;
    table.make(alloc, &head, Parent::Fork(0), &without_keys(alloc, 0, end)?)?;
    Ok(table.chain(alloc, 1).err())
}

// The keys of the second fork, and why the two don't land.
const WIDE: &[(u64, Option<ForkFault>)] = &[
    (3_000, None),
    (3_001, Some(ForkFault::TooMany(10_001))),
];

#[test]
fn keys_of_a_chain_are_added_up(rt: HostRuntime) -> Result<(), Fail> {
    for (end, fault) in WIDE {
        assert_eq!(rt; fault_of(rt.alloc(), *end)?, *fault);
    }
    Ok(())
}
