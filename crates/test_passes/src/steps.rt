// Single steps of a pass: what is put, pinned, read and pruned.
ghost use Rattle.std.specs.Prelude.{◌≡◌};
ghost use Rattle.jf_store.specs.Passes.{IsPassOf};

use jf_board::Held;
use jf_disk::MemDisk;
use jf_engine::Landed;
use jf_hash::key_of;
use jf_node::Snapshot;
use jf_store::{Pass, Pruned, Store};
use jf_store_play::batches::batch_of;
use jf_store_play::passes::{commit, look, pin, prune};
use std::alloc::Global;
use std::sync::Wait;
use std::thread::Threads;

// The first byte of the value at the key of a name.
pub(crate) fn first_at(snapshot: &Snapshot, name: u8) -> Option<u8> {
    snapshot.get(&key_of(&[name]))?.first().copied()
}

// Commits one byte at the key of a name.
pub(crate) fn put<H: Threads + Wait + Sync>(
    rt: &H,
    alloc: Global,
    store: &Store<MemDisk>,
    pass: &mut Pass<MemDisk>,
    name: u8,
    byte: u8,
) -> Option<Landed>
    requires { IsPassOf pass.old store.now }
    ensures { IsPassOf pass.new store.now × (pass.new.number ≡ pass.old.number) }
{
    let batch = batch_of(alloc, &[(name, Some(byte))]).ok()?;
    commit(rt, alloc, store, pass, &batch).ok()
}

// Whether a version has the byte that was put with it: none at first, and 0 with version 1.
fn has_own_byte(snapshot: &Snapshot) -> bool {
    match first_at(snapshot, b'a') {
        None => snapshot.version() == 0,
        Some(byte) => snapshot.version() == (byte as u64).saturating_add(1),
    }
}

// Whether this version is pinned at a place, and is read as it was.
pub(crate) fn reads_pinned(pass: &Pass<MemDisk>, place: u64, version: u64) -> bool {
    match pass.pinned_snapshot(place) {
        Some(snapshot) => snapshot.version() == version && has_own_byte(snapshot),
        None => false,
    }
}

// Pins the head. Returns the version and its place, or `None` if the head was pruned to since the look.
pub(crate) fn pin_head<H: Wait>(
    rt: &H,
    store: &Store<MemDisk>,
    pass: &mut Pass<MemDisk>,
) -> Option<(u64, u64)>
    requires { IsPassOf pass.old store.now }
    ensures { IsPassOf pass.new store.now × (pass.new.number ≡ pass.old.number) }
{
    let look = look(rt, store, pass).ok()?;
    let version = look.head.version();
    let place = pin(store, pass, look.head).ok()?;
    Some((version, place))
}

// Whether a pruning to this bound raises the floor so far, for this pin.
pub(crate) fn prunes_to<H: Wait>(
    rt: &H,
    store: &Store<MemDisk>,
    pass: &mut Pass<MemDisk>,
    bound: u64,
    floor: u64,
    held: Option<Held>,
) -> bool
    requires { IsPassOf pass.old store.now }
    ensures { IsPassOf pass.new store.now × (pass.new.number ≡ pass.old.number) }
{
    prune(rt, store, pass, bound) == Ok(Pruned { bound, floor, held })
}
