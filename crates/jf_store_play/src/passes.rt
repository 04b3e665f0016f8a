// Calls of a pass, of which only this is stated: the pass stays one of its store, with its number.
ghost use Rattle.std.specs.Prelude.{◌≡◌};
ghost use Rattle.jf_store.specs.Passes.{IsPassOf};

use jf_disk::MemDisk;
use jf_engine::Landed;
use jf_join::{FreeGate, Gate, Workers};
use jf_node::Snapshot;
use jf_split::Batch;
use jf_store::{Look, Pass, Pruned, Store, StoreFault};
use std::alloc::Global;
use std::sync::Wait;
use std::thread::Threads;

/// Lands a batch on the head, with one worker.
#[tactic(auto, using(crate::proofs::Staying::stays_landing))]
pub fn commit<H: Threads + Wait + Sync>(
    rt: &H,
    alloc: Global,
    store: &Store<MemDisk>,
    pass: &mut Pass<MemDisk>,
    batch: &Batch,
) -> Result<Landed, StoreFault>
    requires { IsPassOf pass.old store.now }
    ensures { IsPassOf pass.new store.now × (pass.new.number ≡ pass.old.number) }
{
    pass.commit(rt, alloc, store, batch, Workers::ONE, &FreeGate)
}

/// Lands a batch on the head, with two workers. A gate may hold their pieces.
#[tactic(auto, using(crate::proofs::Staying::stays_landing))]
pub fn commit_gated<H: Threads + Wait + Sync, G: Gate>(
    rt: &H,
    alloc: Global,
    store: &Store<MemDisk>,
    pass: &mut Pass<MemDisk>,
    batch: &Batch,
    gate: &G,
) -> Result<Landed, StoreFault>
    requires { IsPassOf pass.old store.now }
    ensures { IsPassOf pass.new store.now × (pass.new.number ≡ pass.old.number) }
{
    let workers = Workers::new(2).unwrap_or(Workers::ONE);
    pass.commit(rt, alloc, store, batch, workers, gate)
}

/// Looks at the head.
#[tactic(auto, using(crate::proofs::Staying::stays_looking))]
pub fn look<H: Wait>(
    rt: &H,
    store: &Store<MemDisk>,
    pass: &mut Pass<MemDisk>,
) -> Result<Look, StoreFault>
    requires { IsPassOf pass.old store.now }
    ensures { IsPassOf pass.new store.now × (pass.new.number ≡ pass.old.number) }
{
    pass.look(rt, store)
}

/// Reads a version.
#[tactic(auto, using(crate::proofs::Staying::stays_looking))]
pub fn at<H: Wait>(
    rt: &H,
    store: &Store<MemDisk>,
    pass: &mut Pass<MemDisk>,
    version: u64,
) -> Result<Snapshot, StoreFault>
    requires { IsPassOf pass.old store.now }
    ensures { IsPassOf pass.new store.now × (pass.new.number ≡ pass.old.number) }
{
    pass.at(rt, store, version)
}

/// Raises the retired bound, and the floor with it.
#[tactic(auto, using(crate::proofs::Staying::stays_pruning))]
pub fn prune<H: Wait>(
    rt: &H,
    store: &Store<MemDisk>,
    pass: &mut Pass<MemDisk>,
    bound: u64,
) -> Result<Pruned, StoreFault>
    requires { IsPassOf pass.old store.now }
    ensures { IsPassOf pass.new store.now × (pass.new.number ≡ pass.old.number) }
{
    pass.prune(rt, store, bound)
}

/// Pins a snapshot, or returns why it isn't pinned. No version is 2^64 - 1.
#[tactic(auto, using(crate::proofs::Staying::stays_pinning))]
pub fn pin(
    store: &Store<MemDisk>,
    pass: &mut Pass<MemDisk>,
    snapshot: Snapshot,
) -> Result<u64, StoreFault>
    requires { IsPassOf pass.old store.now }
    ensures { IsPassOf pass.new store.now × (pass.new.number ≡ pass.old.number) }
{
    if snapshot.version() == u64::MAX {
        return Err(StoreFault::Unknown);
    }
    pass.pin(store, snapshot).map_err(|back| back.why)
}

/// Frees a place, and returns the version that was pinned there.
#[tactic(auto, using(crate::proofs::Staying::stays_pinning))]
pub fn unpin(store: &Store<MemDisk>, pass: &mut Pass<MemDisk>, place: u64) -> Option<u64>
    requires { IsPassOf pass.old store.now }
    ensures { IsPassOf pass.new store.now × (pass.new.number ≡ pass.old.number) }
{
    pass.unpin(store, place)
}
