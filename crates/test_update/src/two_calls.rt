// `advance` and then `written` return what `update` returns with any number of workers: the same root, and the same names
// of nodes.
use crate::landings::{Change, WORKERS, batch_of, workers_of};
use jf_join::{FreeGate, Workers};
use jf_node::Snapshot;
use jf_path::{NodeName, PlainNode};
use jf_split::Batch;
use jf_update::{Update, Written, advance, landing_lists, update, value_hashes};
use std::alloc::Global;
use std::test::Fail;
use std::thread::Threads;

// Landings one after another: keys with several first nibbles, changes of such keys, and removals of all that is there;
// and then two keys with one first nibble, nothing, a removal that leaves one leaf, one that leaves nothing, and nothing
// again.
const LANDINGS: &[&[Change]] = &[
    &[
        (0x10, Some(b'a')),
        (0x1f, Some(b'b')),
        (0x55, Some(b'c')),
        (0xa0, Some(b'd')),
    ],
    &[(0x10, Some(b'e')), (0x55, None), (0xc0, Some(b'f'))],
    &[(0x10, None), (0x1f, None), (0xa0, None), (0xc0, None)],
    &[(0x10, Some(b'a')), (0x1f, Some(b'b'))],
    &[(0x10, Some(b'a')), (0xa0, None)],
    &[(0x1f, None)],
    &[(0x10, None)],
    &[(0xa0, None)],
];

// A version, with what its landing wrote and made stale.
#[derive(Drop)]
struct Landed {
    snapshot: Snapshot,
    lists: Written,
}

// Lands a batch as the next version, in two calls.
fn in_two_calls<H: Threads + Sync>(
    rt: &H,
    alloc: Global,
    head: &Snapshot,
    batch: &Batch,
) -> Result<Box<Landed>, Fail> {
    if head.version() >= 9 {
        return Err(Fail::new("too many versions"));
    }
    let entries = batch.as_slice();
    let hashes = value_hashes(rt, alloc, entries, Workers::ONE)?;
    let snapshot = advance(rt, alloc, head, entries, &hashes, Workers::ONE, &FreeGate)?;
    let lists = landing_lists(rt, alloc, head, &snapshot, Workers::ONE, &FreeGate)?;
    Ok(Box::new(alloc, Landed { snapshot, lists })?)
}

// Lands a batch as the next version, in one call.
fn in_one_call<H: Threads + Sync>(
    rt: &H,
    alloc: Global,
    head: &Snapshot,
    batch: &Batch,
    workers: u64,
) -> Result<Box<Update>, Fail> {
    if head.version() >= 9 {
        return Err(Fail::new("too many versions"));
    }
    let workers = workers_of(workers)?;
    let landed = update(rt, alloc, head, batch, workers, &FreeGate)?;
    Ok(Box::new(alloc, landed)?)
}

// Whether nodes have the same names.
fn have_same_names(some: &[(NodeName, PlainNode)], others: &[(NodeName, PlainNode)]) -> bool {
    if some.len() != others.len() {
        return false;
    }
    for (node, other) in some.iter().zip(others) {
        if node.0 != other.0 {
            return false;
        }
    }
    true
}

fn are_same(alloc: Global, update: &Update, landed: &Landed) -> Result<bool, Fail> {
    if update.root != landed.snapshot.root()
        || update.stale.as_slice() != landed.lists.stale.as_slice()
    {
        return Ok(false);
    }
    let others = landed.lists.fresh.plain_nodes(alloc)?;
    Ok(have_same_names(update.fresh.as_slice(), &others))
}

fn snapshot_of(landed: Box<Landed>) -> Snapshot {
    let Landed { snapshot, .. } = Box::into_inner(landed);
    snapshot
}

// Whether each number of workers lands a batch as it was landed.
fn all_land_alike<H: Threads + Sync>(
    rt: &H,
    alloc: Global,
    head: &Snapshot,
    batch: &Batch,
    landed: &Landed,
) -> Result<bool, Fail> {
    for workers in WORKERS {
        let update = in_one_call(rt, alloc, head, batch, *workers)?;
        if !are_same(alloc, &update, landed)? {
            return Ok(false);
        }
    }
    Ok(true)
}

// Lands changes on a version, which becomes the next one, and returns whether it comes out the same all ways.
fn lands_alike<H: Threads + Sync>(
    rt: &H,
    alloc: Global,
    head: &mut Snapshot,
    changes: &[Change],
) -> Result<bool, Fail> {
    let batch = batch_of(alloc, changes)?;
    let landed = in_two_calls(rt, alloc, head, &batch)?;
    let same = all_land_alike(rt, alloc, head, &batch, &landed)?;
    *head = snapshot_of(landed);
    Ok(same)
}

// How many landings come out the same before the first that doesn't.
fn alike<H: Threads + Sync>(rt: &H, alloc: Global) -> Result<usize, Fail> {
    let mut head = Snapshot::empty(0);
    for (i, changes) in LANDINGS.iter().enumerate() {
        if !lands_alike(rt, alloc, &mut head, changes)? {
            return Ok(i);
        }
    }
    Ok(LANDINGS.len())
}

#[test]
fn two_calls_return_what_one_does(rt: HostRuntime) -> Result<(), Fail> {
    assert!(rt; alike(&rt, rt.alloc())? == 8);
    Ok(())
}
