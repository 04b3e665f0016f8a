// Landings, by the roots of whole maps and by lists worked by hand.
use crate::roots::root_of;
use jf_hash::{Hash, value};
use jf_join::{FreeGate, Workers};
use jf_node::Snapshot;
use jf_path::{Key, Memory, NodeName, PlainNode};
use jf_split::Batch;
use jf_update::{Update, update};
use std::alloc::Global;
use std::test::Fail;
use std::thread::Threads;

// The byte that a key is made of, and the byte put as its value, or None if the key is removed.
pub(crate) type Change = (u8, Option<u8>);

pub(crate) const WORKERS: &[u64] = &[1, 2, 7, 64];

pub(crate) const LOW: u8 = 0x10;

// Its key has only the first nibble of that of `LOW`.
pub(crate) const NEAR: u8 = 0x1f;

pub(crate) const FAR: u8 = 0xa0;

// A batch, the map after it, the lengths of the paths of the nodes that it writes, and the versions and lengths of the
// paths of those that it makes stale.
type Landing<'a> = (
    &'a [Change],
    &'a [(u8, u8)],
    &'a [usize],
    &'a [(u64, usize)],
);

const PARTED: &[Landing] = &[(
    &[(NEAR, Some(b'b')), (LOW, Some(b'a'))],
    &[(LOW, b'a'), (NEAR, b'b')],
    &[0, 1, 2, 2],
    &[(0, 0)],
)];

const REMOVED: &[Landing] = &[
    (
        &[(LOW, Some(b'a')), (NEAR, Some(b'b'))],
        &[(LOW, b'a'), (NEAR, b'b')],
        &[0, 1, 2, 2],
        &[(0, 0)],
    ),
    (
        &[(NEAR, None)],
        &[(LOW, b'a')],
        &[0],
        &[(1, 0), (1, 1), (1, 2), (1, 2)],
    ),
];

const UNCHANGED: &[Landing] = &[
    (
        &[(LOW, Some(b'a')), (NEAR, Some(b'b'))],
        &[(LOW, b'a'), (NEAR, b'b')],
        &[0, 1, 2, 2],
        &[(0, 0)],
    ),
    (
        &[(LOW, Some(b'a')), (FAR, None)],
        &[(LOW, b'a'), (NEAR, b'b')],
        &[0],
        &[(1, 0)],
    ),
];

const OF_TWO_VERSIONS: &[Landing] = &[
    (
        &[(LOW, Some(b'a')), (FAR, Some(b'b'))],
        &[(LOW, b'a'), (FAR, b'b')],
        &[0, 1, 1],
        &[(0, 0)],
    ),
    (
        &[(LOW, Some(b'c'))],
        &[(LOW, b'c'), (FAR, b'b')],
        &[0, 1],
        &[(1, 0), (1, 1)],
    ),
    (
        &[(LOW, None), (FAR, None)],
        &[],
        &[0],
        &[(1, 1), (2, 0), (2, 1)],
    ),
];

pub(crate) fn batch_of(alloc: Global, changes: &[Change]) -> Result<Batch, Fail> {
    let mut batch = Batch::new(alloc);
    for (key, byte) in changes {
        match byte {
            Some(byte) => batch.put(alloc, &[*key; 32], &[*byte])?,
            None => batch.del(alloc, &[*key; 32])?,
        }
    }
    Ok(batch)
}

// The keys of a map, with the hashes of their values.
fn hashed_keys(alloc: Global, entries: &[(u8, u8)]) -> Result<Vec<(Key, Hash)>, Memory> {
    let mut all = Vec::new(alloc);
    for (key, byte) in entries {
        all.push(([*key; 32], value(&[*byte])))?;
    }
    Ok(all)
}

// So many workers, 1 to 64.
pub(crate) fn workers_of(number: u64) -> Result<Workers, Fail> {
    match Workers::new(number) {
        Some(workers) => Ok(workers),
        None => Err(Fail::new("no number of workers")),
    }
}

// Lands a batch as the next version. It is boxed: whoever holds it then holds one value, not all that it is made of,
// which the check of a test would go through at each call.
pub(crate) fn next<H: Threads + Sync>(
    rt: &H,
    alloc: Global,
    head: &Snapshot,
    changes: &[Change],
    workers: u64,
) -> Result<Box<Update>, Fail> {
    if head.version() >= 9 {
        return Err(Fail::new("too many versions"));
    }
    let workers = workers_of(workers)?;
    let batch = batch_of(alloc, changes)?;
    let landed = update(rt, alloc, head, &batch, workers, &FreeGate)?;
    Ok(Box::new(alloc, landed)?)
}

fn snapshot_of(update: Box<Update>) -> Snapshot {
    let Update { snapshot, .. } = Box::into_inner(update);
    snapshot
}

// Whether the paths have these lengths.
fn are_written(nodes: &[(NodeName, PlainNode)], lengths: &[usize]) -> bool {
    for (node, length) in nodes.iter().zip(lengths) {
        if node.0.path.len() != *length {
            return false;
        }
    }
    nodes.len() == lengths.len()
}

// Whether the names have these versions, and their paths these lengths.
fn are_stale(names: &[NodeName], wanted: &[(u64, usize)]) -> bool {
    for (name, (version, length)) in names.iter().zip(wanted) {
        if (name.version, name.path.len()) != (*version, *length) {
            return false;
        }
    }
    names.len() == wanted.len()
}

// Whether a version has the root of a map and as many entries.
fn has_map(update: &Update, entries: &[(Key, Hash)]) -> bool {
    Some(update.root) == root_of(entries) && update.snapshot.count() == entries.len() as u64
}

// Lands a batch on a version, which becomes the next one, and returns whether it comes out as expected.
fn lands<H: Threads + Sync>(
    rt: &H,
    alloc: Global,
    head: &mut Snapshot,
    landing: &Landing,
    workers: u64,
) -> Result<bool, Fail> {
    let update = next(rt, alloc, head, landing.0, workers)?;
    let entries = hashed_keys(alloc, landing.1)?;
    let same = has_map(&update, &entries)
        && are_written(update.fresh.as_slice(), landing.2)
        && are_stale(update.stale.as_slice(), landing.3);
    *head = snapshot_of(update);
    Ok(same)
}

// How many landings, one after another from an empty map, come out as expected before the first that doesn't.
fn land_by<H: Threads + Sync>(
    rt: &H,
    alloc: Global,
    landings: &[Landing],
    workers: u64,
) -> Result<usize, Fail> {
    let mut head = Snapshot::empty(0);
    for (i, landing) in landings.iter().enumerate() {
        if !lands(rt, alloc, &mut head, landing, workers)? {
            return Ok(i);
        }
    }
    Ok(landings.len())
}

// The least that `land_by` returns for these numbers of workers.
fn land_so<H: Threads + Sync>(rt: &H, alloc: Global, landings: &[Landing]) -> Result<usize, Fail> {
    let mut least = landings.len();
    for workers in WORKERS {
        least = least.min(land_by(rt, alloc, landings, *workers)?);
    }
    Ok(least)
}

#[test]
fn two_keys_part_below_their_first_nibble(rt: HostRuntime) -> Result<(), Fail> {
    assert!(rt; land_so(&rt, rt.alloc(), PARTED)? == 1);
    Ok(())
}

#[test]
fn a_removal_leaves_one_leaf_at_the_top(rt: HostRuntime) -> Result<(), Fail> {
    assert!(rt; land_so(&rt, rt.alloc(), REMOVED)? == 2);
    Ok(())
}

#[test]
fn a_landing_that_changes_nothing_writes_the_top_alone(rt: HostRuntime) -> Result<(), Fail> {
    assert!(rt; land_so(&rt, rt.alloc(), UNCHANGED)? == 2);
    Ok(())
}

#[test]
fn names_stand_by_version_before_path(rt: HostRuntime) -> Result<(), Fail> {
    assert!(rt; land_so(&rt, rt.alloc(), OF_TWO_VERSIONS)? == 3);
    Ok(())
}
