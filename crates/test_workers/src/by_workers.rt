// Landings by several workers: no number of them changes a root, and the changes with each first nibble are a piece of
// work of their own, on an empty map too.
use jf_hash::{Hash, key_of};
use jf_join::{FreeGate, Gate, Workers};
use jf_node::Snapshot;
use jf_path::Key;
use jf_split::{Batch, BatchFault};
use jf_update::{Update, update};
use std::alloc::Global;
use std::sync::atomic::AtomicU64;
use std::sync::atomic::Ordering::SeqCst;
use std::test::Fail;
use std::thread::Threads;

const WORKERS: &[u64] = &[1, 2, 7, 64];

// The numbers of the keys that the first landing puts on the empty map, from the first up to the second.
const FIRST: (u32, u32) = (0, 3_000);

// Those of the second landing: of half of them the value changes, and the others are new.
const SECOND: (u32, u32) = (1_500, 4_500);

// The key of a number. Narrow keys begin with the same byte, so that one piece holds all of them and is cut again.
fn key(n: u32, narrow: bool) -> Key {
    let mut key = key_of(&n.to_be_bytes());
    if narrow {
        key[0] = 0x55;
    }
    key
}

// A batch that puts the keys of these numbers.
fn many(alloc: Global, numbers: (u32, u32), narrow: bool) -> Result<Batch, BatchFault> {
    let mut batch = Batch::new(alloc);
    for n in numbers.0..numbers.1 {
        batch.put(alloc, &key(n, narrow), &numbers.0.to_be_bytes())?;
    }
    Ok(batch)
}

// So many workers, 1 to 64.
pub(crate) fn workers_of(number: u64) -> Result<Workers, Fail> {
    match Workers::new(number) {
        Some(workers) => Ok(workers),
        None => Err(Fail::new("no number of workers")),
    }
}

// Lands a batch as the next version.
pub(crate) fn next<H: Threads + Sync, G: Gate>(
    rt: &H,
    alloc: Global,
    head: &Snapshot,
    batch: &Batch,
    workers: u64,
    gate: &G,
) -> Result<Box<Update>, Fail> {
    if head.version() >= 9 {
        return Err(Fail::new("too many versions"));
    }
    let workers = workers_of(workers)?;
    let landed = update(rt, alloc, head, batch, workers, gate)?;
    Ok(Box::new(alloc, landed)?)
}

fn snapshot_of(update: Box<Update>) -> Snapshot {
    let Update { snapshot, .. } = Box::into_inner(update);
    snapshot
}

// Lands the keys of these numbers on a version, which becomes the next one.
fn land<H: Threads + Sync>(
    rt: &H,
    alloc: Global,
    head: &mut Snapshot,
    numbers: (u32, u32),
    narrow: bool,
    workers: u64,
) -> Result<(), Fail> {
    let batch = many(alloc, numbers, narrow)?;
    let landed = next(rt, alloc, head, &batch, workers, &FreeGate)?;
    *head = snapshot_of(landed);
    Ok(())
}

// The root and the number of entries after the first landing, and after the second.
type Outcome = (Hash, u64, Hash, u64);

fn landed_by<H: Threads + Sync>(
    rt: &H,
    alloc: Global,
    narrow: bool,
    workers: u64,
) -> Result<Outcome, Fail> {
    let mut head = Snapshot::empty(0);
    land(rt, alloc, &mut head, FIRST, narrow, workers)?;
    let (root, count) = (head.root(), head.count());
    land(rt, alloc, &mut head, SECOND, narrow, workers)?;
    Ok((root, count, head.root(), head.count()))
}

// Whether each number of workers makes the same of the keys, and all of them are there.
fn all_alike<H: Threads + Sync>(rt: &H, alloc: Global, narrow: bool) -> Result<bool, Fail> {
    let alone = landed_by(rt, alloc, narrow, 1)?;
    for workers in WORKERS {
        if landed_by(rt, alloc, narrow, *workers)? != alone {
            return Ok(false);
        }
    }
    Ok(alone.1 == 3_000 && alone.3 == 4_500)
}

#[test]
fn no_number_of_workers_changes_a_root(rt: HostRuntime) -> Result<(), Fail> {
    assert!(rt; all_alike(&rt, rt.alloc(), false)?);
    assert!(rt; all_alike(&rt, rt.alloc(), true)?);
    Ok(())
}

// The pieces of an update have the numbers below this one, and those of its lists the numbers from here on.
pub(crate) const LISTS: u64 = 16;

// Records which pieces of the update it is notified of.
#[derive(Drop)]
struct PieceLog {
    first: AtomicU64,
    second: AtomicU64,
    more: AtomicU64,
}

impl PieceLog {
    fn new() -> PieceLog {
        PieceLog {
            first: AtomicU64::new(0),
            second: AtomicU64::new(0),
            more: AtomicU64::new(0),
        }
    }

    fn are_two(&self) -> bool {
        let both = self.first.load(SeqCst) == 1 && self.second.load(SeqCst) == 1;
        both && self.more.load(SeqCst) == 0
    }
}

impl Gate for PieceLog {
    fn begin(&self, piece: u64) {
        if piece == 0 {
            self.first.store(1, SeqCst);
        } else if piece == 1 {
            self.second.store(1, SeqCst);
        } else if piece < LISTS {
            self.more.store(1, SeqCst);
        }
    }

    fn session(&self, _number: u64) {}
}

// The byte that a key is made of, and the byte put as its value.
pub(crate) type Put = (u8, u8);

// Two keys with different first nibbles.
pub(crate) const TWO: &[Put] = &[(0x10, b'a'), (0xa0, b'b')];

// What is there before they are put: nothing, the leaf of one of them, a leaf with another first nibble, both.
pub(crate) const BEFORE: &[&[Put]] = &[
    &[],
    &[(0x10, b'c')],
    &[(0x55, b'c')],
    &[(0x10, b'c'), (0xa0, b'c')],
];

pub(crate) fn batch_of(alloc: Global, puts: &[Put]) -> Result<Batch, BatchFault> {
    let mut batch = Batch::new(alloc);
    for (key, byte) in puts {
        batch.put(alloc, &[*key; 32], &[*byte])?;
    }
    Ok(batch)
}

// The version with these entries.
pub(crate) fn version_of<H: Threads + Sync>(
    rt: &H,
    alloc: Global,
    before: &[Put],
) -> Result<Snapshot, Fail> {
    let batch = batch_of(alloc, before)?;
    let landed = next(rt, alloc, &Snapshot::empty(0), &batch, 1, &FreeGate)?;
    Ok(snapshot_of(landed))
}

// Whether two workers take the two keys as two pieces, the first with the number 0.
fn are_two_pieces<H: Threads + Sync>(rt: &H, alloc: Global, before: &[Put]) -> Result<bool, Fail> {
    let log = PieceLog::new();
    let head = version_of(rt, alloc, before)?;
    let batch = batch_of(alloc, TWO)?;
    let landed = next(rt, alloc, &head, &batch, 2, &log)?;
    Ok(log.are_two() && landed.snapshot.count() >= 2)
}

// Over how many of these versions they are two pieces before the first over which they aren't.
fn two_pieces<H: Threads + Sync>(rt: &H, alloc: Global) -> Result<usize, Fail> {
    for (i, before) in BEFORE.iter().enumerate() {
        if !are_two_pieces(rt, alloc, before)? {
            return Ok(i);
        }
    }
    Ok(BEFORE.len())
}

#[test]
fn two_keys_are_two_pieces(rt: HostRuntime) -> Result<(), Fail> {
    assert!(rt; two_pieces(&rt, rt.alloc())? == 4);
    Ok(())
}
