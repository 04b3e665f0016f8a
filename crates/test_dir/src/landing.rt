// Landings on a directory, from a new store on.
ghost use Rattle.std.specs.Prelude.{◌<◌, OnOk};

use jf_dir::Directory;
use jf_join::{FreeGate, Workers};
use jf_path::Key;
use jf_split::Batch;
use std::alloc::Global;
use std::test::Fail;
use std::thread::Threads;

// The first byte of a key, whose other bytes are 0, and the byte put as its value, or None if the key is removed.
pub(crate) type Change = (u8, Option<u8>);

pub(crate) const LOW: u8 = 0x1a;

// Its key has only the first nibble of that of `LOW`.
pub(crate) const NEAR: u8 = 0x1f;

pub(crate) const FAR: u8 = 0xa0;

// Two keys that part at their second nibble.
pub(crate) const PAIR: &[Change] = &[(LOW, Some(b'a')), (NEAR, Some(b'b'))];

fn key(first: u8) -> Key {
    let mut key = [0; 32];
    key[0] = first;
    key
}

pub(crate) fn batch_of(alloc: Global, changes: &[Change]) -> Result<Batch, Fail> {
    let mut batch = Batch::new(alloc);
    for (first, byte) in changes {
        match byte {
            Some(byte) => batch.put(alloc, &key(*first), &[*byte])?,
            None => batch.del(alloc, &key(*first))?,
        }
    }
    Ok(batch)
}

// A new store. It is boxed: whoever holds it then holds one value, not all that it is made of, which the check of a test
// would go through at each call.
pub(crate) fn new_store(alloc: Global) -> Result<Box<Directory>, Fail> {
    let directory = Directory::fresh_store(alloc)?;
    Ok(Box::new(alloc, directory)?)
}

// Fails unless one more version can land.
fn has_room(directory: &Directory) -> Result<(), Fail>
    ensures { OnOk result (directory.now.head < 9) }
{
    if directory.head() < 9 {
        Ok(())
    } else {
        Err(Fail::new("too many versions"))
    }
}

// Lands a batch on the head.
pub(crate) fn land<H: Threads + Sync>(
    rt: &H,
    alloc: Global,
    directory: &mut Directory,
    batch: &Batch,
    workers: u64,
) -> Result<(), Fail> {
    has_room(directory)?;
    let Some(workers) = Workers::new(workers) else {
        return Err(Fail::new("no number of workers"));
    };
    let update = directory.update(rt, alloc, batch, workers, &FreeGate)?;
    if update.snapshot.count() > 1_000 {
        return Err(Fail::new("too many entries"));
    }
    directory.apply(&update)?;
    Ok(())
}

// Lands a batch on the head and takes it back, and returns the number of nodes that was kept in between.
pub(crate) fn land_and_undo<H: Threads + Sync>(
    rt: &H,
    alloc: Global,
    directory: &mut Directory,
    batch: &Batch,
) -> Result<u64, Fail> {
    has_room(directory)?;
    directory.know();
    let update = directory.update(rt, alloc, batch, Workers::ONE, &FreeGate)?;
    if update.snapshot.count() > 1_000 {
        return Err(Fail::new("too many entries"));
    }
    directory.apply(&update)?;
    let count = directory.count();
    directory.undo(&update);
    Ok(count)
}

// The same with what the landing writes, whose nodes are kept as bytes.
pub(crate) fn land_and_undo_landing<H: Threads + Sync>(
    rt: &H,
    alloc: Global,
    directory: &mut Directory,
    batch: &Batch,
) -> Result<u64, Fail> {
    has_room(directory)?;
    directory.know();
    let next = directory.next_of(rt, alloc, batch, Workers::ONE, &FreeGate)?;
    let (landing, snapshot) = next.into_parts();
    if snapshot.count() > 1_000 {
        return Err(Fail::new("too many entries"));
    }
    snapshot.know();
    directory.apply_landing(&landing, snapshot)?;
    let count = directory.count();
    directory.undo_landing(&landing);
    Ok(count)
}
