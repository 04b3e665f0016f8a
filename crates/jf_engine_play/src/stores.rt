// Stores on disks in memory. A store is boxed: its holder then holds one value, and not all that it is made of.
use jf_disk::{Disk, MemDisk};
use jf_engine::{Engine, OpenFault, OpenRefused, State};
use jf_join::Workers;
use std::alloc::Global;
use std::test::Fail;
use std::thread::Threads;

pub type Store = Box<Engine<MemDisk>>;

/// A disk that holds these bytes, on which these calls fail.
pub fn disk_of(alloc: Global, a: &[u8], b: &[u8], failing: &[u64]) -> Result<Box<MemDisk>, Fail> {
    let (a, b) = (a.to_vec(alloc)?, b.to_vec(alloc)?);
    let disk = MemDisk::new(alloc, a, b, 100, 60_000, failing.to_vec(alloc)?)?;
    Ok(Box::new(alloc, disk)?)
}

/// What a crash just after so many calls leaves: the first `kept` bytes that were not synced, and `fill` in place of
/// the others.
pub fn image_of(
    alloc: Global,
    disk: &MemDisk,
    moment: u64,
    kept: u64,
    fill: u8,
) -> Result<Box<MemDisk>, Fail> {
    if moment > disk.moment() {
        return Err(Fail::new("no such moment"));
    }
    Ok(Box::new(alloc, disk.image(alloc, moment, kept, fill)?)?)
}

/// So many workers.
pub fn workers_of(number: u64) -> Result<Workers, Fail> {
    match Workers::new(number) {
        Some(workers) => Ok(workers),
        None => Err(Fail::new("no such number of workers")),
    }
}

/// Opens the store of a disk, or returns the disk and why it isn't opened.
pub fn open<H: Threads + Sync>(
    rt: &H,
    alloc: Global,
    disk: Box<MemDisk>,
) -> Result<Engine<MemDisk>, OpenRefused<MemDisk>> {
    Engine::open(rt, alloc, Box::into_inner(disk), Workers::ONE)
}

fn opened_engine<H: Threads + Sync>(
    rt: &H,
    alloc: Global,
    disk: Box<MemDisk>,
) -> Result<Engine<MemDisk>, OpenFault> {
    match open(rt, alloc, disk) {
        Ok(engine) => Ok(engine),
        Err(OpenRefused { disk: _, why }) => Err(why),
    }
}

/// The store of a disk.
pub fn store_on<H: Threads + Sync>(
    rt: &H,
    alloc: Global,
    disk: Box<MemDisk>,
) -> Result<Store, Fail> {
    let engine = opened_engine(rt, alloc, disk)?;
    Ok(Box::new(alloc, engine)?)
}

/// The numbers of the store of a disk, or why it isn't opened.
pub fn state_on<H: Threads + Sync>(
    rt: &H,
    alloc: Global,
    disk: Box<MemDisk>,
) -> Result<State, OpenFault> {
    let engine = opened_engine(rt, alloc, disk)?;
    Ok(engine.state())
}

/// A store on a new disk.
pub fn new_store<H: Threads + Sync>(rt: &H, alloc: Global) -> Result<Store, Fail> {
    store_on(rt, alloc, disk_of(alloc, &[], &[], &[])?)
}

/// The disk of a store.
pub fn disk_in(alloc: Global, store: Store) -> Result<Box<MemDisk>, Fail> {
    Ok(Box::new(alloc, Box::into_inner(store).into_disk())?)
}

/// The store that the files of this one give when they are opened again.
pub fn reopened_store<H: Threads + Sync>(
    rt: &H,
    alloc: Global,
    store: Store,
) -> Result<Store, Fail> {
    store_on(rt, alloc, disk_in(alloc, store)?)
}
