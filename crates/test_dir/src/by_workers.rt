// No number of workers changes a root or the number of nodes.
use crate::landing::{land, new_store};
use jf_dir::Directory;
use jf_hash::{Hash, key_of};
use jf_split::{Batch, BatchFault};
use std::alloc::Global;
use std::test::Fail;
use std::thread::Threads;

// The numbers of the keys that each landing puts, from the first up to the second: from the second landing on, half of
// them are new.
const LANDINGS: &[(u32, u32)] = &[(0, 100), (50, 150), (100, 200), (150, 250), (200, 300)];

// A batch that puts the keys of these numbers.
fn many(alloc: Global, numbers: (u32, u32)) -> Result<Batch, BatchFault> {
    let mut batch = Batch::new(alloc);
    for n in numbers.0..numbers.1 {
        batch.put(alloc, &key_of(&n.to_be_bytes()), &numbers.0.to_be_bytes())?;
    }
    Ok(batch)
}

// The numbers of nodes and of entries, and the root.
fn outcome(directory: &Directory) -> (u64, u64, Hash) {
    let newest = directory.newest();
    (directory.count(), newest.count(), newest.root())
}

fn landed_by<H: Threads + Sync>(
    rt: &H,
    alloc: Global,
    workers: u64,
) -> Result<(u64, u64, Hash), Fail> {
    let mut directory = new_store(alloc)?;
    for numbers in LANDINGS {
        let batch = many(alloc, *numbers)?;
        land(rt, alloc, &mut directory, &batch, workers)?;
    }
    Ok(outcome(&directory))
}

// Whether one worker and four make the same of the keys, and all of them are there.
fn are_alike<H: Threads + Sync>(rt: &H, alloc: Global) -> Result<bool, Fail> {
    let alone = landed_by(rt, alloc, 1)?;
    Ok(alone.1 == 300 && landed_by(rt, alloc, 4)? == alone)
}

#[test]
fn no_number_of_workers_changes_the_nodes(rt: HostRuntime) -> Result<(), Fail> {
    assert!(rt; are_alike(&rt, rt.alloc())?);
    Ok(())
}
