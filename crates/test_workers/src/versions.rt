// Each version keeps its values, also after the newest was taken back.
use crate::by_workers::workers_of;
use jf_dir::Directory;
use jf_hash::key_of;
use jf_join::FreeGate;
use jf_split::{Batch, BatchFault};
use std::alloc::Global;
use std::test::Fail;
use std::thread::Threads;

// A batch that puts a byte as the value of the one key.
fn put_of(alloc: Global, byte: u8) -> Result<Batch, BatchFault> {
    let mut batch = Batch::new(alloc);
    batch.put(alloc, &key_of(b"a"), &[byte])?;
    Ok(batch)
}

// Lands a byte on the head.
fn land_one<H: Threads + Sync>(
    rt: &H,
    alloc: Global,
    directory: &mut Directory,
    byte: u8,
) -> Result<(), Fail> {
    if directory.head() >= 9 {
        return Err(Fail::new("too many versions"));
    }
    let batch = put_of(alloc, byte)?;
    let update = directory.update(rt, alloc, &batch, workers_of(4)?, &FreeGate)?;
    if update.snapshot.count() > 1_000 {
        return Err(Fail::new("too many entries"));
    }
    directory.apply(&update)?;
    Ok(())
}

fn landed_directory<H: Threads + Sync>(rt: &H, alloc: Global) -> Result<Box<Directory>, Fail> {
    let directory = Directory::fresh_store(alloc)?;
    let mut directory = Box::new(alloc, directory)?;
    for byte in b"xy" {
        land_one(rt, alloc, &mut directory, *byte)?;
    }
    Ok(directory)
}

fn first_of(value: Option<&[u8]>) -> Option<u8> {
    match value {
        Some(bytes) => bytes.first().copied(),
        None => None,
    }
}

// Whether a version is kept, with this byte as the value of the one key, or without the key.
fn shows(directory: &Directory, version: u64, byte: Option<u8>) -> bool {
    match directory.at(version) {
        Some(snapshot) => first_of(snapshot.get(&key_of(b"a"))) == byte,
        None => false,
    }
}

// Whether versions 0 to 2 are kept with their values, and there is no version 3.
fn keep_values(directory: &Directory) -> bool {
    shows(directory, 0, None)
        && shows(directory, 1, Some(b'x'))
        && shows(directory, 2, Some(b'y'))
        && directory.at(3).is_none()
}

// Lands a byte on the head and takes the landing back, and returns whether the new version had it in between.
fn land_and_undo<H: Threads + Sync>(
    rt: &H,
    alloc: Global,
    directory: &mut Directory,
    byte: u8,
) -> Result<bool, Fail> {
    if directory.head() >= 9 {
        return Err(Fail::new("too many versions"));
    }
    directory.know();
    let batch = put_of(alloc, byte)?;
    let update = directory.update(rt, alloc, &batch, workers_of(4)?, &FreeGate)?;
    if update.snapshot.count() > 1_000 {
        return Err(Fail::new("too many entries"));
    }
    directory.apply(&update)?;
    let shown = shows(directory, 3, Some(byte));
    directory.undo(&update);
    Ok(shown)
}

#[test]
fn each_version_keeps_its_values(rt: HostRuntime) -> Result<(), Fail> {
    let mut directory = landed_directory(&rt, rt.alloc())?;
    assert!(rt; keep_values(&directory));
    assert!(rt; land_and_undo(&rt, rt.alloc(), &mut directory, b'z')?);
    assert!(rt; keep_values(&directory));
    Ok(())
}
