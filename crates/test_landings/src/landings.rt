// What landings return, and what the store shows then.
use jf_disk::{Disk, MemDisk};
use jf_engine::{Engine, Landed};
use jf_engine_play::roots::{EMPTY, OF_A, OF_B, OF_BOTH};
use jf_engine_play::steps::{THREE, land, land_all};
use jf_engine_play::stores::new_store;
use jf_hash::{Hash, key_of};
use std::alloc::Global;
use std::test::Fail;
use std::thread::Threads;

// The root of a version, and the values at the keys of `a` and of `b`.
type Version = (Hash, Option<u8>, Option<u8>);

// The versions after `1` was put at the key of `a`, and after three landings.
const AFTER_ONE: &[Version] = &[(EMPTY, None, None), (OF_A, Some(b'1'), None)];

const AFTER_THREE: &[Version] = &[
    (EMPTY, None, None),
    (OF_A, Some(b'1'), None),
    (OF_BOTH, Some(b'1'), Some(b'2')),
    (OF_B, None, Some(b'2')),
];

// The first byte of the value at the key of a name in a version, or `None` if there is none.
fn first_in(engine: &Engine<MemDisk>, version: u64, name: u8) -> Option<u8> {
    match engine.at(version)?.get(&key_of(&[name])) {
        Some(value) => value.first().copied(),
        None => None,
    }
}

fn has_version(engine: &Engine<MemDisk>, number: u64, version: &Version) -> bool {
    engine.root_of(number) == Some(version.0)
        && first_in(engine, number, b'a') == version.1
        && first_in(engine, number, b'b') == version.2
}

// Whether these are all versions.
fn has_versions(engine: &Engine<MemDisk>, versions: &[Version]) -> bool {
    for (number, version) in versions.iter().enumerate() {
        if !has_version(engine, number as u64, version) {
            return false;
        }
    }
    let next = versions.len() as u64;
    engine.root_of(next).is_none() && engine.at(next).is_none()
}

// Whether a landing returned this version, its root, and the moment of the disk.
fn is_landed(engine: &Engine<MemDisk>, landed: Landed, version: u64, root: Hash) -> bool {
    landed
        == Landed {
            version,
            root,
            moment: engine.disk().moment(),
        }
}

fn one_lands<H: Threads + Sync>(rt: &H, alloc: Global) -> Result<bool, Fail> {
    let mut engine = new_store(rt, alloc)?;
    let landed = land(rt, alloc, &mut engine, &[(b'a', Some(b'1'))])??;
    Ok(is_landed(&engine, landed, 1, OF_A) && has_versions(&engine, AFTER_ONE))
}

fn three_land<H: Threads + Sync>(rt: &H, alloc: Global) -> Result<bool, Fail> {
    let mut engine = new_store(rt, alloc)?;
    let landed = land_all(rt, alloc, &mut engine, THREE)??;
    Ok(is_landed(&engine, landed, 3, OF_B) && has_versions(&engine, AFTER_THREE))
}

#[test]
fn a_landing_returns_its_root_and_shows_its_values(rt: HostRuntime) -> Result<(), Fail> {
    assert!(rt; one_lands(&rt, rt.alloc())?);
    assert!(rt; three_land(&rt, rt.alloc())?);
    Ok(())
}
