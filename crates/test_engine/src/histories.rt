// Stores after a few steps, and their files byte by byte.
use crate::records::{
    CHECKPOINT, CHECKPOINT_1, COUNTED, END, FLOOR, File, GROUP, IMPORTED, IMPORTED_LAST, LANDED,
    LANDING, LANDING_OF_NOTHING, MOVED_ON, NEW, PRUNED, SECOND, TWO, TWO_KEYS_1, TWO_LANDINGS_1,
    file_bytes,
};
use jf_disk::{MemDisk, Side};
use jf_engine::{Engine, State};
use jf_engine_play::entries::Entries;
use jf_engine_play::steps::{Change, Step, THREE, take_each};
use jf_engine_play::stores::{Store, disk_of, reopened_store, store_on};
use jf_hash::key_of;
use std::alloc::Global;
use std::test::Fail;
use std::thread::Threads;

// Side A at first, the steps, the numbers after them with the entries of each version from the floor to the head, and both
// sides then.
type History = (
    File,
    &'static [Step],
    (State, &'static [Entries]),
    File,
    File,
);

// Entries of versions. The keys of `i` and `a` have the same first nibble.
const NONE: Entries = &[];

const ONE: Entries = &[(b'a', b'1')];

const BOTH: Entries = &[(b'a', b'1'), (b'b', b'2')];

const OTHER: Entries = &[(b'b', b'2')];

const NEAR: Entries = &[(b'i', 1), (b'a', 2)];

const NEAR_AND_OTHER: Entries = &[(b'i', 1), (b'a', 2), (b'b', b'2')];

const CHANGED: Entries = &[(b'i', 1), (b'a', b'1'), (b'c', b'3')];

// Two batches that change entries of `NEAR` and add others.
const TWO_LANDINGS: &[&[Change]] = &[
    &[(b'b', Some(b'2'))],
    &[(b'a', Some(b'1')), (b'b', None), (b'c', Some(b'3'))],
];

const AT_FIRST: State = State {
    base: 0,
    floor: 0,
    head: 0,
    kept: 1,
    generation: 1,
};

const AFTER_ONE: State = State {
    base: 0,
    floor: 0,
    head: 1,
    kept: 2,
    generation: 1,
};

const AFTER_TWO_KEYS: State = State {
    base: 0,
    floor: 0,
    head: 1,
    kept: 5,
    generation: 1,
};

const COMPACTED: State = State {
    base: 0,
    floor: 0,
    head: 0,
    kept: 1,
    generation: 2,
};

const MOVED: State = State {
    base: 0,
    floor: 0,
    head: 2,
    kept: 3,
    generation: 2,
};

const AFTER_THREE: State = State {
    base: 0,
    floor: 0,
    head: 3,
    kept: 6,
    generation: 1,
};

const AFTER_FLOOR: State = State {
    base: 0,
    floor: 2,
    head: 3,
    kept: 4,
    generation: 1,
};

const AFTER_FLOOR_COMPACTED: State = State {
    base: 0,
    floor: 2,
    head: 3,
    kept: 4,
    generation: 2,
};

const AFTER_TWO_LANDINGS: State = State {
    base: 0,
    floor: 0,
    head: 3,
    kept: 11,
    generation: 1,
};

const AFTER_TWO_LANDINGS_COMPACTED: State = State {
    base: 0,
    floor: 0,
    head: 3,
    kept: 11,
    generation: 2,
};

const AFTER_IMPORT: State = State {
    base: 9,
    floor: 9,
    head: 9,
    kept: 3,
    generation: 2,
};

const AFTER_IMPORT_OF_LAST: State = State {
    base: u64::MAX - 1,
    floor: u64::MAX - 1,
    head: u64::MAX - 1,
    kept: 1,
    generation: 2,
};

const HISTORIES: &[History] = &[
    // a new store, and opened again
    (&[], &[], (AT_FIRST, &[NONE]), NEW, &[]),
    (NEW, &[], (AT_FIRST, &[NONE]), NEW, &[]),
    // a landing, also if it is given as a list
    (
        &[],
        &[Step::Land(&[(b'a', Some(b'1'))])],
        (AFTER_ONE, &[NONE, ONE]),
        LANDED,
        &[],
    ),
    (
        &[],
        &[Step::LandAll(&[&[(b'a', Some(b'1'))]])],
        (AFTER_ONE, &[NONE, ONE]),
        LANDED,
        &[],
    ),
    // two keys with the same first nibble
    (
        &[],
        &[Step::Land(&[(b'i', Some(1)), (b'a', Some(2))])],
        (AFTER_TWO_KEYS, &[NONE, NEAR]),
        TWO,
        &[],
    ),
    // the next generation of a new store
    (
        &[],
        &[Step::Compact],
        (COMPACTED, &[NONE]),
        NEW,
        &[SECOND, END],
    ),
    // three landings in one record, and then a floor: nodes are given up that are stale since version 2 or before
    (
        &[],
        &[Step::LandAll(THREE)],
        (AFTER_THREE, &[NONE, ONE, BOTH, OTHER]),
        &[CHECKPOINT, GROUP, END],
        &[],
    ),
    (
        &[],
        &[Step::LandAll(THREE), Step::Prune(2)],
        (AFTER_FLOOR, &[BOTH, OTHER]),
        &[CHECKPOINT, GROUP, FLOOR, END],
        &[],
    ),
    // and then the next generation
    (
        &[],
        &[Step::LandAll(THREE), Step::Prune(2), Step::Compact],
        (AFTER_FLOOR_COMPACTED, &[BOTH, OTHER]),
        &[CHECKPOINT, GROUP, FLOOR, END],
        &[PRUNED, END],
    ),
    // one version that is imported: with two keys, and the last one with none
    (
        &[],
        &[Step::Import(9, &[(b'a', b'1'), (b'b', b'2')])],
        (AFTER_IMPORT, &[BOTH]),
        NEW,
        &[IMPORTED, END],
    ),
    (
        &[],
        &[Step::Import(u64::MAX - 1, &[])],
        (AFTER_IMPORT_OF_LAST, &[NONE]),
        NEW,
        &[IMPORTED_LAST, END],
    ),
];

// Files in format 1, which go on in it; the next generation is in format 2.
const IN_FORMAT_1: &[History] = &[
    // two keys with the same first nibble
    (
        &[CHECKPOINT_1, END],
        &[Step::Land(&[(b'i', Some(1)), (b'a', Some(2))])],
        (AFTER_TWO_KEYS, &[NONE, NEAR]),
        &[CHECKPOINT_1, TWO_KEYS_1, END],
        &[],
    ),
    // the next generation keeps the top of each version
    (
        &[CHECKPOINT_1, LANDING, END],
        &[Step::Land(&[]), Step::Compact],
        (MOVED, &[NONE, ONE, ONE]),
        &[CHECKPOINT_1, LANDING, LANDING_OF_NOTHING, END],
        &[MOVED_ON, END],
    ),
    // two landings in one record, and then the next generation, which has a count for each child
    (
        &[CHECKPOINT_1, TWO_KEYS_1, END],
        &[Step::LandAll(TWO_LANDINGS)],
        (AFTER_TWO_LANDINGS, &[NONE, NEAR, NEAR_AND_OTHER, CHANGED]),
        &[CHECKPOINT_1, TWO_KEYS_1, TWO_LANDINGS_1, END],
        &[],
    ),
    (
        &[CHECKPOINT_1, TWO_KEYS_1, TWO_LANDINGS_1, END],
        &[Step::Compact],
        (
            AFTER_TWO_LANDINGS_COMPACTED,
            &[NONE, NEAR, NEAR_AND_OTHER, CHANGED],
        ),
        &[CHECKPOINT_1, TWO_KEYS_1, TWO_LANDINGS_1, END],
        &[COUNTED, END],
    ),
];

// The store after the steps.
fn after<H: Threads + Sync>(rt: &H, alloc: Global, history: &History) -> Result<Store, Fail> {
    let side_a = file_bytes(alloc, history.0)?;
    let mut engine = store_on(rt, alloc, disk_of(alloc, &side_a, &[], &[])?)?;
    take_each(rt, alloc, &mut engine, history.1)?;
    Ok(engine)
}

// Whether versions have a root from the base to the head, and a snapshot from the floor to the head.
fn shows_versions(engine: &Engine<MemDisk>, state: &State) -> bool {
    for version in 0..11 {
        let rooted = state.base <= version && version <= state.head;
        if engine.root_of(version).is_some() != rooted
            || engine.at(version).is_some() != (rooted && state.floor <= version)
        {
            return false;
        }
    }
    engine.root_of(state.head).is_some()
}

// The first byte of the value at the key of a name in a version, or `None` if there is none.
fn first_in(engine: &Engine<MemDisk>, version: u64, name: u8) -> Option<u8> {
    match engine.at(version)?.get(&key_of(&[name])) {
        Some(value) => value.first().copied(),
        None => None,
    }
}

// Whether a version has so many entries.
fn has_so_many(engine: &Engine<MemDisk>, version: u64, count: u64) -> bool {
    match engine.at(version) {
        Some(snapshot) => snapshot.count() == count,
        None => false,
    }
}

// Whether a version has these entries and no other.
fn has_entries(engine: &Engine<MemDisk>, version: u64, entries: Entries) -> bool {
    for (name, byte) in entries {
        if first_in(engine, version, *name) != Some(*byte) {
            return false;
        }
    }
    has_so_many(engine, version, entries.len() as u64)
}

// Whether these are the entries of the versions from the floor to the head.
fn has_maps(engine: &Engine<MemDisk>, state: &State, maps: &[Entries]) -> bool {
    let mut version = state.floor;
    for entries in maps {
        if !has_entries(engine, version, entries) {
            return false;
        }
        version = version.saturating_add(1);
    }
    version == state.head.saturating_add(1)
}

// Whether a store is as it has to be after a history.
fn is_after(alloc: Global, engine: &Engine<MemDisk>, history: &History) -> Result<bool, Fail> {
    let (state, maps) = history.2;
    Ok(
        engine.state() == state
            && shows_versions(engine, &state)
            && has_maps(engine, &state, maps)
            && engine.disk().bytes(Side::A) == file_bytes(alloc, history.3)?.as_slice()
            && engine.disk().bytes(Side::B) == file_bytes(alloc, history.4)?.as_slice(),
    )
}

// Whether a store is so after the steps, and opened again.
fn comes_out<H: Threads + Sync>(rt: &H, alloc: Global, history: &History) -> Result<bool, Fail> {
    let engine = after(rt, alloc, history)?;
    let before = is_after(alloc, &engine, history)?;
    let again = reopened_store(rt, alloc, engine)?;
    Ok(before && is_after(alloc, &again, history)?)
}

#[test]
fn files_have_these_bytes_and_are_found_again(rt: HostRuntime) -> Result<(), Fail> {
    for (place, history) in HISTORIES.iter().enumerate() {
        assert!(rt; comes_out(&rt, rt.alloc(), history)?, "history {place}");
    }
    Ok(())
}

#[test]
fn files_in_format_1_go_on_up_to_the_next_generation(rt: HostRuntime) -> Result<(), Fail> {
    for (place, history) in IN_FORMAT_1.iter().enumerate() {
        assert!(rt; comes_out(&rt, rt.alloc(), history)?, "history {place}");
    }
    Ok(())
}
