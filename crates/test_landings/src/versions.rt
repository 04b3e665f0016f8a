// Roots of landings on the plain store, against Python's `hashlib` by the recursion that defines them.
use jf_engine_play::roots::{EMPTY, OF_BOTH};
use jf_hash::{Hash, key_of};
use jf_plain::{PlainMap, PlainVersions};
use jf_split::{Batch, BatchFault};
use std::alloc::Global;
use std::test::Fail;

// The root with `1` at the key of `a`, `2` at that of `b`, and `3` at that of `c`.
const SECOND: Hash = [
    69, 202, 95, 209, 61, 60, 42, 163, 12, 83, 52, 157, 76, 29, 168, 53, 222, 62, 63, 160, 187,
    197, 19, 144, 65, 155, 13, 181, 18, 127, 66, 220,
];

// The root then with `9` at the key of `a`, and without the key of `b`.
const THIRD: Hash = [
    220, 70, 165, 141, 133, 151, 191, 37, 88, 37, 185, 255, 70, 144, 237, 64, 172, 41, 186, 222,
    16, 129, 109, 173, 207, 138, 93, 239, 22, 44, 192, 107,
];

// A name, and the byte put at its key, or `None` if the key is removed.
type Change = (&'static [u8], Option<u8>);

// What is landed, and the root of the map after it.
const LANDINGS: &[(&[Change], Hash)] = &[
    (&[(b"b", Some(b'2')), (b"a", Some(b'1'))], OF_BOTH),
    (&[(b"c", Some(b'3'))], SECOND),
    (
        &[(b"a", Some(b'9')), (b"b", None), (b"absent", None)],
        THIRD,
    ),
    (&[], THIRD),
];

fn change(alloc: Global, batch: &mut Batch, change: &Change) -> Result<(), BatchFault> {
    match change {
        (name, Some(byte)) => batch.put(alloc, &key_of(name), &[*byte]),
        (name, None) => batch.del(alloc, &key_of(name)),
    }
}

fn batch_of(alloc: Global, changes: &[Change]) -> Result<Batch, BatchFault> {
    let mut batch = Batch::new(alloc);
    for one in changes {
        change(alloc, &mut batch, one)?;
    }
    Ok(batch)
}

fn land(alloc: Global, versions: &mut PlainVersions, changes: &[Change]) -> Result<(), Fail> {
    let batch = batch_of(alloc, changes)?;
    if versions.head() >= 9 {
        return Err(Fail::new("too many landings"));
    }
    versions.land(alloc, &batch)?;
    Ok(())
}

// Lands these changes, and returns whether the root is then this one.
fn lands(
    alloc: Global,
    versions: &mut PlainVersions,
    changes: &[Change],
    root: &Hash,
) -> Result<bool, Fail> {
    land(alloc, versions, changes)?;
    Ok(versions.root() == *root)
}

// Versions and their roots; `None` above the newest.
const ROOTS: &[(u64, Option<Hash>)] = &[
    (0, Some(EMPTY)),
    (1, Some(OF_BOTH)),
    (2, Some(SECOND)),
    (3, Some(THIRD)),
    (4, Some(THIRD)),
    (5, None),
];

fn has_roots(versions: &PlainVersions) -> bool {
    for (version, root) in ROOTS {
        if versions.root_of(*version) != *root {
            return false;
        }
    }
    versions.head() == 4
}

// Takes the newest version back, and returns whether it is gone.
fn goes_back(versions: &mut PlainVersions) -> bool {
    if versions.head() == 0 {
        return false;
    }
    versions.undo();
    versions.head() == 3 && versions.root() == THIRD
}

#[test]
fn landings_have_the_roots_of_their_maps(rt: HostRuntime) -> Result<(), Fail> {
    let mut versions = PlainVersions::new(rt.alloc())?;
    assert!(rt; versions.root() == EMPTY);
    for (changes, root) in LANDINGS {
        assert!(rt;
            lands(rt.alloc(), &mut versions, changes, root)?,
            "{changes:?}"
        );
    }
    assert!(rt; has_roots(&versions));
    assert!(rt; goes_back(&mut versions));
    Ok(())
}

// What is landed at one key, version by version.
const VALUES: &[&[Change]] = &[&[(b"a", Some(b'x'))], &[(b"a", Some(b'y'))]];

fn versions_of_values(alloc: Global) -> Result<PlainVersions, Fail> {
    let mut versions = PlainVersions::new(alloc)?;
    for changes in VALUES {
        land(alloc, &mut versions, changes)?;
    }
    Ok(versions)
}

fn first_at(map: &PlainMap, name: &[u8]) -> Option<u8> {
    match map.get(&key_of(name)) {
        Some(bytes) => bytes.first().copied(),
        None => None,
    }
}

// The value at the key in a version, or `None` if there is no such version.
fn value_in(versions: &PlainVersions, version: u64) -> Option<Option<u8>> {
    match versions.map_of(version) {
        Some(map) => Some(first_at(map, b"a")),
        None => None,
    }
}

// The values by version; there is no version 3.
const KEPT: &[(u64, Option<Option<u8>>)] = &[
    (0, Some(None)),
    (1, Some(Some(b'x'))),
    (2, Some(Some(b'y'))),
    (3, None),
];

#[test]
fn each_version_keeps_its_values(rt: HostRuntime) -> Result<(), Fail> {
    let versions = versions_of_values(rt.alloc())?;
    for (version, value) in KEPT {
        assert!(rt; value_in(&versions, *version) == *value, "{version}");
    }
    assert!(rt; versions.newest().len() == 1);
    Ok(())
}
