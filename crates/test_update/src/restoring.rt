// A snapshot built anew from its entries and the versions of its nodes.
ghost use Rattle.std.specs.Prelude.{true, ◌≡◌, ◌≤◌, IfOk, length, map};
ghost use Rattle.std.specs.List.{AllByRecursion};
ghost use Rattle.jf_hash.specs.Hashes.{V};
ghost use Rattle.jf_update.specs.Restored.{AreShortEntries};

use crate::landings::{Change, FAR, LOW, NEAR, next};
use crate::roots::is_rising;
use jf_hash::{Hash, value};
use jf_node::{Link, Seen, Snapshot};
use jf_path::{Key, MAX_VALUE, Memory, Nibble, SharedBytes};
use jf_update::{RebuildFault, Update, restored_snapshot};
use std::alloc::Global;
use std::test::Fail;
use std::thread::Threads;

// What two landings put: the second writes the top, the node over `LOW` and `NEAR`, and the leaf of `NEAR`.
const FIRST: &[Change] = &[(LOW, Some(b'a')), (NEAR, Some(b'b')), (FAR, Some(b'c'))];

const SECOND: &[Change] = &[(NEAR, Some(b'd'))];

const ENTRIES: &[(u8, u8)] = &[(LOW, b'a'), (NEAR, b'd'), (FAR, b'c')];

// The versions of the nodes after both, in the order of their paths.
const VERSIONS: &[u64] = &[2, 2, 1, 2, 1];

// Versions that can't be those of the nodes: one too few, one too many, one too great, and another one for the top.
const REFUSED: &[&[u64]] = &[
    &[2, 2, 1, 2],
    &[2, 2, 1, 2, 1, 1],
    &[2, 2, 1, 3, 1],
    &[1, 1, 1, 1, 1],
    &[],
];

// The snapshot of version 2, made by two landings.
fn landed_snapshot<H: Threads + Sync>(rt: &H, alloc: Global) -> Result<Box<Update>, Fail> {
    let first = next(rt, alloc, &Snapshot::empty(0), FIRST, 1)?;
    next(rt, alloc, &first.snapshot, SECOND, 1)
}

// Appends the versions of the nodes from a link down, in the order of their paths.
fn push_versions(link: &Link, levels: u64, versions: &mut Vec<u64>) -> Result<(), Memory> {
    versions.push(link.version())?;
    if levels == 0 {
        return Ok(());
    }
    if let Seen::Inner { children } = link.view() {
        for n in 0..16 {
            if let Some(child) = children.get(Nibble::of(n)) {
                push_versions(child, levels - 1, versions)?;
            }
        }
    }
    Ok(())
}

// Whether the nodes of a snapshot have these versions, in the order of their paths.
fn has_versions(alloc: Global, snapshot: &Snapshot, wanted: &[u64]) -> Result<bool, Memory> {
    let mut versions = Vec::new(alloc);
    if let Some(link) = snapshot.top() {
        push_versions(link, 64, &mut versions)?;
    }
    Ok(versions.as_slice() == wanted)
}

fn entries_of(alloc: Global, bytes: &[(u8, u8)]) -> Result<Vec<(Key, SharedBytes)>, Memory> {
    let mut entries = Vec::new(alloc);
    for (key, byte) in bytes {
        let value = SharedBytes::copy_of(alloc, &[*byte])?;
        entries.push(([*key; 32], value))?;
    }
    Ok(entries)
}

fn hashes_of(alloc: Global, entries: &[(Key, SharedBytes)]) -> Result<Vec<Hash>, Memory>
    ensures { IfOk result (λ v. v.items ≡ map (λ e. V e.1) entries.now) }
{
    let mut hashes = Vec::new(alloc);
    for entry in entries {
        hashes.push(value(entry.1.as_slice()))?;
    }
    Ok(hashes)
}

// Whether each value is short enough.
fn are_short(entries: &[(Key, SharedBytes)]) -> bool
    ensures { result ≡ true → AreShortEntries entries.now }
{
    for entry in entries {
        if entry.1.len() > MAX_VALUE {
            return false;
        }
    }
    true
}

// The snapshot of the entries as the map of version 2, or why there is none.
fn rebuilt_snapshot(
    alloc: Global,
    versions: &[u64],
) -> Result<Box<Result<Snapshot, RebuildFault>>, Fail> {
    let entries = entries_of(alloc, ENTRIES)?;
    if !is_rising(&entries) || !are_short(&entries) {
        return Err(Fail::new("no map has these entries"));
    }
    let hashes = hashes_of(alloc, &entries)?;
    let built = restored_snapshot(alloc, 2, &entries, &hashes, versions);
    Ok(Box::new(alloc, built)?)
}

// Whether the versions are refused.
fn is_refused(alloc: Global, versions: &[u64]) -> Result<bool, Fail> {
    let built = rebuilt_snapshot(alloc, versions)?;
    match &*built {
        Ok(_) => Ok(false),
        Err(fault) => Ok(*fault == RebuildFault::Versions),
    }
}

// Whether a snapshot with the same root and the versions of the nodes is built.
fn is_rebuilt(alloc: Global, update: &Update) -> Result<bool, Fail> {
    let built = rebuilt_snapshot(alloc, VERSIONS)?;
    match &*built {
        Ok(snapshot) => {
            Ok(snapshot.root() == update.root && has_versions(alloc, snapshot, VERSIONS)?)
        }
        Err(_) => Ok(false),
    }
}

#[test]
fn a_snapshot_is_built_anew(rt: HostRuntime) -> Result<(), Fail> {
    let update = landed_snapshot(&rt, rt.alloc())?;
    assert!(rt; has_versions(rt.alloc(), &update.snapshot, VERSIONS)?);
    assert!(rt; is_rebuilt(rt.alloc(), &update)?);
    Ok(())
}

#[test]
fn versions_of_other_nodes_are_refused(rt: HostRuntime) -> Result<(), Fail> {
    for versions in REFUSED {
        assert!(rt; is_refused(rt.alloc(), versions)?);
    }
    Ok(())
}
