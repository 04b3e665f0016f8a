// The roots and the number of nodes of a directory after landings and a later floor, counted by hand.
use crate::landing::{
    Change, FAR, LOW, NEAR, PAIR, batch_of, land, land_and_undo, land_and_undo_landing, new_store,
};
use jf_dir::Directory;
use jf_hash::Hash;
use jf_plain::PlainMap;
use jf_split::Batch;
use std::alloc::Global;
use std::test::Fail;
use std::thread::Threads;

// The root of the empty map: SHA-256 of one byte 0.
const EMPTY: Hash = [
    0x6e, 0x34, 0x0b, 0x9c, 0xff, 0xb3, 0x7a, 0x98, 0x9c, 0xa5, 0x44, 0xe6, 0xbb, 0x78, 0x0a, 0x2c,
    0x78, 0x90, 0x1d, 0x3f, 0xb3, 0x37, 0x38, 0x76, 0x85, 0x11, 0xa3, 0x06, 0x17, 0xaf, 0xa0, 0x1d,
];

// A batch, and the map after it.
type Landing<'a> = (&'a [Change], &'a [Change]);

// Landings on a new store, the floor that is set after them, and the number of nodes that are kept then.
type History<'a> = (&'a [Landing<'a>], u64, u64);

const PARTED: &[Landing] = &[(PAIR, PAIR)];

const PUT_AND_REMOVED: &[Landing] = &[
    (&[(LOW, Some(b'a'))], &[(LOW, Some(b'a'))]),
    (&[(LOW, None)], &[]),
];

const ONE_LEFT: &[Landing] = &[
    (
        &[(LOW, Some(b'a')), (FAR, Some(b'b'))],
        &[(LOW, Some(b'a')), (FAR, Some(b'b'))],
    ),
    (&[(FAR, None)], &[(LOW, Some(b'a'))]),
];

const OF_NOTHING: &[Landing] = &[(&[], &[]), (&[], &[])];

const PUT_AGAIN: &[Landing] = &[(PAIR, PAIR), (&[(NEAR, Some(b'b'))], PAIR)];

// The top of the empty map is a node, and each landing writes a top.
const HISTORIES: &[History] = &[
    // the empty top
    (&[], 0, 1),
    // the empty top; the top, the node that both keys share, and two leaves
    (PARTED, 0, 5),
    (PARTED, 1, 4),
    // the empty top, a leaf as the top, and the empty top again
    (PUT_AND_REMOVED, 0, 3),
    (PUT_AND_REMOVED, 2, 1),
    // the empty top; the top and two leaves; a leaf as the top
    (ONE_LEFT, 0, 5),
    (ONE_LEFT, 1, 4),
    (ONE_LEFT, 2, 1),
    // three times the empty top
    (OF_NOTHING, 0, 3),
    // as with the pair, and one more top, over the same child
    (PUT_AGAIN, 0, 6),
    (PUT_AGAIN, 2, 4),
];

// What is landed on each of them, taken back, and landed again.
const MORE: &[Change] = &[(LOW, Some(b'c')), (NEAR, None), (FAR, Some(b'd'))];

// The directory after landings on a new store.
fn landed_directory<H: Threads + Sync>(
    rt: &H,
    alloc: Global,
    landings: &[Landing],
) -> Result<Box<Directory>, Fail> {
    let mut directory = new_store(alloc)?;
    for landing in landings {
        let batch = batch_of(alloc, landing.0)?;
        land(rt, alloc, &mut directory, &batch, 1)?;
    }
    Ok(directory)
}

fn set_floor(directory: &mut Directory, floor: u64) -> Result<(), Fail> {
    if floor < directory.floor() || floor > directory.head() {
        return Err(Fail::new("no such floor"));
    }
    directory.prune(floor);
    Ok(())
}

// The directory after a history.
fn after<H: Threads + Sync>(
    rt: &H,
    alloc: Global,
    history: &History,
) -> Result<Box<Directory>, Fail> {
    let mut directory = landed_directory(rt, alloc, history.0)?;
    set_floor(&mut directory, history.1)?;
    Ok(directory)
}

// The root of a map, computed from all of its entries.
fn root_of(alloc: Global, map: &[Change]) -> Result<Hash, Fail> {
    let batch = batch_of(alloc, map)?;
    let map = PlainMap::new(alloc).map_after(alloc, &batch)?;
    Ok(map.root(alloc)?)
}

// Whether these are the roots of the maps after the landings.
fn are_roots(alloc: Global, roots: &[Hash], landings: &[Landing]) -> Result<bool, Fail> {
    for (root, landing) in roots.iter().zip(landings) {
        if *root != root_of(alloc, landing.1)? {
            return Ok(false);
        }
    }
    Ok(roots.len() == landings.len())
}

// Whether the roots are those of the empty map and of the maps after the landings.
fn has_roots(alloc: Global, directory: &Directory, landings: &[Landing]) -> Result<bool, Fail> {
    match directory.roots().split_first() {
        None => Ok(false),
        Some((first, rest)) => Ok(*first == EMPTY && are_roots(alloc, rest, landings)?),
    }
}

// Whether a version has a root, and whether it has a snapshot.
fn is_shown(directory: &Directory, version: u64) -> (bool, bool) {
    (
        directory.root_of(version).is_some(),
        directory.at(version).is_some(),
    )
}

// Whether versions have a root from 0 to the head, and a snapshot from the floor to the head.
fn shows_versions(directory: &Directory, floor: u64, head: u64) -> bool {
    for version in 0..9 {
        let rooted = version <= head;
        if is_shown(directory, version) != (rooted, rooted && floor <= version) {
            return false;
        }
    }
    true
}

// Whether a directory has this floor and number of nodes, and a version for each landing.
fn has_numbers(directory: &Directory, history: &History) -> bool {
    let head = history.0.len() as u64;
    let numbers = (
        directory.base(),
        directory.floor(),
        directory.head(),
        directory.count(),
    );
    numbers == (0, history.1, head, history.2) && shows_versions(directory, history.1, head)
}

// Whether a directory is as it has to be after a history.
fn is_after(alloc: Global, directory: &Directory, history: &History) -> Result<bool, Fail> {
    Ok(has_numbers(directory, history) && has_roots(alloc, directory, history.0)?)
}

fn comes_out<H: Threads + Sync>(rt: &H, alloc: Global, history: &History) -> Result<bool, Fail> {
    let directory = after(rt, alloc, history)?;
    is_after(alloc, &directory, history)
}

// The numbers of nodes that are kept after a landing, each before it is taken back: of an update, and of what the landing
// writes.
fn counts_between<H: Threads + Sync>(
    rt: &H,
    alloc: Global,
    directory: &mut Directory,
    batch: &Batch,
) -> Result<(u64, u64), Fail> {
    let count = land_and_undo(rt, alloc, directory, batch)?;
    Ok((count, land_and_undo_landing(rt, alloc, directory, batch)?))
}

// Whether a landing can be taken back, and made again with the same number of nodes and the right root.
fn lands_again<H: Threads + Sync>(
    rt: &H,
    alloc: Global,
    directory: &mut Directory,
    history: &History,
) -> Result<bool, Fail> {
    let batch = batch_of(alloc, MORE)?;
    let counts = counts_between(rt, alloc, directory, &batch)?;
    let back = is_after(alloc, directory, history)?;
    land(rt, alloc, directory, &batch, 1)?;
    let count = directory.count();
    Ok(back && counts == (count, count) && ends_in_more(alloc, directory)?)
}

// Whether the root of the head is that of the map of `LOW` and `FAR`.
fn ends_in_more(alloc: Global, directory: &Directory) -> Result<bool, Fail> {
    let root = root_of(alloc, MORE)?;
    Ok(directory.newest().root() == root && directory.root_of(directory.head()) == Some(root))
}

fn is_taken_back<H: Threads + Sync>(
    rt: &H,
    alloc: Global,
    history: &History,
) -> Result<bool, Fail> {
    let mut directory = after(rt, alloc, history)?;
    lands_again(rt, alloc, &mut directory, history)
}

#[test]
fn roots_and_nodes_are_those_of_the_maps(rt: HostRuntime) -> Result<(), Fail> {
    for history in HISTORIES {
        assert!(rt; comes_out(&rt, rt.alloc(), history)?);
    }
    Ok(())
}

#[test]
fn a_landing_is_taken_back_and_made_again(rt: HostRuntime) -> Result<(), Fail> {
    for history in HISTORIES {
        assert!(rt; is_taken_back(&rt, rt.alloc(), history)?);
    }
    Ok(())
}
