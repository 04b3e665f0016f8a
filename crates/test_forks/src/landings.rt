// Forks that land: the map of each version, and the forks that stay.
use crate::rows::{Row, byte_at, first_of, head_of_one, table_of};
use jf_forks::{ForkFault, ForkTable};
use jf_model::Parent;
use jf_node::Snapshot;
use jf_spec::SpecTree;
use jf_split::BatchList;
use std::alloc::Global;
use std::test::Fail;

// A fork, a key, and the value that the fork has there, or why it isn't read.
type LandCase = (u64, u8, Result<Option<u8>, ForkFault>);

// A number of batches of a landing, a key, and the value there after so many.
type Version = (usize, u8, Option<u8>);

struct Case {
    forks: &'static [Row],
    before: &'static [LandCase],
    lands: u64,
    versions: &'static [Version],
    after: &'static [LandCase],
    live: u64,
}

const HEAD: Parent = Parent::Head;

const NONE: Option<(u8, Option<u8>)> = None;

const CASES: &[Case] = &[
    // A fork reads its own chain; another fork's change of the same key doesn't show.
    Case {
        forks: &[
            (HEAD, Some((0x61, Some(0x31)))),
            (HEAD, Some((0x61, Some(0x32)))),
            (Parent::Fork(0), Some((0x62, Some(0x33)))),
        ],
        before: &[
            (2, 0x61, Ok(Some(0x31))),
            (1, 0x61, Ok(Some(0x32))),
            (0, 0x62, Ok(None)),
        ],
        lands: 0,
        versions: &[(1, 0x61, Some(0x31)), (1, 0x62, None)],
        after: &[
            (0, 0x61, Err(ForkFault::Gone)),
            (1, 0x61, Err(ForkFault::Gone)),
            (2, 0x61, Ok(Some(0x31))),
            (2, 0x62, Ok(Some(0x33))),
        ],
        live: 1,
    },
    // Empty batches: a fork lands with its ancestor, and no fork is left.
    Case {
        forks: &[(HEAD, NONE), (Parent::Fork(0), NONE)],
        before: &[(1, 0x61, Ok(None)), (7, 0x61, Err(ForkFault::Unknown))],
        lands: 1,
        versions: &[(2, 0x61, None)],
        after: &[
            (7, 0x61, Err(ForkFault::Unknown)),
            (0, 0x61, Err(ForkFault::Gone)),
            (1, 0x61, Err(ForkFault::Gone)),
        ],
        live: 0,
    },
    // A chain of three, the oldest first.
    Case {
        forks: &[
            (HEAD, Some((0x61, Some(0x31)))),
            (Parent::Fork(0), Some((0x61, Some(0x32)))),
            (Parent::Fork(1), Some((0x62, Some(0x33)))),
        ],
        before: &[(0, 0x61, Ok(Some(0x31))), (2, 0x61, Ok(Some(0x32)))],
        lands: 2,
        versions: &[
            (1, 0x61, Some(0x31)),
            (2, 0x61, Some(0x32)),
            (2, 0x62, None),
            (3, 0x62, Some(0x33)),
        ],
        after: &[
            (0, 0x61, Err(ForkFault::Gone)),
            (2, 0x61, Err(ForkFault::Gone)),
        ],
        live: 0,
    },
    // Children and grandchildren stay; all other forks go, also those on an ancestor.
    Case {
        forks: &[
            (HEAD, Some((0x61, Some(0x31)))),
            (Parent::Fork(0), Some((0x62, Some(0x32)))),
            (Parent::Fork(1), Some((0x63, Some(0x33)))),
            (HEAD, Some((0x64, Some(0x34)))),
            (Parent::Fork(3), Some((0x65, Some(0x35)))),
            (Parent::Fork(2), Some((0x61, None))),
            (Parent::Fork(1), NONE),
            (Parent::Fork(0), NONE),
        ],
        before: &[
            (5, 0x61, Ok(None)),
            (5, 0x63, Ok(Some(0x33))),
            (4, 0x64, Ok(Some(0x34))),
        ],
        lands: 1,
        versions: &[
            (1, 0x61, Some(0x31)),
            (2, 0x61, Some(0x31)),
            (2, 0x62, Some(0x32)),
        ],
        after: &[
            (0, 0x61, Err(ForkFault::Gone)),
            (1, 0x61, Err(ForkFault::Gone)),
            (2, 0x62, Ok(Some(0x32))),
            (3, 0x64, Err(ForkFault::Gone)),
            (4, 0x64, Err(ForkFault::Gone)),
            (5, 0x61, Ok(None)),
            (5, 0x62, Ok(Some(0x32))),
            (6, 0x61, Ok(Some(0x31))),
            (7, 0x61, Err(ForkFault::Gone)),
        ],
        live: 3,
    },
];

// Lands a fork with its ancestors, and returns their batches.
fn land(alloc: Global, table: &mut ForkTable, id: u64) -> Result<BatchList, ForkFault> {
    let list = table.chain(alloc, id)?;
    table.settle(Some(id));
    Ok(list)
}

fn tell(table: &ForkTable, expected: &[LandCase]) -> bool {
    for (id, key, byte) in expected {
        if byte_at(table, *id, *key) != *byte {
            return false;
        }
    }
    true
}

// The map after the first of these batches, from an empty one.
fn after_batches(alloc: Global, list: &BatchList, count: usize) -> Result<SpecTree, Fail> {
    let mut tree = SpecTree::on(&Snapshot::empty(0))?;
    for batch in list.as_slice().iter().take(count) {
        tree = tree.with(alloc, batch)?;
    }
    Ok(tree)
}

fn make_versions(alloc: Global, list: &BatchList, expected: &[Version]) -> Result<bool, Fail> {
    for (count, key, byte) in expected {
        let tree = after_batches(alloc, list, *count)?;
        if first_of(tree.get(&[*key; 32])) != *byte {
            return Ok(false);
        }
    }
    Ok(true)
}

fn is_as_expected(alloc: Global, case: &Case) -> Result<bool, Fail> {
    let mut table = table_of(alloc, &Snapshot::empty(0), case.forks)?;
    if !tell(&table, case.before) {
        return Ok(false);
    }
    let list = land(alloc, &mut table, case.lands)?;
    let versions = make_versions(alloc, &list, case.versions)?;
    Ok(versions && tell(&table, case.after) && table.live() == case.live)
}

#[test]
fn a_fork_lands_with_its_ancestors(rt: HostRuntime) -> Result<(), Fail> {
    for case in CASES {
        assert!(rt; is_as_expected(rt.alloc(), case)?);
    }
    Ok(())
}

// Whether forks on a head of one entry empty its map and fill it again.
fn empties(alloc: Global) -> Result<bool, Fail> {
    let head = head_of_one(alloc, 0x61, 0x31)?;
    let forks = &[
        (HEAD, Some((0x61, None))),
        (Parent::Fork(0), Some((0x61, Some(0x31)))),
        (HEAD, NONE),
    ];
    let table = table_of(alloc, &head, forks)?;
    let (none, again, same) = (
        table.tree(0)?.root(),
        table.tree(1)?.root(),
        table.tree(2)?.root(),
    );
    Ok(none == jf_hash::empty() && again == head.root() && same == head.root())
}

#[test]
fn a_fork_empties_the_map(rt: HostRuntime) -> Result<(), Fail> {
    assert!(rt; empties(rt.alloc())?);
    Ok(())
}

// Whether a fork is dropped with all that stand on it, directly or through others.
fn drops(alloc: Global) -> Result<bool, Fail> {
    let forks = &[
        (HEAD, NONE),
        (Parent::Fork(0), NONE),
        (Parent::Fork(1), NONE),
        (HEAD, NONE),
    ];
    let mut table = table_of(alloc, &Snapshot::empty(0), forks)?;
    let gone = (table.drop_fork(4), table.drop_fork(0), table.drop_fork(2));
    Ok(gone == (Err(ForkFault::Unknown), Ok(3), Err(ForkFault::Gone)) && table.live() == 1)
}

#[test]
fn a_grandchild_is_dropped_too(rt: HostRuntime) -> Result<(), Fail> {
    assert!(rt; drops(rt.alloc())?);
    Ok(())
}
