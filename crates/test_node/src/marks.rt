// Marks of stale nodes: that calls succeed, and the order in which marks are taken.
use jf_path::{NibblePath, NodeName};
use jf_stale::StaleIndex;
use std::alloc::Global;
use std::test::Fail;

// The bytes of four paths: of no nibble, of 3, of 3 and 0, and of 4.
const ROOT: &[u8] = &[0];

const THREE: &[u8] = &[1, 0x30];

const THREE_ZERO: &[u8] = &[2, 0x30];

const FOUR: &[u8] = &[1, 0x40];

// Marks in their order: since, version and path.
const MARKS: &[(u64, u64, &[u8])] = &[
    (1, 0, ROOT),
    (1, 0, THREE),
    (1, 0, THREE_ZERO),
    (1, 0, FOUR),
    (1, 1, ROOT),
    (2, 0, THREE),
    (2, 1, ROOT),
    (u64::MAX, 0, ROOT),
];

// Orders in which the marks are made.
const ORDERS: &[[usize; 8]] = &[
    [0, 1, 2, 3, 4, 5, 6, 7],
    [7, 6, 5, 4, 3, 2, 1, 0],
    [3, 6, 1, 7, 0, 5, 2, 4],
    [5, 4, 2, 0, 7, 1, 6, 3],
];

// A floor, the version since which the mark taken up to it is stale, and how many marks remain.
const FLOORS: &[(u64, Option<u64>, u64)] = &[
    (0, None, 3),
    (4, None, 3),
    (5, Some(5), 2),
    (5, None, 2),
    (6, Some(6), 1),
    (u64::MAX - 1, None, 1),
    (u64::MAX, Some(u64::MAX), 0),
    (u64::MAX, None, 0),
];

// The place of a mark, and whether the mark is found when it is taken away.
const TAKEN_AWAY: &[(usize, bool)] = &[(0, false), (2, false), (4, true), (4, false), (6, false)];

fn mark_of(at: usize) -> Result<(u64, NodeName), Fail> {
    let (since, version, bytes) = *MARKS.get(at).ok_or("no mark")?;
    let path = NibblePath::from_bytes(bytes)?;
    Ok((since, NodeName { version, path }))
}

fn mark(index: &mut StaleIndex, at: usize) -> Result<(), Fail> {
    let (since, name) = mark_of(at)?;
    index.mark(since, name)?;
    Ok(())
}

fn mark_all(index: &mut StaleIndex, places: &[usize]) -> Result<(), Fail> {
    for at in places {
        mark(index, *at)?;
    }
    Ok(())
}

// Whether the mark taken up to a floor is this one.
fn takes(index: &mut StaleIndex, floor: u64, at: usize) -> Result<bool, Fail> {
    let wanted = mark_of(at)?;
    Ok(index.take_upto(floor) == Some(wanted))
}

// Whether the marks are taken in their order, and nothing is taken after them.
fn takes_all(index: &mut StaleIndex) -> Result<bool, Fail> {
    for at in 0..8 {
        if !takes(index, u64::MAX, at)? {
            return Ok(false);
        }
    }
    Ok(index.take_upto(u64::MAX).is_none())
}

// Whether marks made in an order of `ORDERS` are taken in their own.
fn are_taken_in_order(alloc: Global, order: &[usize]) -> Result<bool, Fail> {
    let mut index = StaleIndex::new(alloc);
    mark_all(&mut index, order)?;
    let all = index.len() == 8;
    Ok(all && takes_all(&mut index)?)
}

#[test]
fn marks_in_any_order_are_taken_in_theirs(rt: HostRuntime) -> Result<(), Fail> {
    for order in ORDERS {
        assert!(rt; are_taken_in_order(rt.alloc(), order)?, "{order:?}");
    }
    Ok(())
}

// An index in which one name is stale since three versions.
fn since_three(alloc: Global, name: &NodeName) -> Result<StaleIndex, Fail> {
    let mut index = StaleIndex::new(alloc);
    for since in &[6, u64::MAX, 5] {
        index.mark(*since, *name)?;
    }
    Ok(index)
}

// Whether just that is taken up to a floor, the name since a version or nothing, and so many marks remain.
fn leaves(
    index: &mut StaleIndex,
    name: &NodeName,
    floor: u64,
    taken: Option<u64>,
    left: u64,
) -> bool {
    let same = match (index.take_upto(floor), taken) {
        (None, None) => true,
        (Some((since, found_count)), Some(wanted)) => since == wanted && found_count == *name,
        _ => false,
    };
    same && index.len() == left
}

// How many floors come out as expected before the first that doesn't.
fn floors(index: &mut StaleIndex, name: &NodeName) -> usize {
    for (i, (floor, taken, left)) in FLOORS.iter().enumerate() {
        if !leaves(index, name, *floor, *taken, *left) {
            return i;
        }
    }
    FLOORS.len()
}

#[test]
fn marks_are_taken_up_to_the_floor(rt: HostRuntime) -> Result<(), Fail> {
    let (_, name) = mark_of(2)?;
    let mut index = since_three(rt.alloc(), &name)?;
    assert_eq!(rt; floors(&mut index, &name), 8);
    Ok(())
}

// Whether a mark is found when it is taken away.
fn is_found(index: &mut StaleIndex, at: usize) -> Result<bool, Fail> {
    let (since, name) = mark_of(at)?;
    Ok(index.unmark(since, &name))
}

// How many marks are found or missed as expected before the first that isn't.
fn found_count(index: &mut StaleIndex) -> Result<usize, Fail> {
    for (i, (at, there)) in TAKEN_AWAY.iter().enumerate() {
        if is_found(index, *at)? != *there {
            return Ok(i);
        }
    }
    Ok(TAKEN_AWAY.len())
}

// Whether the marks 1 and 5 are taken, and no other mark is there.
fn has_two(index: &mut StaleIndex) -> Result<bool, Fail> {
    let both = takes(index, 2, 1)? && takes(index, 2, 5)?;
    Ok(both && index.len() == 0)
}

// Whether marks that are made twice are taken away once.
fn are_taken_away(index: &mut StaleIndex) -> Result<bool, Fail> {
    mark_all(index, &[1, 1, 4, 4, 5, 5])?;
    let all = found_count(index)? == 5;
    Ok(all && has_two(index)?)
}

#[test]
fn a_mark_that_is_there_is_taken_away_once(rt: HostRuntime) -> Result<(), Fail> {
    let mut index = StaleIndex::new(rt.alloc());
    assert!(rt; are_taken_away(&mut index)?);
    Ok(())
}
