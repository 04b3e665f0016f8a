// Side A with a new store, side B with its next generation: what an opening finds if side B is changed.
use crate::damage::{BEFORE, Edit, Opened, edited_file, opened_store};
use crate::records::{END, NEW, SECOND, file_bytes};
use jf_disk::Side;
use jf_engine::{OpenFault, State};
use jf_engine_play::stores::new_store;
use std::alloc::Global;
use std::test::Fail;
use std::thread::Threads;

const IN_SECOND: Opened = Ok(State {
    base: 0,
    floor: 0,
    head: 0,
    kept: 1,
    generation: 2,
});

pub(crate) const AT_FIRST_OF_B: Opened = Err(OpenFault::Damaged {
    side: Side::B,
    offset: 0,
});

const AT_END_OF_B: Opened = Err(OpenFault::Damaged {
    side: Side::B,
    offset: 100,
});

// What is done to side B after a new store was compacted, and what is found then.
const ON_B: &[(Edit, Opened)] = &[
    (Edit::Cut(101), IN_SECOND),
    (Edit::Cut(0), BEFORE),
    (Edit::Set(0, 0), BEFORE),
    // both sides are of generation 1
    (Edit::Set(17, 1), AT_FIRST_OF_B),
    (Edit::Cut(50), AT_FIRST_OF_B),
    (Edit::Set(1, 7), AT_FIRST_OF_B),
    (Edit::Set(100, 1), AT_END_OF_B),
];

fn is_found<H: Threads + Sync>(
    rt: &H,
    alloc: Global,
    edit: Edit,
    want: Opened,
) -> Result<bool, Fail> {
    let side_a = file_bytes(alloc, NEW)?;
    let side_b = edited_file(alloc, &[SECOND, END], &[edit])?;
    Ok(opened_store(rt, alloc, &side_a, &side_b)? == want)
}

#[test]
fn the_greater_generation_is_live(rt: HostRuntime) -> Result<(), Fail> {
    for (edit, want) in ON_B {
        assert!(rt; is_found(&rt, rt.alloc(), *edit, *want)?, "{edit:?}");
    }
    Ok(())
}

// Whether the next generations of a new store have these numbers.
fn has_generations<H: Threads + Sync>(
    rt: &H,
    alloc: Global,
    generations: &[u64],
) -> Result<bool, Fail> {
    let mut engine = new_store(rt, alloc)?;
    for generation in generations {
        if engine.compact(alloc) != Ok(*generation) {
            return Ok(false);
        }
    }
    Ok(true)
}

#[test]
fn a_compaction_returns_its_generation(rt: HostRuntime) -> Result<(), Fail> {
    assert!(rt; has_generations(&rt, rt.alloc(), &[2, 3, 4])?);
    Ok(())
}
