// Files that end too early, or of which a byte is another: what an opening finds.
use crate::records::{CHECKPOINT, CHECKPOINT_1, END, File, LANDED, LANDING, TWO, file_bytes};
use jf_disk::Side;
use jf_engine::{OpenFault, State};
use jf_engine_play::stores::{disk_of, state_on};
use std::alloc::Global;
use std::test::Fail;
use std::thread::Threads;

// What is done to a file: it is cut to a length, or the byte at a place becomes another.
#[derive(Clone, Copy, Debug)]
pub(crate) enum Edit {
    Cut(usize),
    Set(usize, u8),
}

pub(crate) type Opened = Result<State, OpenFault>;

// The store as it was before the landing, and after it.
pub(crate) const BEFORE: Opened = Ok(State {
    base: 0,
    floor: 0,
    head: 0,
    kept: 1,
    generation: 1,
});

pub(crate) const AFTER: Opened = Ok(State {
    base: 0,
    floor: 0,
    head: 1,
    kept: 2,
    generation: 1,
});

const IN_SECOND: Opened = Ok(State {
    base: 0,
    floor: 0,
    head: 1,
    kept: 2,
    generation: 2,
});

// Damage at the gate of the first record, at that of the landing, and at the gate after it.
pub(crate) const AT_FIRST: Opened = Err(OpenFault::Damaged {
    side: Side::A,
    offset: 0,
});

pub(crate) const AT_LANDING: Opened = Err(OpenFault::Damaged {
    side: Side::A,
    offset: 100,
});

const AT_END: Opened = Err(OpenFault::Damaged {
    side: Side::A,
    offset: 222,
});

// What is done to side A, and what is found then.
type Case = (File, &'static [Edit], Opened);

const CASES: &[Case] = &[
    // gates that are closed: the first one, and that of the landing, whatever byte it is and whatever comes after it
    (LANDED, &[Edit::Set(0, 0)], BEFORE),
    (LANDED, &[Edit::Set(100, 0)], BEFORE),
    (LANDED, &[Edit::Cut(150), Edit::Set(100, 0)], BEFORE),
    (LANDED, &[Edit::Cut(150), Edit::Set(100, 0x5a)], BEFORE),
    // the last gate is open
    (LANDED, &[Edit::Set(222, 1)], AT_END),
    // the checkpoint: another kind, format 1, a longer payload, another generation, a node that is stale too late
    (LANDED, &[Edit::Set(1, 7)], AT_FIRST),
    (LANDED, &[Edit::Set(1, 4)], AFTER),
    (LANDED, &[Edit::Set(9, 0x5b)], AT_FIRST),
    (LANDED, &[Edit::Set(17, 2)], IN_SECOND),
    (LANDED, &[Edit::Set(99, 0xfe)], AT_FIRST),
    // the landing: another kind, another tag of the node, another value
    (LANDED, &[Edit::Set(101, 7)], AT_LANDING),
    (LANDED, &[Edit::Set(167, 7)], AT_LANDING),
    (LANDED, &[Edit::Set(204, 0x32)], AT_LANDING),
    // format 1, and a landing whose internal nodes are in format 2
    (TWO, &[Edit::Set(1, 4)], AT_LANDING),
    // a landing without a checkpoint, and a second checkpoint of either kind
    (&[LANDING, END], &[], AT_FIRST),
    (&[CHECKPOINT, CHECKPOINT, END], &[], AT_LANDING),
    (&[CHECKPOINT, CHECKPOINT_1, END], &[], AT_LANDING),
    // the same landing twice
    (&[CHECKPOINT, LANDING, LANDING, END], &[], AT_END),
];

fn make_edit(bytes: &mut Vec<u8>, edit: Edit) {
    match edit {
        Edit::Cut(length) => bytes.truncate(length),
        Edit::Set(place, byte) => {
            if let Some(cell) = bytes.get_mut(place) {
                *cell = byte;
            }
        }
    }
}

// The bytes of a file after edits.
pub(crate) fn edited_file(alloc: Global, file: &[&[u8]], edits: &[Edit]) -> Result<Vec<u8>, Fail> {
    let mut bytes = file_bytes(alloc, file)?;
    for one in edits {
        make_edit(&mut bytes, *one);
    }
    Ok(bytes)
}

// The numbers of the store of these bytes, or why it isn't opened.
pub(crate) fn opened_store<H: Threads + Sync>(
    rt: &H,
    alloc: Global,
    a: &[u8],
    b: &[u8],
) -> Result<Opened, Fail> {
    Ok(state_on(rt, alloc, disk_of(alloc, a, b, &[])?))
}

fn is_found<H: Threads + Sync>(rt: &H, alloc: Global, case: &Case) -> Result<bool, Fail> {
    let bytes = edited_file(alloc, case.0, case.1)?;
    Ok(opened_store(rt, alloc, &bytes, &[])? == case.2)
}

#[test]
fn damage_is_told_at_its_gate(rt: HostRuntime) -> Result<(), Fail> {
    for case in CASES {
        assert!(rt; is_found(&rt, rt.alloc(), case)?, "{case:?}");
    }
    Ok(())
}

// What is found if the file of one landing, which has 223 bytes, is cut to a length.
fn after_cut(length: usize) -> Opened {
    match length {
        0 | 1 => BEFORE,
        2..=100 => AT_FIRST,
        101..=222 => AT_LANDING,
        _ => AFTER,
    }
}

#[test]
fn a_file_that_ends_too_early_is_damaged(rt: HostRuntime) -> Result<(), Fail> {
    for length in 0..224 {
        let bytes = edited_file(rt.alloc(), LANDED, &[Edit::Cut(length)])?;
        assert!(rt;
            opened_store(&rt, rt.alloc(), &bytes, &[])? == after_cut(length),
            "{length}"
        );
    }
    Ok(())
}
