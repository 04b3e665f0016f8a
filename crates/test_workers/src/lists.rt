// The lists of a landing by several workers: what is listed below one nibble of the top is a piece of work of its own, and
// two such pieces are in flight at once.
use crate::by_workers::{BEFORE, LISTS, Put, TWO, batch_of, next, version_of};
use jf_join::Gate;
use std::alloc::Global;
use std::sync::atomic::AtomicU64;
use std::sync::atomic::Ordering::SeqCst;
use std::test::Fail;
use std::thread::Threads;

// The pieces of the nibbles with which the two keys begin.
const LOW: u64 = LISTS + 0x1;

const HIGH: u64 = LISTS + 0xa;

// How often a piece looks for the other before it goes on alone.
const TURNS: u64 = 100_000_000;

// Holds each of the two pieces back until the other has started too, and counts how many of them saw that.
#[derive(Drop)]
struct Meeting {
    low: AtomicU64,
    high: AtomicU64,
    met: AtomicU64,
}

impl Meeting {
    fn new() -> Meeting {
        Meeting {
            low: AtomicU64::new(0),
            high: AtomicU64::new(0),
            met: AtomicU64::new(0),
        }
    }

    fn meet(&self, own: &AtomicU64, other: &AtomicU64) {
        own.store(1, SeqCst);
        for _ in 0..TURNS {
            if other.load(SeqCst) == 1 {
                self.met.fetch_add(1, SeqCst);
                return;
            }
        }
    }
}

impl Gate for Meeting {
    fn begin(&self, piece: u64) {
        if piece == LOW {
            self.meet(&self.low, &self.high);
        } else if piece == HIGH {
            self.meet(&self.high, &self.low);
        }
    }

    fn session(&self, _number: u64) {}
}

// How many of the two pieces saw the other, if two workers land the two keys on a version with these entries.
fn meetings<H: Threads + Sync>(rt: &H, alloc: Global, before: &[Put]) -> Result<u64, Fail> {
    let gate = Meeting::new();
    let head = version_of(rt, alloc, before)?;
    let batch = batch_of(alloc, TWO)?;
    let landed = next(rt, alloc, &head, &batch, 2, &gate)?;
    if landed.fresh.as_slice().is_empty() {
        return Err(Fail::new("nothing was listed"));
    }
    Ok(gate.met.load(SeqCst))
}

// Over how many of these versions both pieces meet before the first over which they don't.
fn both_meet<H: Threads + Sync>(rt: &H, alloc: Global) -> Result<usize, Fail> {
    for (i, before) in BEFORE.iter().enumerate() {
        if meetings(rt, alloc, before)? != 2 {
            return Ok(i);
        }
    }
    Ok(BEFORE.len())
}

#[test]
fn two_pieces_of_the_lists_meet(rt: HostRuntime) -> Result<(), Fail> {
    assert!(rt; both_meet(&rt, rt.alloc())? == 4);
    Ok(())
}
