// Results stand in the order of their pieces, and the gate is called for each piece before it is worked.
use jf_join::{FreeGate, Gate, Workers, join_pieces};
use std::alloc::Global;
use std::sync::atomic::AtomicU64;
use std::sync::atomic::Ordering::SeqCst;
use std::test::Fail;
use std::thread::Threads;

// Counts how often it was called for each of four pieces.
#[derive(Drop)]
struct Counting {
    told: [AtomicU64; 4],
}

impl Counting {
    fn new() -> Counting {
        Counting {
            told: [
                AtomicU64::new(0),
                AtomicU64::new(0),
                AtomicU64::new(0),
                AtomicU64::new(0),
            ],
        }
    }

    fn times(&self, piece: u64) -> u64 {
        match self.told.get(piece as usize) {
            Some(times) => times.load(SeqCst),
            None => 0,
        }
    }
}

impl Gate for Counting {
    fn begin(&self, piece: u64) {
        if let Some(times) = self.told.get(piece as usize) {
            times.fetch_add(1, SeqCst);
        }
    }

    fn session(&self, _number: u64) {}
}

// So many workers, 1 to 64.
fn workers_of(number: u64) -> Result<Workers, Fail> {
    match Workers::new(number) {
        Some(workers) => Ok(workers),
        None => Err(Fail::new("no number of workers")),
    }
}

// The square of each piece, and how often the gate had been called for it by then.
fn squares<H: Threads + Sync>(
    rt: &H,
    alloc: Global,
    pieces: &[u64],
    workers: Workers,
) -> Result<Vec<(u64, u64)>, Fail> {
    let gate = Counting::new();
    let answers = join_pieces(
        rt,
        alloc,
        pieces,
        workers,
        &gate,
        &|piece: &u64| { (piece.wrapping_mul(*piece), gate.times(*piece)) },
    )?;
    Ok(answers)
}

// Whether the results for four pieces stand in their order.
fn keep_order<H: Threads + Sync>(rt: &H, alloc: Global, workers: u64) -> Result<bool, Fail> {
    let answers = squares(rt, alloc, &[0, 1, 2, 3], workers_of(workers)?)?;
    Ok(answers.as_slice() == [(0, 1), (1, 1), (4, 1), (9, 1)].as_slice())
}

#[test]
fn answers_keep_the_order_of_their_pieces(rt: HostRuntime) -> Result<(), Fail> {
    for workers in &[1, 3, 64] {
        assert!(rt; keep_order(&rt, rt.alloc(), *workers)?, "{workers} workers");
    }
    Ok(())
}

#[test]
fn no_piece_has_no_answer(rt: HostRuntime) -> Result<(), Fail> {
    assert!(rt; squares(&rt, rt.alloc(), &[], workers_of(4)?)?.is_empty());
    Ok(())
}

// The opposite of each piece, with a gate that holds nothing back.
fn opposites<H: Threads + Sync>(rt: &H, alloc: Global, pieces: &[bool]) -> Result<Vec<bool>, Fail> {
    FreeGate.session(7);
    let answers = join_pieces(
        rt,
        alloc,
        pieces,
        workers_of(2)?,
        &FreeGate,
        &|piece: &bool| !*piece,
    )?;
    Ok(answers)
}

#[test]
fn a_free_gate_lets_all_work_begin(rt: HostRuntime) -> Result<(), Fail> {
    let answers = opposites(&rt, rt.alloc(), &[true, false])?;
    assert!(rt; answers.as_slice() == [false, true].as_slice());
    Ok(())
}

// How often a piece looks for the other before it goes on alone.
const TURNS: u64 = 100_000_000;

// Holds each of two pieces back until the other has started too, and counts how many of them saw that.
#[derive(Drop)]
struct Meeting {
    begun: [AtomicU64; 2],
    met: AtomicU64,
}

impl Gate for Meeting {
    fn begin(&self, piece: u64) {
        if piece > 1 {
            return;
        }
        self.begun[piece as usize].store(1, SeqCst);
        for _ in 0..TURNS {
            if self.begun[1 - piece as usize].load(SeqCst) == 1 {
                self.met.fetch_add(1, SeqCst);
                return;
            }
        }
    }

    fn session(&self, _number: u64) {}
}

// How many of two pieces saw the other, if two workers work them.
fn meetings<H: Threads + Sync>(rt: &H, alloc: Global) -> Result<u64, Fail> {
    let gate = Meeting {
        begun: [AtomicU64::new(0), AtomicU64::new(0)],
        met: AtomicU64::new(0),
    };
    let answers = join_pieces(
        rt,
        alloc,
        &[5, 6],
        workers_of(2)?,
        &gate,
        &|piece: &u64| *piece,
    )?;
    if answers.as_slice() != [5, 6].as_slice() {
        return Err(Fail::new("other answers"));
    }
    Ok(gate.met.load(SeqCst))
}

#[test]
fn two_pieces_are_in_flight_at_once(rt: HostRuntime) -> Result<(), Fail> {
    assert!(rt; meetings(&rt, rt.alloc())? == 2);
    Ok(())
}
