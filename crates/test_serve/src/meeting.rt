// Two sessions are in flight at once.
use crate::serving::serve_gated;
use jf_join::Gate;
use jf_play::play::new_disk;
use std::alloc::Global;
use std::sync::Wait;
use std::sync::atomic::AtomicU64;
use std::sync::atomic::Ordering::SeqCst;
use std::test::Fail;
use std::thread::Threads;

// How often a session looks for the other before it goes on alone.
const TURNS: u64 = 100_000_000;

// The set of both sessions: bit n is set for session n.
const BOTH: u64 = 0b11;

// Holds each of two sessions back until the other has started too, and counts how many of them saw that. So it counts two
// exactly if both were in flight at once.
#[derive(Drop)]
struct Meeting {
    begun: AtomicU64,
    met: AtomicU64,
}

impl Gate for Meeting {
    fn begin(&self, _piece: u64) {}

    fn session(&self, number: u64) {
        let own = match number {
            0 => 0b01,
            1 => 0b10,
            _ => 0,
        };
        self.begun.fetch_or(own, SeqCst);
        for _ in 0..TURNS {
            if self.begun.load(SeqCst) == BOTH {
                self.met.fetch_add(1, SeqCst);
                return;
            }
        }
    }
}

// Fails unless each of two sessions saw that the other had started.
fn meet<H: Threads + Wait + Sync>(rt: &H, alloc: Global) -> Result<(), Fail> {
    let gate = Meeting {
        begun: AtomicU64::new(0),
        met: AtomicU64::new(0),
    };
    let disk = new_disk(alloc, b"", &[])?;
    let _ = serve_gated(rt, alloc, disk, b"session\nsession\n", &gate)?;
    match gate.met.load(SeqCst) {
        2 => Ok(()),
        met => Err(Fail::new(met)),
    }
}

#[test]
fn two_sessions_meet(rt: HostRuntime) -> Result<(), Fail> {
    meet(&rt, rt.alloc())
}
