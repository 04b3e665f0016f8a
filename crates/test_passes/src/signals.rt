// What two threads tell each other about a landing.
use jf_join::Gate;
use std::sync::atomic::{AtomicU64, Ordering};
use std::thread::yield_now;

// How often a thread looks for a sign of the other before it goes on without.
const TURNS: u64 = 1_000_000;

// Whether a landing has started, and whether the other pass has looked since.
#[derive(Drop)]
pub(crate) struct Signals {
    begun: AtomicU64,
    looked: AtomicU64,
}

impl Signals {
    pub(crate) fn new() -> Signals {
        Signals {
            begun: AtomicU64::new(0),
            looked: AtomicU64::new(0),
        }
    }

    // Whether a landing has started, after a while.
    pub(crate) fn has_begun(&self) -> bool {
        is_given(&self.begun)
    }

    // Says that the other pass has looked.
    pub(crate) fn tell_look(&self) {
        self.looked.store(1, Ordering::SeqCst);
    }

    // Whether the other pass has looked.
    pub(crate) fn has_looked(&self) -> bool {
        self.looked.load(Ordering::SeqCst) == 1
    }
}

// As a gate, they hold a landing until the other pass has looked.
impl Gate for Signals {
    fn begin(&self, _piece: u64) {
        self.begun.store(1, Ordering::SeqCst);
        let _ = is_given(&self.looked);
    }

    fn session(&self, _number: u64) {}
}

// Whether a sign is given, after a while.
fn is_given(sign: &AtomicU64) -> bool {
    for _ in 0..TURNS {
        if sign.load(Ordering::SeqCst) == 1 {
            return true;
        }
        yield_now();
    }
    false
}
