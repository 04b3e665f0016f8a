// How many threads may work at once.
ghost use Rattle.std.specs.Prelude.{◌≡◌, ◌+◌, ◌/◌, ◌<◌, ◌≤◌, ◌↔◌, IfSome, IsSome, IsTrue};
ghost use Rattle.jf_path.specs.Limits.{max_workers};

use jf_path::MAX_WORKERS;
use std::marker::Model;

/// How many threads may work at once: 1 to 64.
#[derive(Clone, Copy, Debug, PartialEq, Eq)]
pub struct Workers {
    number: u64,
}

impl Model for Workers {
    ghost use Rattle.std.specs.Prelude.{ℕ, ◌≤◌};
    ghost use Rattle.jf_path.specs.Limits.{max_workers};

    ghost Value = { ℕ };

    ghost view = { λ w. w.number };

    ghost invariant = { λ w. (1 ≤ w.number) × (w.number ≤ max_workers) };

    ghost inverse = { λ n. record { number = n } };
}

impl Workers {
    /// One thread, the caller's own.
    pub const ONE: Workers = Workers { number: 1 };

    /// So many threads, or `None` if that is none or more than 64.
    pub fn new(number: u64) -> Option<Workers>
        // If the result is `Some`, it is so many threads.
        ensures value { IfSome result (λ w. w ≡ number) }
        // The result is `Some` exactly if the number is from 1 to 64.
        ensures given { IsSome result ↔ ((1 ≤ number) × (number ≤ max_workers)) }
    {
        if 1 <= number && number <= MAX_WORKERS {
            Some(Workers { number })
        } else {
            None
        }
    }

    /// Their number.
    pub fn get(self) -> u64
        // The result is the number of threads.
        ensures value { result ≡ self }
        // The result is from 1 to 64.
        ensures bounded { (1 ≤ result) × (result ≤ max_workers) }
    {
        self.number
    }

    /// Whether there is one thread alone, the caller's own.
    pub fn is_one(self) -> bool
        // The result is true exactly if the number of threads is 1.
        ensures { IsTrue result ↔ (self ≡ 1) }
    {
        self.number == 1
    }

    /// The halves of several threads, of which the first is smaller by one if their number is odd; of one thread `None`.
    pub fn halves(self) -> Option<(Workers, Workers)>
        // Of several threads, the first part is half their number, rounded down.
        ensures first { IfSome result (λ w. w.0 ≡ self / 2) }
        // Of several threads, both parts together are as many.
        ensures sum { IfSome result (λ w. w.0 + w.1 ≡ self) }
        // Of several threads, each part is at least one.
        ensures positive { IfSome result (λ w. (1 ≤ w.0) × (1 ≤ w.1)) }
        // The result is `Some` exactly if there are more threads than one.
        ensures given { IsSome result ↔ (1 < self) }
    {
        if self.number == 1 {
            return None;
        }
        let first = self.number / 2;
        let second = self.number - first;
        Some((Workers { number: first }, Workers { number: second }))
    }

    /// Changes nothing, and tells what holds of every such number, for proofs.
    pub fn know(self)
        // The number is from 1 to 64.
        ensures { (1 ≤ self) × (self ≤ max_workers) }
    {
        let _ = self.number;
    }
}
