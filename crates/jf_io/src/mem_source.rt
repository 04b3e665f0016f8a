// A source in memory, for tests: it can be made to fail at listed calls, and to give few bytes a call.
ghost use Rattle.std.specs.Prelude.{◌≡◌, ◌↔◌, ◌+◌, ◌-◌, ◌<◌, ◌≤◌, ◌^◌, [], ◌++◌, length, take, drop, Some, IfSome, IfOk, OnOk, OnErr, IsErr, IsTrue, option_map};
ghost use Rattle.jf_path.specs.Faults.{HasCause};
ghost use Rattle.jf_io.specs.MemSource.{Input, FailsNextTake, next_take_amount, after_take, after_failed_take};

use crate::calls::Calls;
use crate::failed::IoFailed;
use crate::source::Source;
use jf_path::Bytes;
use std::marker::Model;

/// A source that gives bytes from memory, at most a piece a call, and fails at listed calls.
#[derive(Debug, Drop)]
pub struct MemSource {
    bytes: Bytes,
    given: usize,
    piece: usize,
    calls: Calls,
}

impl Model for MemSource {
    ghost use Rattle.std.specs.Prelude.{◌<◌, ◌≤◌, length, drop};
    ghost use Rattle.jf_io.specs.MemSource.{Input};

    ghost Value = { Input };

    ghost view = { λ s. record { rest = drop s.given s.bytes; given = s.given; piece = s.piece; calls = s.calls } };

    ghost invariant = { λ s. (s.given ≤ length s.bytes) × (0 < s.piece) };
}

impl MemSource {
    /// A source of `bytes` that gives at most `piece` of them a call. The calls to `take` whose numbers, from 0, are in
    /// `failing` fail. From call number `u64::MAX` on each call has that number.
    pub fn new(bytes: Bytes, piece: usize, failing: Vec<u64>) -> MemSource
        // The piece isn't 0.
        requires { 0 < piece }
        // All of `bytes` is to come, piece and failing calls are as given, and all counts are 0.
        ensures { result ≡ record { rest = bytes; given = 0; piece = piece; calls = record { made = 0; failing = failing.items; faults = 0 } } }
    {
        MemSource {
            bytes,
            given: 0,
            piece,
            calls: Calls::new(failing),
        }
    }

    // Whether the next call fails.
    fn is_next_failing(&self) -> bool
        ensures { IsTrue result ↔ FailsNextTake self.now }
    {
        self.calls.is_next_listed() || self.given as u64 == u64::MAX
    }
}

impl Source for MemSource {
    ghost rest = { λ s. Some s.rest };

    ghost given = { λ s. s.given };

    ghost faults = { λ s. s.calls.faults };

    fn take(&mut self, buf: &mut [u8]) -> Result<usize, IoFailed>
        // The buffer isn't empty.
        requires { 0 < length buf.old }

        // What every source does.
        ensures within { IfOk result (λ n. n ≤ length buf.old) }
        // After `Ok` the count of bytes given rose by the result.
        ensures given { IfOk result (λ n. self.new.given ≡ self.old.given + n) }
        // After `Ok` the count of bytes given is below 2^64.
        ensures bounded { OnOk result (self.new.given < 2 ^ 64) }
        // After `Ok` of n the bytes to come are the former ones without their first n.
        ensures moved { IfOk result (λ n. Some self.new.rest ≡ option_map (drop n) (Some self.old.rest)) }
        // After `Ok` of n at least n bytes were to come; `buf` starts with their first n, and is unchanged past these.
        ensures bytes { IfSome (Some self.old.rest) (λ all. IfOk result (λ n. (n ≤ length all) × (buf.new ≡ take n all ++ drop n buf.old))) }
        // After `Ok(0)` no byte was to come.
        ensures end { IfSome (Some self.old.rest) (λ all. IfOk result (λ n. n ≡ 0 → all ≡ [])) }
        // A source that has given 2^64 - 1 bytes returns an error.
        ensures last { self.old.given ≡ 2 ^ 64 - 1 → IsErr result }
        // After an error the bytes to come and the count of bytes given are unchanged.
        ensures err { OnErr result ((Some self.new.rest ≡ Some self.old.rest) × (self.new.given ≡ self.old.given)) }
        // After an error `buf` is unchanged.
        ensures kept { IfSome (Some self.old.rest) (λ _. OnErr result (buf.new ≡ buf.old)) }
        // The count of faults doesn't fall.
        ensures counts { self.old.calls.faults ≤ self.new.calls.faults }
        // After an error the count of faults rose, or stood at `u64::MAX` before.
        ensures cause { IsErr result → HasCause self.old.calls.faults self.new.calls.faults }

        // What this source does.
        ensures fails { IsErr result ↔ FailsNextTake self.old }
        // After `Ok` the result is the least of the number of bytes to come, the length of `buf` and the piece.
        ensures amount { IfOk result (λ n. n ≡ next_take_amount self.old (length buf.old)) }
        // After `Ok` of n the first n bytes to come are gone; they and the call are counted; all else is unchanged.
        ensures ok { IfOk result (λ n. self.new ≡ after_take self.old n) }
        // After an error the call and the fault are counted, and all else is unchanged.
        ensures failed { OnErr result (self.new ≡ after_failed_take self.old) }
    {
        if self.is_next_failing() {
            return Err(self.calls.fail());
        }
        let rest = &self.bytes.as_slice()[self.given..];
        let count = rest.len().min(buf.len().min(self.piece));
        buf[..count].copy_from_slice(&rest[..count]);
        self.given += count;
        self.calls.succeed();
        Ok(count)
    }

    fn taken_count(&self) -> u64 {
        self.given as u64
    }

    fn faults(&self) -> u64 {
        self.calls.faults()
    }
}
