// A sink in memory, for tests: it can be made to fail at listed calls, and to take few bytes a call.
ghost use Rattle.std.specs.Prelude.{◌≡◌, ◌↔◌, ◌+◌, ◌-◌, ◌<◌, ◌≤◌, ◌^◌, [], ◌++◌, length, take, Some, IfOk, OnErr, IsErr, IsTrue, option_map};
ghost use Rattle.jf_path.specs.Faults.{HasCause};
ghost use Rattle.jf_io.specs.MemSink.{Output, FailsNextPut, next_put_amount, after_put, after_failed_put};

use crate::calls::Calls;
use crate::failed::IoFailed;
use crate::sink::Sink;
use jf_path::Memory;
use std::alloc::Global;
use std::marker::Model;

/// A sink that keeps its text in memory. A call takes at most a piece; it fails if it is listed or the room is used up.
#[derive(Debug, Drop)]
pub struct MemSink {
    text: Vec<u8>,
    room: u64,
    piece: usize,
    calls: Calls,
}

impl Model for MemSink {
    ghost use Rattle.std.specs.Prelude.{◌+◌, ◌<◌, ◌≤◌, vec_len, vec_capacity};
    ghost use Rattle.jf_io.specs.MemSink.{Output};

    ghost Value = { Output };

    ghost view = { λ s. record { text = s.text.items; room = s.room; piece = s.piece; calls = s.calls } };

    ghost invariant = { λ s. (vec_len s.text + s.room ≤ vec_capacity s.text) × (0 < s.piece) };
}

impl MemSink {
    /// A sink with an empty text, which has room for `room` bytes and takes at most `piece` of them a call. The calls
    /// to `put` whose numbers, from 0, are in `failing` fail. From call number `u64::MAX` on each call has that number.
    ///
    /// All memory is taken here. If there is too little, `failing` is dropped.
    pub fn new(alloc: Global, piece: usize, room: u64, failing: Vec<u64>) -> Result<MemSink, Memory>
        // The piece isn't 0.
        requires { 0 < piece }
        // After `Ok` the text is empty, room, piece and failing calls are as given, and both counts of calls are 0.
        ensures { IfOk result (λ s. s ≡ record { text = []; room = room; piece = piece; calls = record { made = 0; failing = failing.items; faults = 0 } }) }
    {
        Ok(MemSink {
            text: Vec::with_capacity(alloc, room as usize)?,
            room,
            piece,
            calls: Calls::new(failing),
        })
    }

    /// The text so far.
    pub fn text(&self) -> &[u8]
        // The slice holds the text of the sink.
        ensures { result.now ≡ self.now.text }
    {
        &self.text
    }

    // Whether the next call fails.
    fn is_next_failing(&self) -> bool
        ensures { IsTrue result ↔ FailsNextPut self.now }
    {
        self.calls.is_next_listed() || self.room == 0
    }
}

impl Sink for MemSink {
    ghost text = { λ s. Some s.text };

    ghost faults = { λ s. s.calls.faults };

    fn put(&mut self, bytes: &[u8]) -> Result<usize, IoFailed>
        // There is at least one byte to put.
        requires { 0 < length bytes.now }

        // What every sink does.
        ensures count { IfOk result (λ n. (0 < n) × (n ≤ length bytes.now)) }
        // After `Ok` of n the text is the old one followed by the first n of `bytes`.
        ensures text { IfOk result (λ n. Some self.new.text ≡ option_map (λ t. t ++ take n bytes.now) (Some self.old.text)) }
        // After an error the text is unchanged.
        ensures err { OnErr result (Some self.new.text ≡ Some self.old.text) }
        // The count of faults doesn't fall.
        ensures counts { self.old.calls.faults ≤ self.new.calls.faults }
        // After an error the count of faults rose, or stood at `u64::MAX` before.
        ensures cause { IsErr result → HasCause self.old.calls.faults self.new.calls.faults }

        // What this sink does.
        ensures fails { IsErr result ↔ FailsNextPut self.old }
        // After `Ok` the result is the least of the number of `bytes`, the piece and the room.
        ensures amount { IfOk result (λ n. n ≡ next_put_amount self.old bytes.now) }
        // After `Ok` of n, n bytes were appended, the room is n less, the call is counted, and all else is unchanged.
        ensures ok { IfOk result (λ n. self.new ≡ after_put self.old n bytes.now) }
        // After an error the call and the fault are counted, and all else is unchanged.
        ensures failed { OnErr result (self.new ≡ after_failed_put self.old) }
    {
        if self.is_next_failing() {
            return Err(self.calls.fail());
        }
        let count = bytes.len().min(self.piece.min(self.room as usize));
        // There is room for these bytes, so no memory is taken here and this can't fail.
        let _ = self.text.extend_from_slice(&bytes[..count]);
        self.room -= count as u64;
        self.calls.succeed();
        Ok(count)
    }

    fn faults(&self) -> u64 {
        self.calls.faults()
    }
}
