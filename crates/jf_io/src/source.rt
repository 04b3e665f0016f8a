// A source is where input comes from: a list of bytes that is given out in order.
ghost use Rattle.std.specs.Prelude.{◌≡◌, ℕ, ◌+◌, ◌-◌, ◌<◌, ◌≤◌, ◌^◌, List, [], ◌++◌, length, take, drop, Option, IfSome, IfOk, OnOk, OnErr, IsErr, option_map};
ghost use Rattle.jf_path.specs.Faults.{HasCause};

use crate::failed::IoFailed;

/// An input that is given out piece by piece.
pub trait Source {
    /// The bytes still to come, if the source's contract says what they are.
    ghost rest: { Self → Option (List ℕ) };

    /// The number of bytes given so far.
    ghost given: { Self → ℕ };

    /// The number of failed calls so far, which stays at `u64::MAX`.
    ghost faults: { Self → ℕ };

    /// Moves the next bytes of the input to the front of `buf`, and returns how many. 0 is the end of the input.
    ///
    /// A call on a source that has given `u64::MAX` bytes fails. After `IoFailed` the same bytes are still to come.
    /// A source whose bytes aren't known may then have written anything to `buf`; after `Ok` it may have written
    /// anything past the bytes given.
    fn take(&mut self, buf: &mut [u8]) -> Result<usize, IoFailed>
        // The buffer isn't empty.
        requires { 0 < length buf.old }

        // What a call that succeeds gives.
        ensures within { IfOk result (λ n. n ≤ length buf.old) }
        // After `Ok` the count of bytes given rose by the result.
        ensures given { IfOk result (λ n. given self.new ≡ given self.old + n) }
        // After `Ok` the count of bytes given is below 2^64.
        ensures bounded { OnOk result (given self.new < 2 ^ 64) }
        // After `Ok` of n the bytes to come, if known, are the former ones without their first n.
        ensures moved { IfOk result (λ n. rest self.new ≡ option_map (drop n) (rest self.old)) }
        // After `Ok` of n a known rest had at least n bytes; `buf` starts with its first n, unchanged past them.
        ensures bytes { IfSome (rest self.old) (λ all. IfOk result (λ n. (n ≤ length all) × (buf.new ≡ take n all ++ drop n buf.old))) }
        // After `Ok(0)` no byte was to come, if the rest was known.
        ensures end { IfSome (rest self.old) (λ all. IfOk result (λ n. n ≡ 0 → all ≡ [])) }

        // When a call fails, and what is unchanged then.
        ensures last { given self.old ≡ 2 ^ 64 - 1 → IsErr result }
        // After an error the bytes to come, if known, and the count of bytes given are unchanged.
        ensures err { OnErr result ((rest self.new ≡ rest self.old) × (given self.new ≡ given self.old)) }
        // After an error `buf` is unchanged, if the rest was known.
        ensures kept { IfSome (rest self.old) (λ _. OnErr result (buf.new ≡ buf.old)) }
        // The count of faults doesn't fall.
        ensures counts { faults self.old ≤ faults self.new }
        // After an error the count of faults rose, or stood at `u64::MAX` before.
        ensures cause { IsErr result → HasCause (faults self.old) (faults self.new) };

    /// The number of bytes given so far.
    fn taken_count(&self) -> u64
        // The result is the number of bytes given.
        ensures { result ≡ given self.now };

    /// The number of failed calls so far, which stays at `u64::MAX`.
    fn faults(&self) -> u64
        // The result is the count of failed calls.
        ensures { result ≡ faults self.now };
}
