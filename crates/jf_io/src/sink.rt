// A sink is where output goes: a text that grows by the bytes that it takes.
ghost use Rattle.std.specs.Prelude.{◌≡◌, ℕ, ◌-◌, ◌<◌, ◌≤◌, ◌^◌, List, [], ◌++◌, length, take, Option, IfOk, OnOk, OnErr, IsOk, IsErr, option_map};
ghost use Rattle.jf_path.specs.Faults.{HasCause};
ghost use Rattle.jf_io.specs.Sink.{IsCutShort};

use crate::failed::IoFailed;

/// A text that takes bytes piece by piece.
pub trait Sink {
    /// The text so far, if the sink's contract says what it is.
    ghost text: { Self → Option (List ℕ) };

    /// The number of failed calls so far, which stays at `u64::MAX`.
    ghost faults: { Self → ℕ };

    /// Appends a front of `bytes` to the text, and returns its number of bytes, at least 1.
    ///
    /// After `IoFailed` a text that is known is unchanged; any other sink may have taken some or all of the bytes.
    fn put(&mut self, bytes: &[u8]) -> Result<usize, IoFailed>
        // There is at least one byte to put.
        requires { 0 < length bytes.now }
        // After `Ok` the result is at least 1 and at most the number of `bytes`.
        ensures count { IfOk result (λ n. (0 < n) × (n ≤ length bytes.now)) }
        // After `Ok` of n the text, if known, is the old one followed by the first n of `bytes`.
        ensures text { IfOk result (λ n. text self.new ≡ option_map (λ t. t ++ take n bytes.now) (text self.old)) }
        // After an error the text, if known, is unchanged.
        ensures err { OnErr result (text self.new ≡ text self.old) }
        // The count of faults doesn't fall.
        ensures counts { faults self.old ≤ faults self.new }
        // After an error the count of faults rose, or stood at `u64::MAX` before.
        ensures cause { IsErr result → HasCause (faults self.old) (faults self.new) };

    /// The number of failed calls so far, which stays at `u64::MAX`.
    fn faults(&self) -> u64
        // The result is the count of failed calls.
        ensures { result ≡ faults self.now };
}

/// Puts all of `bytes` into the sink, in as many calls of `put` as it takes. If there are no bytes, no call is made.
///
/// After `IoFailed` a front of `bytes` was appended, but not all of them.
pub fn put_all<K: Sink>(sink: &mut K, bytes: &[u8]) -> Result<(), IoFailed>
    // After `Ok` the text, if known, is the old one followed by all of `bytes`.
    ensures ok { OnOk result (K.text sink.new ≡ option_map (λ t. t ++ bytes.now) (K.text sink.old)) }
    // After an error the text, if known, is the old one followed by a front of `bytes`, but not all of them.
    ensures cut_short { OnErr result (IsCutShort (K.text sink.old) (K.text sink.new) bytes.now) }
    // If there are no bytes, the result is `Ok` and the sink is unchanged.
    ensures empty { bytes.now ≡ [] → IsOk result × (sink.new ≡ sink.old) }
    // The count of faults doesn't fall.
    ensures counts { K.faults sink.old ≤ K.faults sink.new }
    // After an error the count of faults rose, or stood at `u64::MAX` before.
    ensures cause { IsErr result → HasCause (K.faults sink.old) (K.faults sink.new) }
{
    let mut done = 0;
    while done < bytes.len() {
        done += sink.put(&bytes[done..])?;
    }
    Ok(())
}
