// Input is taken from a source a piece at a time.
ghost use Rattle.std.specs.Prelude.{◌≡◌, ℕ, ◌+◌, ◌<◌, ◌≤◌, ◌^◌, List, [], ◌++◌, length, take, Some, Err, IfOk, OnOk, OnErr};
ghost use Rattle.jf_path.specs.Faults.{HasCause};

use crate::source::Source;

/// The bytes that one call asks a source for where more are of no use: what a pipe of Linux holds by default.
pub const USUAL_PIECE: usize = 65_536;

/// The most bytes that one call may ask a source for.
pub const MAX_PIECE: usize = 262_144;

/// Why no input was taken.
#[derive(Clone, Copy, Debug, PartialEq, Eq)]
pub enum FetchFault {
    /// The source failed in this call.
    ReadFault,
    /// Out of memory.
    Memory,
}

/// Appends input to `bytes`, at most `piece` bytes of it, and returns how many. 0 is the end of the input.
///
/// The source is asked once, unless memory is out.
pub fn append_piece<S: Source>(
    bytes: &mut Vec<u8>,
    source: &mut S,
    piece: usize,
) -> Result<usize, FetchFault>
    // The piece has 1 to `MAX_PIECE` bytes.
    requires { (1 ≤ piece) × (piece ≤ MAX_PIECE) }
    // The bytes held before are still at the front, unchanged.
    ensures front { take (length bytes.old.items) bytes.new.items ≡ bytes.old.items }
    // At most `piece` bytes are appended.
    ensures short { length bytes.new.items ≤ length bytes.old.items + piece }
    // After `Ok` the result is the number of bytes appended.
    ensures grown { IfOk result (λ n. length bytes.new.items ≡ length bytes.old.items + n) }
    // If the source's rest was known, it still is; `bytes` followed by the rest is the same list as before.
    ensures kept { (rest : List ℕ) → S.rest source.old ≡ Some rest → (left : List ℕ) × (S.rest source.new ≡ Some left) × (bytes.new.items ++ left ≡ bytes.old.items ++ rest) }
    // After an error the bytes held are unchanged.
    ensures err { OnErr result (bytes.new.items ≡ bytes.old.items) }
    // After `Ok(0)` the bytes held are unchanged, and a source whose rest is known has no byte to come.
    ensures end { IfOk result (λ n. n ≡ 0 → (bytes.new.items ≡ bytes.old.items) × ((left : List ℕ) → S.rest source.new ≡ Some left → left ≡ [])) }
    // After `Ok` the source's count of bytes given rose by the result.
    ensures given { IfOk result (λ n. S.given source.new ≡ S.given source.old + n) }
    // After `Ok` the source's count of bytes given is below 2^64.
    ensures bounded { OnOk result (S.given source.new < 2 ^ 64) }
    // After `ReadFault` the source's count of faults rose, or stood at `u64::MAX` before.
    ensures cause { result ≡ Err FetchFault.ReadFault → HasCause (S.faults source.old) (S.faults source.new) }
    // The source's count of faults doesn't fall.
    ensures counts { S.faults source.old ≤ S.faults source.new }
{
    let len = bytes.len();
    if bytes.resize(len + piece, 0).is_err() {
        return Err(FetchFault::Memory);
    }
    match source.take(&mut bytes[len..]) {
        Ok(count) => {
            bytes.truncate(len + count);
            Ok(count)
        }
        Err(_) => {
            bytes.truncate(len);
            Err(FetchFault::ReadFault)
        }
    }
}
