// An input is read to its end.
ghost use Rattle.std.specs.Prelude.{◌≡◌, ℕ, ◌<◌, ◌≤◌, List, [], length, Some, Err, IfOk};
ghost use Rattle.jf_path.specs.Faults.{HasCause};
ghost use Rattle.jf_serve.specs.SessionScripts.{max_input};

use crate::reading::{InputFault, MAX_INPUT};
use jf_io::{Source, USUAL_PIECE, append_piece};
use std::alloc::Global;

/// The bytes of an input. They are taken in pieces of at most `USUAL_PIECE` bytes, until the input ends or more than
/// `MAX_INPUT` bytes were taken.
pub(crate) fn read_to_end<S: Source>(alloc: Global, source: &mut S) -> Result<Vec<u8>, InputFault>
    ensures small { IfOk result (λ bytes. length bytes.items ≤ max_input) }
    ensures ok { IfOk result (λ bytes. (input : List ℕ) → S.rest source.old ≡ Some input → (S.rest source.new ≡ Some []) × (bytes.items ≡ input)) }
    ensures full { result ≡ Err InputFault.Full → (input : List ℕ) → S.rest source.old ≡ Some input → max_input < length input }
    ensures cause { result ≡ Err InputFault.ReadFault → HasCause (S.faults source.old) (S.faults source.new) }
    ensures counts { S.faults source.old ≤ S.faults source.new }
{
    let mut bytes = Vec::new(alloc);
    while append_piece(&mut bytes, source, USUAL_PIECE)? > 0 {
        if bytes.len() as u64 > MAX_INPUT {
            return Err(InputFault::Full);
        }
    }
    Ok(bytes)
}
