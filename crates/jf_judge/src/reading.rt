// A reply is read from a source.
ghost use Rattle.std.specs.Prelude.{◌≡◌, ◌≤◌, ℕ, List, Err, IfOk};
ghost use Rattle.jf_path.specs.Faults.{HasCause};
ghost use Rattle.jf_judge.specs.JudgedReplies.{HasTaken, TakesReply};

use jf_io::{FetchFault, Source, USUAL_PIECE, append_piece};
use std::alloc::Global;

/// The most bytes of a proof block: 260 lines of 8,500 bytes, each with its line feed.
pub const MAX_REPLY: usize = 2_210_260;

/// The bytes of a source, taken in pieces of at most `USUAL_PIECE` bytes until the source ends or more than `MAX_REPLY` bytes
/// were taken.
pub(crate) fn take_reply<S: Source>(alloc: Global, source: &mut S) -> Result<Vec<u8>, FetchFault>
    ensures ok { IfOk result (λ bytes. TakesReply (S.rest source.old) (S.rest source.new) bytes.items) }
    ensures front { (taken : List ℕ) × HasTaken (S.rest source.old) (S.rest source.new) taken }
    ensures cause { result ≡ Err FetchFault.ReadFault → HasCause (S.faults source.old) (S.faults source.new) }
    ensures counts { S.faults source.old ≤ S.faults source.new }
{
    let mut bytes = Vec::new(alloc);
    while append_piece(&mut bytes, source, USUAL_PIECE)? > 0 {
        if bytes.len() > MAX_REPLY {
            break;
        }
    }
    Ok(bytes)
}
