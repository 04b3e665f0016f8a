// Chunk blocks, read from a source to its end.
ghost use Rattle.std.specs.Prelude.{◌≡◌, ℕ, ◌-◌, ◌<◌, ◌≤◌, ◌^◌, List, Option, Err, IfOk, IfErr};
ghost use Rattle.jf_path.specs.Faults.{HasCause};
ghost use Rattle.jf_engine.specs.Engines.{Engine};
ghost use Rattle.jf_restore.specs.Finishes.{IsNewStore};
ghost use Rattle.jf_receive.specs.Receives.{HasReceived};
ghost use Rattle.jf_receive.specs.TakenLines.{ComesToEntries, refused_lines};

use crate::block_reader::BlockReader;
use crate::fault::BlockFault;
use crate::laws::{chunks_come_line_by_line, refusals_come_at_their_line, refusals_stay};
use crate::received::{Received, RestoreFault};
use jf_hash::Hash;
use jf_input::{Feeding, feed};
use jf_io::{Nowhere, Source};
use jf_restore::Restore;
use std::alloc::Global;

// The most bytes that the source is asked for at a time.
const PIECE: usize = 4_096;

/// Reads chunk blocks for a version whose root was announced, line by line, and returns what they restore. It stops at the
/// first line that is refused, or at whose end a block is.
pub(crate) fn read_blocks<S: Source>(
    alloc: Global,
    version: u64,
    root: Hash,
    source: &mut S,
) -> Result<Restore, Received>
    requires { version ≤ 2 ^ 64 - 2 }
    ensures ok { IfOk result (λ r. (r.version ≡ version) × (r.root ≡ root) × ComesToEntries root r.entries (S.rest source.old) (S.rest source.new)) }
    ensures err { IfErr result (λ how. (e : Engine) (text : Option (List ℕ)) → IsNewStore e.versions → HasReceived how version root e e (S.rest source.old) (S.rest source.new) text text) }
    ensures cause { result ≡ Err Received.ReadFault → HasCause (S.faults source.old) (S.faults source.new) }
    ensures unstopped { result ≡ Err Received.WriteFault → ⊥ }
    ensures counts { S.faults source.old ≤ S.faults source.new }
{
    chunks_come_line_by_line();
    refusals_come_at_their_line();
    refusals_stay();
    let mut reader = BlockReader::new(alloc, Restore::new(alloc, version, root));
    let mut nowhere = Nowhere;
    match feed(alloc, &mut reader, source, &mut nowhere, PIECE) {
        Feeding::Done => match reader.end() {
            Ok(restore) => Ok(restore),
            Err(why) => Err(refused_lines(why)),
        },
        Feeding::ReadFault => Err(Received::ReadFault),
        Feeding::WriteFault => unreachable!(),
        Feeding::Memory => Err(Received::Memory),
        Feeding::Stopped(why) => Err(refused_lines(why)),
    }
}

/// How a restore ends whose lines are refused.
fn refused_lines(why: BlockFault) -> Received
    ensures { result ≡ refused_lines why }
{
    match why {
        BlockFault::Line(at) => Received::Refused(RestoreFault::Line(at)),
        BlockFault::Chunk(at, why) => Received::Refused(RestoreFault::Chunk(at, why)),
        BlockFault::Memory => Received::Memory,
    }
}
