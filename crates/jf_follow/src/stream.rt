// The landing blocks of an input, followed by a store.
ghost use Rattle.std.specs.Prelude.{◌≡◌, ◌≢◌, ◌⊎◌, ◌≤◌, false, IfOk, [], ◌∷◌, codes, decimal};
ghost use Rattle.hex.specs.Hex.{encode_lower};
ghost use Rattle.jf_text.specs.Words.{line_text};
ghost use Rattle.jf_path.specs.Faults.{HasCause};
ghost use Rattle.jf_follow.specs.Lines.{follow_state, DoesLandingLine, EndsFed};
ghost use Rattle.jf_follow.specs.Streams.{HasFollowed, EndsFollowing};

use crate::followed::{FollowRefused, Followed};
use crate::follower::Follower;
use crate::following::{FollowStop, Following, LineFollower, follow_line};
use jf_disk::Disk;
use jf_engine::Engine;
use jf_hash::Hash;
use jf_input::{Feeding, feed};
use jf_io::{Nowhere, Sink, Source, USUAL_PIECE, put_all};
use jf_join::{Gate, Workers};
use jf_lead::{LandingFault, LandingReader};
use jf_model::Ledger;
use jf_path::{Bytes, Memory};
use jf_text::{write_hex, write_number};
use std::alloc::Global;
use std::thread::Threads;

/// What the following of an input hands back: the store, the entries of its landings, and how it ended.
#[derive(Drop)]
pub struct FollowedInput<D: Disk> {
    pub engine: Engine<D>,
    pub entries: Ledger,
    pub how: Followed,
}

/// Follows the landing blocks of a source (docs/FORMATS.md, "Landing blocks"), and at the end of the input writes into a sink
/// the line that reports what the store has reached: `followed HEAD ROOT`.
///
/// Input is taken in pieces of at most 65,536 bytes, and only while no whole line is at hand. A block is taken at its last
/// line, before the source is asked for more: so if the source fails then, the store has each block whose last line was taken.
/// The landings are entries of owner 0, each with the moment of the disk at which it was acknowledged. `Follower::take` says
/// what effect each block has on the store; the first one that it refuses ends the following:
///
/// - `Refused(Line)`, `Refused(Block)`: a line doesn't match or is missing at the end of the input, or a block is refused.
///   The blocks before it were followed, and every image of the disk still represents the versions that they lead to. Fewer
///   than 65,536 bytes after the line that decides it were taken.
/// - `ReadFault`, `Memory`: the blocks up to there were followed.
/// - `DiskFault`: the disk failed in a landing; those before it stand. The store is broken, and after no other end.
/// - `WriteFault`: all blocks were followed, and the sink has a front of the line.
///
/// With each end but `Done` and `WriteFault` the sink is unchanged, its count of faults too.
pub fn follow_stream<S: Source, K: Sink, D: Disk, H: Threads + Sync, G: Gate>(
    rt: &H,
    alloc: Global,
    engine: Engine<D>,
    source: &mut S,
    sink: &mut K,
    workers: Workers,
    gate: &G,
) -> FollowedInput<D>
    // The store takes changes.
    requires whole { engine.broken ≡ false }
    // What the store holds, what was taken of the input, and what was written, by how it ended.
    ensures followed { HasFollowed result.how engine result.engine result.entries (S.rest source.old) (S.rest source.new) (K.text sink.old) (K.text sink.new) }
    // It returns a fault of the source only if the source counted one.
    ensures read { result.how ≡ Followed.ReadFault → HasCause (S.faults source.old) (S.faults source.new) }
    // It returns a fault of the sink only if the sink counted one.
    ensures write { result.how ≡ Followed.WriteFault → HasCause (K.faults sink.old) (K.faults sink.new) }
    // Nothing is written before the end of the input.
    ensures silent { result.how ≢ Followed.Done → result.how ≢ Followed.WriteFault → sink.new ≡ sink.old }
    // Only a fault of the disk breaks the store.
    ensures whole { (result.how ≡ Followed.DiskFault) ⊎ (result.engine.broken ≡ false) }
    // The source's count of faults doesn't fall.
    ensures source_counts { S.faults source.old ≤ S.faults source.new }
    // The sink's count of faults doesn't fall.
    ensures sink_counts { K.faults sink.old ≤ K.faults sink.new }
{
    let following = Following {
        reader: LandingReader::new(alloc),
        follower: Follower::new(engine),
        entries: Vec::new(alloc),
    };
    let step = |following: &mut Following<D>, line: &[u8]| -> Result<(), FollowStop>
        // The store is whole.
        requires { following.old.follower.broken ≡ false }
        // The line is done, and if that returns Ok, the store is whole.
        ensures { DoesLandingLine (follow_state following.old.reader following.old.follower following.old.entries.items) line.now result (follow_state following.new.reader following.new.follower following.new.entries.items) }
    { follow_line(rt, alloc, following, line, workers, gate) };
    let mut machine = LineFollower { following, step };
    let mut nowhere = Nowhere;
    let fed = feed(alloc, &mut machine, source, &mut nowhere, USUAL_PIECE);
    let LineFollower { following, step: _ } = machine;
    let how = how_ended(alloc, fed, &following, sink);
    let Following {
        reader: _,
        follower,
        entries,
    } = following;
    FollowedInput {
        engine: follower.into_engine(),
        entries: Ledger::of(entries),
        how,
    }
}

/// How the following of an input ended, by how it was fed.
fn how_ended<K: Sink, D: Disk>(
    alloc: Global,
    fed: Feeding<FollowStop>,
    following: &Following<D>,
    sink: &mut K,
) -> Followed
    requires unstopped { fed ≢ Feeding.WriteFault }
    ensures ended { EndsFed fed result following.now.reader following.now.follower.versions (K.text sink.old) (K.text sink.new) }
    ensures read_cause { result ≡ Followed.ReadFault → fed ≡ Feeding.ReadFault }
    ensures cause { result ≡ Followed.WriteFault → HasCause (K.faults sink.old) (K.faults sink.new) }
    ensures silent { result ≢ Followed.Done → result ≢ Followed.WriteFault → sink.new ≡ sink.old }
    ensures counts { K.faults sink.old ≤ K.faults sink.new }
{
    match fed {
        Feeding::Done => tell_end(alloc, following, sink),
        Feeding::ReadFault => Followed::ReadFault,
        Feeding::Memory => Followed::Memory,
        Feeding::WriteFault => unreachable!(),
        Feeding::Stopped(FollowStop::Refused(why)) => Followed::Refused(why),
        Feeding::Stopped(FollowStop::DiskFault) => Followed::DiskFault,
        Feeding::Stopped(FollowStop::Memory) => Followed::Memory,
    }
}

/// Ends the input: refuses the line that is missing, if it ends in the middle of a block; otherwise writes the line that tells
/// what the store has reached.
fn tell_end<K: Sink, D: Disk>(alloc: Global, following: &Following<D>, sink: &mut K) -> Followed
    ensures written { EndsFollowing result following.now.reader following.now.follower.versions (K.text sink.old) (K.text sink.new) }
    ensures cause { result ≡ Followed.WriteFault → HasCause (K.faults sink.old) (K.faults sink.new) }
    ensures unstopped { (result ≡ Followed.ReadFault → ⊥) × (result ≡ Followed.DiskFault → ⊥) }
    ensures silent { result ≢ Followed.Done → result ≢ Followed.WriteFault → sink.new ≡ sink.old }
    ensures counts { K.faults sink.old ≤ K.faults sink.new }
{
    match following.reader.end() {
        Ok(()) => {}
        Err(LandingFault::Line(at)) => return Followed::Refused(FollowRefused::Line(at)),
        Err(LandingFault::Memory) => return Followed::Memory,
    }
    let engine = following.follower.engine();
    engine.know();
    let head = engine.state().head;
    let Some(root) = engine.root_of(head) else {
        unreachable!()
    };
    let Ok(line) = followed_line(alloc, head, &root) else {
        return Followed::Memory;
    };
    match put_all(sink, line.as_slice()) {
        Ok(()) => Followed::Done,
        Err(_) => Followed::WriteFault,
    }
}

/// The line that reports what a follower has reached: its head, and the root of that version.
fn followed_line(alloc: Global, head: u64, root: &Hash) -> Result<Bytes, Memory>
    ensures { IfOk result (λ line. line ≡ line_text (codes "followed" ∷ decimal head ∷ encode_lower root.now ∷ [])) }
{
    let mut line = Bytes::new(alloc);
    write_number(b"followed ", head, &mut line)?;
    write_hex(b" ", root, &mut line)?;
    line.push(b'\n')?;
    Ok(line)
}
