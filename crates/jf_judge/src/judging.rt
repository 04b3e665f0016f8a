// The mode `judge` over devices: a reply to `prove` from a source, and what it shows of a name into a sink.
ghost use Rattle.std.specs.Prelude.{◌≡◌, ◌≢◌, ◌⊎◌, ◌≤◌, IfSome};
ghost use Rattle.jf_path.specs.Faults.{HasCause};
ghost use Rattle.jf_ask.specs.Lookups.{lookup_of};
ghost use Rattle.jf_judge.specs.JudgedReplies.{HasJudgedReply, WritesLookup};

use crate::reading::take_reply;
use crate::verdict::lookup_line;
use jf_ask::{Lookup, LookupFault, honest_blocks_are_believed, look_up};
use jf_hash::Hash;
use jf_io::{FetchFault, IoFailed, Sink, Source, put_all};
use std::alloc::Global;

/// How the judging of a reply ended.
#[derive(Clone, Copy, Debug, PartialEq, Eq)]
pub enum Judged {
    /// The reply shows a value of the name, or its absence, and the line that says so was written.
    Shown,
    /// The reply shows nothing of the name, and the line that says why was written.
    Refused(LookupFault),
    /// The source failed. Nothing was written.
    ReadFault,
    /// The sink failed; it has a front of the line.
    WriteFault,
    /// Out of memory. Nothing was written.
    Memory,
}

/// Reads a store's reply to `prove` from a source, and writes what it shows of a name under a root into a sink, as one line:
/// `value =VALUE`, with the digits that stand in the reply; `none`; or `refused N`, with the number of the cause
/// ([`LookupFault::number`]).
///
/// The reply has to be one proof block (docs/FORMATS.md, Proof blocks) with nothing before or after it. The root has to come
/// from elsewhere: with a line that sets a root the reply is refused as `NoBlock`, wherever the line stands.
///
/// Nothing is written before the source was read to its end, or more than [`MAX_REPLY`] bytes of it, which no proof block has;
/// then at most 65,536 bytes more were taken. The reply is held whole.
///
/// [`MAX_REPLY`]: crate::MAX_REPLY
pub fn judge_reply<S: Source, K: Sink>(
    alloc: Global,
    root: &Hash,
    name: &[u8],
    source: &mut S,
    sink: &mut K,
) -> Judged
    // What was taken and written is as the result says, and what was written is sound and fair as in `look_up`.
    ensures judged { HasJudgedReply result root.now name.now (S.rest source.old) (S.rest source.new) (K.text sink.old) (K.text sink.new) }
    // After `ReadFault` and `Memory` the sink is unchanged.
    ensures unwritten { (result ≡ Judged.ReadFault) ⊎ (result ≡ Judged.Memory) → sink.new ≡ sink.old }
    // `ReadFault` comes only with a fault of the source: its count of faults rose, or stood at its greatest.
    ensures read { result ≡ Judged.ReadFault → HasCause (S.faults source.old) (S.faults source.new) }
    // `WriteFault` comes only with a fault of the sink: its count of faults rose, or stood at its greatest.
    ensures write { result ≡ Judged.WriteFault → HasCause (K.faults sink.old) (K.faults sink.new) }
    // The counts of faults of source and sink don't fall.
    ensures counts { (S.faults source.old ≤ S.faults source.new) × (K.faults sink.old ≤ K.faults sink.new) }
{
    honest_blocks_are_believed();
    let reply = match take_reply(alloc, source) {
        Ok(reply) => reply,
        Err(FetchFault::ReadFault) => return Judged::ReadFault,
        Err(FetchFault::Memory) => return Judged::Memory,
    };
    write_verdict(alloc, look_up(root, name, &reply), sink)
}

// Writes the line of what a reply shows, which is made whole before any of it is written.
fn write_verdict<K: Sink>(alloc: Global, found: Lookup<'_>, sink: &mut K) -> Judged
    ensures written { IfSome (lookup_of found.entry) (λ shown. WritesLookup result shown (K.text sink.old) (K.text sink.new)) }
    ensures unstopped { result ≢ Judged.ReadFault }
    ensures unwritten { result ≡ Judged.Memory → sink.new ≡ sink.old }
    ensures cause { result ≡ Judged.WriteFault → HasCause (K.faults sink.old) (K.faults sink.new) }
    ensures counts { K.faults sink.old ≤ K.faults sink.new }
{
    let Ok(line) = lookup_line(alloc, found) else {
        return Judged::Memory;
    };
    match put_all(sink, line.as_slice()) {
        Ok(()) => match found {
            Lookup::Value(_) | Lookup::Absent => Judged::Shown,
            Lookup::Refused(why) => Judged::Refused(why),
        },
        Err(IoFailed) => Judged::WriteFault,
    }
}
