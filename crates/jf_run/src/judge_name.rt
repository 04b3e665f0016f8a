// The mode `judge`: a name is looked up in a reply to `prove`, without a store.
ghost use Rattle.std.specs.Prelude.{◌≡◌, ◌⊎◌, ◌≤◌};
ghost use Rattle.jf_path.specs.Faults.{HasCause};
ghost use Rattle.jf_run.specs.JudgingNames.{HasJudgedName};

use crate::status::Status;
use jf_hash::Hash;
use jf_io::{Sink, Source};
use jf_judge::judge_reply;
use std::alloc::Global;

/// Reads the reply to one `prove` from a source, and writes what it shows of a name under a root into the sink, as one line
/// (docs/FORMATS.md, "Judging one name").
pub(crate) fn judge_name<S: Source, K: Sink>(
    alloc: Global,
    root: &Hash,
    name: &[u8],
    source: &mut S,
    sink: &mut K,
) -> Status
    ensures judged { HasJudgedName result root.now name.now (S.rest source.old) (S.rest source.new) (K.text sink.old) (K.text sink.new) }
    ensures unwritten { (result ≡ Status.ReadFault) ⊎ (result ≡ Status.Memory) → sink.new ≡ sink.old }
    ensures read { result ≡ Status.ReadFault → HasCause (S.faults source.old) (S.faults source.new) }
    ensures write { result ≡ Status.WriteFault → HasCause (K.faults sink.old) (K.faults sink.new) }
    ensures source_counts { S.faults source.old ≤ S.faults source.new }
    ensures sink_counts { K.faults sink.old ≤ K.faults sink.new }
{
    Status::of_judged(judge_reply(alloc, root, name, source, sink))
}
