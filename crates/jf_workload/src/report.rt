// What the mode writes of the replies goes into the sink in one piece.
ghost use Rattle.std.specs.Prelude.{◌≡◌, ◌≤◌};
ghost use Rattle.jf_path.specs.Faults.{HasCause};
ghost use Rattle.jf_generate.specs.Reports.{tally_text};
ghost use Rattle.jf_workload.specs.ScriptRuns.{HasReported};

use jf_generate::ReplyTally;
use jf_history::End;
use jf_io::{IoFailed, Sink, put_all};
use jf_path::{Bytes, Memory};
use std::alloc::Global;

/// Writes what the mode writes of the replies that were counted, and returns how the run ends with that.
pub(crate) fn write_report<K: Sink>(alloc: Global, tally: &ReplyTally, sink: &mut K) -> End
    ensures reported { HasReported result (tally_text tally.now) (K.text sink.old) (K.text sink.new) }
    ensures cause { result ≡ End.WriteFault → HasCause (K.faults sink.old) (K.faults sink.new) }
    ensures counts { K.faults sink.old ≤ K.faults sink.new }
{
    let mut report = Bytes::new(alloc);
    if let Err(Memory) = tally.write(&mut report) {
        return End::Memory;
    }
    match put_all(sink, report.as_slice()) {
        Ok(()) => End::Done,
        Err(IoFailed) => End::WriteFault,
    }
}
