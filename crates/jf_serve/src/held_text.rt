// Text is held until there is enough of it for the sink.
ghost use Rattle.std.specs.Prelude.{◌≡◌, ◌≤◌, [], Err, OnOk, OnErr};
ghost use Rattle.jf_path.specs.Faults.{HasCause};
ghost use Rattle.jf_io.specs.Sink.{IsCutShort};
ghost use Rattle.jf_input.specs.Feeds.{Appends};
ghost use Rattle.jf_serve.specs.HeldText.{AddsText};

use crate::report::ReportFault;
use jf_io::{Sink, put_all};
use jf_path::Bytes;

/// How many bytes are held until they are put, and the most bytes of an output that is held.
pub(crate) const ENOUGH: u64 = 65_536;

/// Puts what is held into the sink.
pub(crate) fn put_held<K: Sink>(held: &mut Bytes, sink: &mut K) -> Result<(), ReportFault>
    ensures ok { OnOk result (Appends (K.text sink.old) (K.text sink.new) held.old) }
    ensures empty { OnOk result (held.new ≡ []) }
    ensures cut_short { OnErr result (IsCutShort (K.text sink.old) (K.text sink.new) held.old) }
    ensures cause { result ≡ Err ReportFault.WriteFault → HasCause (K.faults sink.old) (K.faults sink.new) }
    ensures counts { K.faults sink.old ≤ K.faults sink.new }
{
    put_all(sink, held.as_slice())?;
    held.clear();
    Ok(())
}

/// Puts what is held into the sink if that is enough.
pub(crate) fn put_enough<K: Sink>(held: &mut Bytes, sink: &mut K) -> Result<(), ReportFault>
    ensures ok { OnOk result (AddsText (K.text sink.old) (K.text sink.new) held.old held.new []) }
    ensures cut_short { OnErr result (IsCutShort (K.text sink.old) (K.text sink.new) held.old) }
    ensures cause { result ≡ Err ReportFault.WriteFault → HasCause (K.faults sink.old) (K.faults sink.new) }
    ensures counts { K.faults sink.old ≤ K.faults sink.new }
{
    if held.len() < ENOUGH {
        return Ok(());
    }
    put_held(held, sink)?;
    Ok(())
}
