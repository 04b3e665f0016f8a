// The outputs of sessions and the entries of a ledger are written into a sink.
ghost use Rattle.std.specs.Prelude.{◌≡◌, ◌≤◌, ◌++◌, Err, OnOk, OnErr, map};
ghost use Rattle.std.specs.List.{concat};
ghost use Rattle.jf_path.specs.Faults.{HasCause};
ghost use Rattle.jf_io.specs.Sink.{IsCutShort};
ghost use Rattle.jf_input.specs.Feeds.{Appends};
ghost use Rattle.jf_serve.specs.HeldText.{AddsText};
ghost use Rattle.jf_serve.specs.ServedTexts.{entry_line, ledger_text, served_text, session_text};

use crate::entry::{write_count, write_entry};
use crate::held_text::{ENOUGH, put_enough, put_held};
use jf_io::{IoFailed, Sink, put_all};
use jf_model::Entry;
use jf_path::{Bytes, Memory};
use std::alloc::Global;

/// Why not all was written.
#[derive(Clone, Copy, Debug, PartialEq, Eq)]
pub enum ReportFault {
    /// The sink failed.
    WriteFault,
    /// Memory ran out.
    Memory,
}

impl From<IoFailed> for ReportFault {
    ghost use Rattle.jf_serve.specs.declared.report.ReportFault.{ReportFault};

    ghost from_gives = { λ _ e. e ≡ ReportFault.WriteFault };

    fn from(_: IoFailed) -> Self {
        ReportFault::WriteFault
    }
}

impl From<Memory> for ReportFault {
    ghost use Rattle.jf_serve.specs.declared.report.ReportFault.{ReportFault};

    ghost from_gives = { λ _ e. e ≡ ReportFault.Memory };

    fn from(_: Memory) -> Self {
        ReportFault::Memory
    }
}

/// Writes the output of each session, after a line that begins it, and then a line for each entry (docs/FORMATS.md,
/// "Several sessions"). After a refusal a front of that was written.
pub fn write_served<K: Sink>(
    alloc: Global,
    outputs: &[Bytes],
    entries: &[Entry],
    sink: &mut K,
) -> Result<(), ReportFault>
    // After success the whole report was appended.
    ensures ok { OnOk result (Appends (K.text sink.old) (K.text sink.new) (served_text outputs.now entries.now)) }
    // After a refusal a front of the report was appended.
    ensures cut_short { OnErr result (IsCutShort (K.text sink.old) (K.text sink.new) (served_text outputs.now entries.now)) }
    // It returns a fault of the sink only if the sink counted one.
    ensures cause { result ≡ Err ReportFault.WriteFault → HasCause (K.faults sink.old) (K.faults sink.new) }
    // The sink's count of faults doesn't fall.
    ensures counts { K.faults sink.old ≤ K.faults sink.new }
{
    let mut held = Bytes::new(alloc);
    write_sessions(outputs, &mut held, sink)?;
    write_ledger(entries, &mut held, sink)?;
    put_held(&mut held, sink)?;
    Ok(())
}

/// Writes the output of each session, after a line that begins it. Some of it may be held.
fn write_sessions<K: Sink>(
    outputs: &[Bytes],
    held: &mut Bytes,
    sink: &mut K,
) -> Result<(), ReportFault>
    ensures ok { OnOk result (AddsText (K.text sink.old) (K.text sink.new) held.old held.new (concat (map session_text outputs.now))) }
    ensures cut_short { OnErr result (IsCutShort (K.text sink.old) (K.text sink.new) (held.old ++ concat (map session_text outputs.now))) }
    ensures cause { result ≡ Err ReportFault.WriteFault → HasCause (K.faults sink.old) (K.faults sink.new) }
    ensures counts { K.faults sink.old ≤ K.faults sink.new }
{
    for output in outputs {
        write_session(output.as_slice(), held, sink)?;
    }
    Ok(())
}

/// Writes the output of a session, after the line that begins it. A long output isn't held.
fn write_session<K: Sink>(output: &[u8], held: &mut Bytes, sink: &mut K) -> Result<(), ReportFault>
    ensures ok { OnOk result (AddsText (K.text sink.old) (K.text sink.new) held.old held.new (session_text output.now)) }
    ensures cut_short { OnErr result (IsCutShort (K.text sink.old) (K.text sink.new) (held.old ++ session_text output.now)) }
    ensures cause { result ≡ Err ReportFault.WriteFault → HasCause (K.faults sink.old) (K.faults sink.new) }
    ensures counts { K.faults sink.old ≤ K.faults sink.new }
{
    held.append(b"session\n")?;
    if output.len() as u64 > ENOUGH {
        put_held(held, sink)?;
        put_all(sink, output)?;
        return Ok(());
    }
    held.append(output)?;
    put_enough(held, sink)?;
    Ok(())
}

/// Writes how many entries there are, and a line for each. Some of it may be held.
fn write_ledger<K: Sink>(
    entries: &[Entry],
    held: &mut Bytes,
    sink: &mut K,
) -> Result<(), ReportFault>
    ensures ok { OnOk result (AddsText (K.text sink.old) (K.text sink.new) held.old held.new (ledger_text entries.now)) }
    ensures cut_short { OnErr result (IsCutShort (K.text sink.old) (K.text sink.new) (held.old ++ ledger_text entries.now)) }
    ensures cause { result ≡ Err ReportFault.WriteFault → HasCause (K.faults sink.old) (K.faults sink.new) }
    ensures counts { K.faults sink.old ≤ K.faults sink.new }
{
    write_count(entries.len() as u64, held)?;
    for entry in entries {
        write_line(entry, held, sink)?;
    }
    Ok(())
}

/// Writes the line of an entry. It may be held.
fn write_line<K: Sink>(entry: &Entry, held: &mut Bytes, sink: &mut K) -> Result<(), ReportFault>
    ensures ok { OnOk result (AddsText (K.text sink.old) (K.text sink.new) held.old held.new (entry_line entry.now)) }
    ensures cut_short { OnErr result (IsCutShort (K.text sink.old) (K.text sink.new) (held.old ++ entry_line entry.now)) }
    ensures cause { result ≡ Err ReportFault.WriteFault → HasCause (K.faults sink.old) (K.faults sink.new) }
    ensures counts { K.faults sink.old ≤ K.faults sink.new }
{
    write_entry(entry, held)?;
    put_enough(held, sink)?;
    Ok(())
}
